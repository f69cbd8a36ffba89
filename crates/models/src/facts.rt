// What a model is told of an earlier and a later instruction of one thread.
ghost use Rattle.std.specs.Prelude.{◌≡◌};
ghost use Rattle.models.specs.Facts.{index, all_kinds};

#[derive(Clone, Copy, Debug, PartialEq, Eq)]
pub enum Kind {
    Read,
    Write,
    Fence,
    Arithmetic,
    Branch,
}

// How many kinds there are: a table has a row and a column for each.
pub const KINDS: usize = 5;

impl Kind {
    // All kinds, in the order of a table's rows and columns.
    pub fn all() -> [Kind; KINDS]
        ensures { result ≡ all_kinds }
    {
        [
            Kind::Read,
            Kind::Write,
            Kind::Fence,
            Kind::Arithmetic,
            Kind::Branch,
        ]
    }

    // The row and the column of this kind in a table. At a call, `usize::from(kind)` would not show that.
    pub fn index(self) -> usize
        ensures { result ≡ index self }
    {
        self as usize
    }
}

// The facts of a pair: both kinds, and whether the two access one location, whether the later one
// names the earlier one's target, and whether the later one is the first write after the earlier, a branch.
#[derive(Clone, Copy, Debug, PartialEq, Eq)]
pub struct Facts {
    pub earlier: Kind,
    pub later: Kind,
    pub same_addr: bool,
    pub data_dep: bool,
    pub control_dep: bool,
}
