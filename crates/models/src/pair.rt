// Two models made one.
// Two types: one over a way to join would need a trait for it, two implementations of that and two more names.
ghost use Rattle.std.specs.Prelude.{◌&&◌, ◌||◌};
ghost use Rattle.models.specs.Pairs.{union, intersection};
ghost use Rattle.std.proofs.Common.{rules};

use crate::facts::Facts;
use crate::model::Model as MemoryModel;

// Keeps what the first or the second keeps.
#[derive(Drop)]
pub struct Either<A, B> {
    pub first: A,
    pub second: B,
}

impl<A: MemoryModel, B: MemoryModel> MemoryModel for Either<A, B> {
    ghost meaning = { λ m. union (A.meaning m.first) (B.meaning m.second) };

    ghost positive = { Prim.search rules };

    fn keeps(&self, facts: Facts) -> bool {
        self.first.keeps(facts) | self.second.keeps(facts)
    }
}

// Keeps what the first and the second keep.
#[derive(Drop)]
pub struct Both<A, B> {
    pub first: A,
    pub second: B,
}

impl<A: MemoryModel, B: MemoryModel> MemoryModel for Both<A, B> {
    ghost meaning = { λ m. intersection (A.meaning m.first) (B.meaning m.second) };

    ghost positive = { Prim.search rules };

    fn keeps(&self, facts: Facts) -> bool {
        self.first.keeps(facts) & self.second.keeps(facts)
    }
}
