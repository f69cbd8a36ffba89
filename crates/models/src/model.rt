// A model: the set of fact combinations that it keeps in program order.
ghost use Rattle.std.specs.Prelude.{◌≡◌, Bool};
ghost use Rattle.models.specs.Facts.{Positive};
ghost use Rattle.models.specs.declared.facts.Facts.{Facts};

use crate::facts::Facts;

pub trait Model {
    // the set that it keeps
    ghost meaning: { Self → Facts → Bool };

    // Whether a pair with these facts stays in program order.
    fn keeps(&self, facts: Facts) -> bool
        ensures { result ≡ meaning self.now facts };

    // a kept combination stays kept when any of the three facts turns from no to yes
    ghost positive: { (m : Self) → Positive (meaning m) };
}
