// A 0-based position as the 1-based one that an answer gives.
ghost use Rattle.std.specs.Prelude.{◌≡◌, ◌+◌, ◌≤◌};

use crate::{One, Zero};

impl Zero {
    /// The number of the base at this position, 1 for the first.
    pub fn one_based(self) -> One
        requires { self.0 ≤ 2147483647 }
        ensures { result.0 ≡ self.0 + 1 }
    {
        One(self.0 + 1)
    }

    /// The number of the base before this gap: 0 where there is none.
    pub fn before_gap(self) -> One
        ensures { result.0 ≡ self.0 }
    {
        One(self.0)
    }
}
