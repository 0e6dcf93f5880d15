// The numbers of the refusals, as a host reads them.
ghost use Rattle.std.specs.Prelude.{◌≡◌};
ghost use Rattle.definition.specs.Reply.{refusal_number};

use crate::Refusal;

impl Refusal {
    /// The row's number, 1 to 16; 11 is reserved and never given.
    pub fn number(self) -> u32
        ensures { result ≡ refusal_number self }
    {
        self as u32
    }
}
