// The numbers of the classes, as a host reads them.
ghost use Rattle.std.specs.Prelude.{◌≡◌};
ghost use Rattle.definition.specs.Answer.{class_number};

use crate::Class;

impl Class {
    /// The class's number, 1 to 6.
    pub fn number(self) -> u32
        ensures { result ≡ class_number self }
    {
        self as u32
    }
}
