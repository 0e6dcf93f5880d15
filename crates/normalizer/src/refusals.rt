// A row of the table of refusals, for `?`.
ghost use Rattle.std.specs.Prelude.{◌≡◌, true, false, MatchResult};

use definition::Refusal;

/// The refusal of a row that is given; `Ok` where the row is silent, so that the next one is looked at.
pub(crate) fn refuse_if(given: bool, refusal: Refusal) -> Result<(), Refusal>
    ensures { MatchResult result (λ _. given ≡ false) (λ e. (given ≡ true) × (e ≡ refusal)) }
{
    if given { Err(refusal) } else { Ok(()) }
}
