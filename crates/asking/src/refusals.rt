// The refusals in words, by their numbers and names in docs/RULES.md.
ghost use Rattle.std.specs.Prelude.{◌≡◌};
ghost use Rattle.asking.specs.Page.{Put};
ghost use Rattle.asking.specs.Refusals.{refusal_name, refusal_text};

use crate::terminal::Page;
use definition::Refusal;

/// The name of a refusal, as `BadBase`.
#[tactic(auto, unfolding(crate::specs::Refusals::refusal_name))]
pub fn refusal_name(refusal: Refusal) -> &'static str
    ensures { result.now ≡ refusal_name refusal }
{
    match refusal {
        Refusal::BadCode => "BadCode",
        Refusal::BadWindow => "BadWindow",
        Refusal::BadTarget => "BadTarget",
        Refusal::BadBase => "BadBase",
        Refusal::CoordinatesOutOfBounds => "CoordinatesOutOfBounds",
        Refusal::BadInsertion => "BadInsertion",
        Refusal::TooLong => "TooLong",
        Refusal::BadAllele => "BadAllele",
        Refusal::NoRoom => "NoRoom",
        Refusal::BadTables => "BadTables",
        Refusal::ExonNotFoundForStart => "ExonNotFoundForStart",
        Refusal::ExonNotFoundForEnd => "ExonNotFoundForEnd",
        Refusal::ExonIntronBoundary => "ExonIntronBoundary",
        Refusal::UtrExonBoundary => "UtrExonBoundary",
        Refusal::VariantSpanOutsideSequenceBounds => "VariantSpanOutsideSequenceBounds",
    }
}

/// Puts the number and the name of a refusal, as `refusal 4 BadBase`.
pub fn put_refusal(page: &mut Page, refusal: Refusal)
    ensures { Put page.old (refusal_text refusal) page.new }
{
    page.put(b"refusal ");
    page.put_number(refusal.number() as usize);
    page.put(b" ");
    page.put(refusal_name(refusal).as_bytes());
}
