// What to change where a request is refused: a sentence for each refusal.
ghost use Rattle.std.specs.Prelude.{◌≡◌};
ghost use Rattle.asking.specs.Page.{Put};
ghost use Rattle.normalize.specs.Advice.{advice_text};

use asking::terminal::Page;
use definition::Refusal;

// Puts what to change.
pub(crate) fn put_advice(page: &mut Page, refusal: Refusal)
    ensures { Put page.old (advice_text refusal) page.new }
{
    page.put(advice(refusal).as_bytes());
}

// What to change, in a sentence.
#[tactic(auto, unfolding(crate::specs::Advice::advice_text))]
pub(crate) fn advice(refusal: Refusal) -> &'static str
    ensures { result.now ≡ advice_text refusal }
{
    match refusal {
        Refusal::BadCode => "Give a listed kind, edit and direction.",
        Refusal::BadWindow => "Give a window from 1 to 1024.",
        Refusal::BadTarget => "Give a target of 1 to 65535 bases.",
        Refusal::BadBase => "Give a target of the letters A, C, G and T only.",
        Refusal::CoordinatesOutOfBounds =>
            "Give a range whose start is below its end, inside the target; it counts from 0, and the end is not in it.",
        Refusal::BadInsertion =>
            "Give an insertion's two flanking bases as its range, so that the end is start+2, and at least one letter to insert.",
        Refusal::TooLong => "Give a range and an alternative of at most 1024 bases each.",
        Refusal::BadAllele =>
            "Give an alternative of the letters A, C, G and T only, in upper case.",
        Refusal::NoRoom => "Give answer buffers of at least 1025 bytes each.",
        Refusal::BadTables =>
            "Give 1 to 512 exons in order that don't overlap, the last one ending at the target's end, and CDS bounds inside the target, the start at or before the end.",
        Refusal::ExonNotFoundForStart => "Give a range that starts in an exon.",
        Refusal::ExonNotFoundForEnd => "Give a range whose last base is in an exon.",
        Refusal::ExonIntronBoundary => "Give a range inside one exon, or the kind crossing.",
        Refusal::UtrExonBoundary =>
            "Give a range on one side of CDS start and of CDS end, or the kind crossing.",
        Refusal::VariantSpanOutsideSequenceBounds =>
            "Give the direction right: leftward, this insertion reaches past the target's end.",
    }
}
