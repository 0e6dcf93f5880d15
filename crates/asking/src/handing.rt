// A request that words make, handed to the normalizer with its target: its exon table and its numbers as the normalizer takes them.
ghost use Rattle.std.specs.Prelude.{◌≡◌, length};
ghost use Rattle.asking.specs.Laid.{laid_at};
ghost use Rattle.asking.specs.Handed.{position_of, bound_number};
ghost use Rattle.asking.specs.Reached.{Answers, exons_at, on_target};

use crate::exon_lists::BadExons;
use crate::problems::Problem;
use crate::requests::Request;
use crate::{exon_lists, lines, requests, text};
use definition::Outcome;

// A number of the range as the normalizer takes it. One that is too large for it was refused as it was read.
fn position_of(number: u32) -> i32
    ensures { result ≡ position_of number }
{
    i32::try_from(number).unwrap_or(-1)
}

// A bound of the CDS as the normalizer takes it.
fn bound_number(bound: Option<u32>) -> i64
    ensures { result ≡ bound_number bound }
{
    bound.map_or(-1, i64::from)
}

// The exon table that a word gives: empty where no word does.
#[tactic(auto, using(crate::proofs::Tables::nothing_laid), unfolding(crate::specs::Reached::exons_at))]
fn exons_at(text: &[u8], word: Option<usize>, table: &mut [u8]) -> Result<usize, BadExons>
    ensures value { result ≡ (exons_at text.now word).came }
    ensures table_after { table.new ≡ laid_at 0 (exons_at text.now word).bytes table.old }
{
    match word {
        Some(at) => exon_lists::read_exons(lines::word(text, at), table),
        None => Ok(0),
    }
}

// A request for an edit of a range is handed on with its target, where its exons are read.
pub(crate) fn hand(
    text: &[u8],
    request: Request,
    edit: u32,
    range: (u32, u32),
    target: &[u8],
    reference_out: &mut [u8],
    alternative_out: &mut [u8],
) -> Result<Outcome, Problem>
    ensures { Answers
        (on_target text.now request edit range target.now
        (length reference_out.old) (length alternative_out.old))
        result reference_out.old reference_out.new alternative_out.old alternative_out.new }
{
    let mut table = [0u8; 4104];
    let exons = exons_at(text, request.words.exons, &mut table)?;
    Ok(normalizer::normalize(
        target,
        request.codes.kind,
        text::part(&table, 0, exons),
        bound_number(request.bounds.start),
        bound_number(request.bounds.end),
        position_of(range.0),
        position_of(range.1),
        edit,
        requests::given(text, request.words.alternative),
        request.codes.direction,
        request.codes.window,
        reference_out,
        alternative_out,
    ))
}
