// What a request gets whose range is read: rows 6 to 10 in order, then an answer at once, or the piece and what is spelled there.
ghost use Rattle.std.specs.Prelude.{length};
ghost use Rattle.definition.specs.Verdict.{after_shortcuts};
ghost use Rattle.results.specs.Asked.{Room};
ghost use Rattle.results.specs.Lent.{MetIn, SameBuffers};
ghost use Rattle.normalizer.specs.Passed.{range_verdict};
ghost use Rattle.normalizer.specs.Queries.{InTarget, HasPassed, spelled_by, piece_by, shortcut_by};

use crate::queries::Query;
use crate::refusals::refuse_if;
use crate::{alleles_read, edits, limits, shortcuts, spelling};
use boundary::pieces;
use definition::{Outcome, Refusal};
use results::buffers::Buffers;

// A request that passes rows 1 to 10: an answer at once, or rows 12 to 15 and the change in its piece.
#[inline(always)]
fn answer_passed(query: &Query, buffers: &mut Buffers) -> Outcome
    requires passed { HasPassed query.now }
    requires room { Room buffers.old.reference.now buffers.old.alternative.now }
    ensures met { MetIn
        (after_shortcuts query.now.direction query.now.kind query.now.target.now (spelled_by query.now) (piece_by query.now) (shortcut_by query.now))
        result buffers.old buffers.new }
    ensures same_buffers { SameBuffers buffers.old buffers.new }
{
    if let Some(class) = shortcuts::way_of(query) {
        return shortcuts::answer_in_place(class, query, buffers);
    }
    let piece = pieces::piece_for(query.kind, query.exons, query.cds, query.range)?;
    spelling::spell(query, piece, buffers)
}

// Rows 6 to 10, of a range that passes row 5; then the answer.
#[inline(always)]
#[tactic(auto, unfolding(crate::specs::Passed::range_verdict, definition::specs::Verdict::refused_or, definition::specs::Reply::outcome_of, definition::specs::Reply::reference_out, definition::specs::Reply::alternative_out, definition::specs::Reply::written))]
pub(crate) fn normalize_range(query: &Query, buffers: &mut Buffers) -> Outcome
    requires { InTarget query.now }
    ensures met { MetIn
        (range_verdict query.now.target.now query.now.kind query.now.exons.now query.now.cds.start query.now.cds.end query.now.range.start.0 query.now.range.end.0
        query.now.edit query.now.alternative.now query.now.direction (length buffers.old.reference.now) (length buffers.old.alternative.now))
        result buffers.old buffers.new }
    ensures same_buffers { SameBuffers buffers.old buffers.new }
{
    refuse_if(
        edits::bad_insertion(query.edit, query.range, query.alternative),
        Refusal::BadInsertion,
    )?;
    refuse_if(
        alleles_read::too_long(query.edit, query.range, query.alternative),
        Refusal::TooLong,
    )?;
    refuse_if(
        alleles_read::bad_allele(query.edit, query.alternative),
        Refusal::BadAllele,
    )?;
    refuse_if(
        limits::no_room(buffers.reference.len(), buffers.alternative.len()),
        Refusal::NoRoom,
    )?;
    refuse_if(
        tables::bad_tables(query.kind, query.exons, query.cds, query.target.len()),
        Refusal::BadTables,
    )?;
    answer_passed(query, buffers)
}
