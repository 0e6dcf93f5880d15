// `normalize`: rows 1 to 5 in order, then the verdict on what was read. Nothing is left to the caller to check.
#![tactic(auto)]

pub mod alleles_read;
mod codes;
pub mod edits;
pub mod limits;
pub mod queries;
pub mod ranges;
mod refusals;
pub mod replies;
pub mod shortcuts;
pub mod spelling;
mod verdicts;

ghost use Rattle.std.specs.Prelude.{length};
ghost use Rattle.definition.specs.Verdict.{verdict};
ghost use Rattle.definition.specs.Reply.{Met};
ghost use Rattle.normalizer.specs.Asked.{asked};

use crate::queries::Query;
use crate::refusals::refuse_if;
use definition::{Cds, Outcome, Refusal};
use results::buffers::Buffers;
use sequences::bases;

/// Any request gets an answer or one of the refusals, exactly when its row says; a refusal touches no buffer. The parameters are those of the C interface.
#[tactic(auto, unfolding(definition::specs::Verdict::verdict, definition::specs::Verdict::rows, definition::specs::Verdict::request_rows, definition::specs::Verdict::target_rows, definition::specs::Verdict::change_rows, definition::specs::Verdict::refused_or, definition::specs::Verdict::bad_code, definition::specs::Verdict::bad_window, definition::specs::Verdict::bad_target, definition::specs::Verdict::bad_base, definition::specs::Reply::outcome_of, definition::specs::Reply::reference_out, definition::specs::Reply::alternative_out, definition::specs::Reply::written))]
pub fn normalize(
    target: &[u8],
    kind: u32,
    exons: &[u8],
    cds_start: i64,
    cds_end: i64,
    start: i32,
    end: i32,
    edit: u32,
    alternative: &[u8],
    direction: u32,
    window: u32,
    reference_out: &mut [u8],
    alternative_out: &mut [u8],
) -> Outcome
    ensures { Met
        (verdict (asked target.now kind exons.now cds_start cds_end start end edit alternative.now direction window
        (length reference_out.old) (length alternative_out.old)))
        result reference_out.old reference_out.new alternative_out.old alternative_out.new }
{
    refuse_if(limits::bad_code(kind, edit, direction), Refusal::BadCode)?;
    refuse_if(limits::bad_window(window), Refusal::BadWindow)?;
    refuse_if(limits::bad_target(target.len()), Refusal::BadTarget)?;
    refuse_if(!bases::all_bases(target), Refusal::BadBase)?;
    let read = ranges::range_within(start, end, target.len());
    let range = read.ok_or(Refusal::CoordinatesOutOfBounds)?;
    let query = Query {
        target,
        kind: codes::kind_of(kind),
        exons,
        cds: Cds {
            start: codes::bound_of(cds_start),
            end: codes::bound_of(cds_end),
        },
        range,
        edit: codes::edit_of(edit),
        alternative,
        direction: codes::direction_of(direction),
        window: window as usize,
    };
    let mut buffers = Buffers {
        reference: reference_out,
        alternative: alternative_out,
    };
    verdicts::normalize_range(&query, &mut buffers)
}
