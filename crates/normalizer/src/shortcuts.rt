// The two requests that are answered at once, between rows 10 and 12: a replacement by the same bases, and a substitution of one base.
ghost use Rattle.std.specs.Prelude.{◌≡◌, ◌-◌, ◌<◌, ◌≤◌, length};
ghost use Rattle.std.proofs.Math.Seq.{slice};
ghost use Rattle.definition.specs.Limits.{longest_target, longest_allele};
ghost use Rattle.definition.specs.Verdict.{answered, answer_at_once};
ghost use Rattle.results.specs.Asked.{Room};
ghost use Rattle.results.specs.Lent.{MetIn, SameBuffers};
ghost use Rattle.normalizer.specs.Ways.{replaced_way, way_of, in_place};

use crate::queries::Query;
use definition::{Answered, Class, Edit, Outcome, Range};
use results::buffers;
use results::buffers::Buffers;
use sequences::reach;

/// The class of a request that is answered at once; only a replacement is. Another, `None`, is answered in its piece.
#[inline(always)]
#[tactic(auto, unfolding(crate::specs::Ways::way_of))]
pub fn way_of(query: &Query) -> Option<Class>
    requires { (query.now.range.start.0 < query.now.range.end.0) × (query.now.range.end.0 ≤ length query.now.target.now) }
    ensures { result ≡ way_of query.now.edit query.now.target.now query.now.range.start.0 query.now.range.end.0 query.now.alternative.now }
{
    match query.edit {
        Edit::Replace => substitution(query.target, query.range, query.alternative),
        Edit::Insert | Edit::Duplicate | Edit::Delete | Edit::Invert => None,
    }
}

// The class of a replacement that is answered at once: by the same bases, or of one base by one other.
#[tactic(auto, using(crate::proofs::Ways::ways))]
fn substitution(target: &[u8], range: Range, alternative: &[u8]) -> Option<Class>
    requires { (range.start.0 < range.end.0) × (range.end.0 ≤ length target.now) }
    ensures { result ≡ replaced_way (slice range.start.0 range.end.0 target.now) alternative.now }
{
    if reach::is_same(&target[range.start.0..range.end.0], alternative) {
        return Some(Class::Unchanged);
    }
    if range.end.0 - range.start.0 != 1 || alternative.len() != 1 {
        return None;
    }
    Some(Class::Replacement)
}

/// An answer given at once: the range as it is, with its bases and the alternative.
#[tactic(auto, using(crate::proofs::InPlace::in_place_parts), unfolding(definition::specs::Verdict::answer_at_once, definition::specs::Reply::outcome_of, definition::specs::Reply::reference_out, definition::specs::Reply::alternative_out))]
pub fn answer_in_place(class: Class, query: &Query, buffers: &mut Buffers) -> Outcome
    requires in_target { (query.now.range.start.0 < query.now.range.end.0) × (query.now.range.end.0 ≤ length query.now.target.now) × (length query.now.target.now ≤ longest_target) }
    requires alleles { (query.now.range.end.0 - query.now.range.start.0 ≤ longest_allele) × (length query.now.alternative.now ≤ longest_allele) }
    requires room { Room buffers.old.reference.now buffers.old.alternative.now }
    ensures met { MetIn
        (answered (answer_at_once (in_place class query.now.target.now query.now.range.start.0 query.now.range.end.0 query.now.alternative.now)))
        result buffers.old buffers.new }
    ensures same_buffers { SameBuffers buffers.old buffers.new }
{
    let from = query.range.start.0;
    let to = query.range.end.0;
    buffers::write_part(&query.target[from..to], buffers.reference);
    buffers::write_part(query.alternative, buffers.alternative);
    Ok(Answered {
        class,
        start: query.range.start.one_based(),
        end: query.range.end.before_gap(),
        probes: 0,
        reference_size: to - from,
        alternative_size: query.alternative.len(),
    })
}
