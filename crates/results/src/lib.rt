// The answer of a change at its final place: row 16, what the change is called there, the two end rules, and both alleles written out.
#![tactic(auto)]

pub mod buffers;
pub mod changes;
pub mod classes;
pub mod copies;
pub mod end_rules;
pub mod inversions;

ghost use Rattle.std.specs.Prelude.{◌+◌, ◌≤◌, length};
ghost use Rattle.std.proofs.Math.Seq.{slice};
ghost use Rattle.definition.specs.Limits.{longest_target, longest_allele};
ghost use Rattle.definition.specs.Verdict.{answered_or16, named_at};
ghost use Rattle.alleles.specs.Held.{held};
ghost use Rattle.results.specs.Settled.{IsSettled};
ghost use Rattle.results.specs.Asked.{Room};
ghost use Rattle.results.specs.Reported.{reported};
ghost use Rattle.results.specs.Leaves.{Leaves};
ghost use Rattle.results.specs.Lent.{MetIn, SameBuffers};

use crate::buffers::Buffers;
use crate::changes::Moved;
use definition::{Direction, Kind, Outcome, Refusal};

// Row 16: a pure insertion leftward whose bases would pass the end of the target, in a piece that does.
#[tactic(auto, unfolding(definition::specs::Answer::leaves_target))]
fn leaves_target(change: &Moved) -> bool
    requires { (change.now.place.0 ≤ length change.now.target.now) × (length change.now.target.now ≤ longest_target) × (change.now.alternative.now.count ≤ longest_allele) }
    ensures { Leaves change.now.direction change.now.piece change.now.target.now change.now.place.0 change.now.reference_size change.now.alternative.now.count result }
{
    match change.direction {
        Direction::Rightward => false,
        Direction::Leftward => {
            let size = change.target.len();
            (change.reference_size == 0)
                & (size < change.piece.right.0)
                & (size < change.place.0 + change.alternative.count)
        }
    }
}

/// The answer of a change at its final place, or row 16, which touches no buffer.
pub fn build_result(change: &Moved, kind: Kind, probes: usize, buffers: &mut Buffers) -> Outcome
    requires settled { IsSettled change.now }
    requires room { Room buffers.old.reference.now buffers.old.alternative.now }
    ensures met { MetIn
        (answered_or16 (reported probes) (named_at change.now.direction kind change.now.piece change.now.target.now change.now.place.0
        (slice change.now.place.0 (change.now.place.0 + change.now.reference_size) change.now.target.now)
        (held change.now.alternative.now)))
        result buffers.old buffers.new }
    ensures same_buffers { SameBuffers buffers.old buffers.new }
{
    if leaves_target(change) {
        return Err(Refusal::VariantSpanOutsideSequenceBounds);
    }
    let called = classes::named(change);
    let begun = end_rules::first_base_rule(change.target, called);
    let ended = end_rules::last_base_rule(change.target, kind, begun);
    buffers::build_result_construct(change.target, change.alternative, ended, probes, buffers)
}
