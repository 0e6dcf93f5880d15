// What a change at its final place is called: its class and its 1-based range, before the end rules.
ghost use Rattle.std.specs.Prelude.{◌≡◌, cond, ◌+◌, ◌<◌, ◌≤◌, eqb};
ghost use Rattle.definition.specs.Limits.{longest_target, longest_allele};
ghost use Rattle.definition.specs.declared.Class.TheVariants.{Deletion, Replacement};
ghost use Rattle.alleles.specs.Held.{held};
ghost use Rattle.results.specs.Called.{unanchored, CallsMoved, CallsInAny, CallsAny};
ghost use Rattle.results.specs.Settled.{IsSettled};

use crate::changes::Moved;
use crate::{copies, inversions};
use definition::{Class, One, Zero};

/// The base of the target that an end rule writes beside the alternative: none, the first base behind it, or the last base before it.
#[derive(Clone, Copy)]
pub enum Anchor {
    Alone,
    First,
    Last,
}

/// What a change is called, its range, and where the alleles of its answer stand: the reference is a part of the target, the alternative the
/// first bases of the change's own, beside the anchor.
#[derive(Clone, Copy)]
pub struct Called {
    pub class: Class,
    pub start: One,
    pub end: One,
    pub reference_start: Zero,
    pub reference_size: usize,
    pub alternative_size: usize,
    pub anchor: Anchor,
}

// A class whose range is the reference's: the bases from the place on.
fn over_reference(
    class: Class,
    place: Zero,
    reference_size: usize,
    alternative_size: usize,
) -> Called
    requires { place.0 + reference_size ≤ longest_target }
    ensures { result ≡ unanchored class (place.0 + 1) (place.0 + reference_size) place.0 reference_size alternative_size }
{
    Called {
        class,
        start: place.one_based(),
        end: Zero(place.0 + reference_size).before_gap(),
        reference_start: place,
        reference_size,
        alternative_size,
        anchor: Anchor::Alone,
    }
}

// The reference goes and the alternative stands in its place: a deletion where there is no alternative, else a replacement.
fn deleted_or_replaced(place: Zero, reference_size: usize, count: usize) -> Called
    requires { place.0 + reference_size ≤ longest_target }
    ensures { result ≡ unanchored (cond (eqb count 0) Deletion Replacement)
        (place.0 + 1) (place.0 + reference_size) place.0 reference_size count }
{
    let class = if count == 0 {
        Class::Deletion
    } else {
        Class::Replacement
    };
    over_reference(class, place, reference_size, count)
}

// The alternative is longer: where the reference is empty a duplication or an insertion, else a replacement.
#[tactic(auto, using(crate::proofs::Names::names))]
fn build_result_len_gt(change: &Moved) -> Called
    requires settled { IsSettled change.now }
    requires longer { change.now.reference_size < change.now.alternative.now.count }
    ensures { CallsMoved change.now result }
{
    let place = change.place;
    let reference_size = change.reference_size;
    let count = change.alternative.count;
    if 0 < reference_size {
        return over_reference(Class::Replacement, place, reference_size, count);
    }
    match copies::copy_beside(change) {
        Some(first) => over_reference(Class::Duplication, first, count, 0),
        None => Called {
            class: Class::Insertion,
            start: place.before_gap(),
            end: place.one_based(),
            reference_start: place,
            reference_size: 0,
            alternative_size: count,
            anchor: Anchor::Alone,
        },
    }
}

// The reference is longer: a deletion or a replacement.
#[tactic(auto, using(crate::proofs::Names::names))]
fn build_result_len_less(place: Zero, reference_size: usize, count: usize) -> Called
    requires { (place.0 + reference_size ≤ longest_target) × (reference_size ≤ longest_allele) × (count < reference_size) }
    ensures { CallsAny place.0 reference_size count result }
{
    deleted_or_replaced(place, reference_size, count)
}

// Both are as long: an inversion, no change, or a replacement. The Rust's deletion case is kept in the last call: it would need an empty
// alternative, and then both are empty and nothing is changed.
#[tactic(auto, using(crate::proofs::Names::names))]
fn build_result_len_eq(change: &Moved) -> Called
    requires settled { IsSettled change.now }
    requires as_long { change.now.reference_size ≡ change.now.alternative.now.count }
    ensures { CallsInAny change.now.target.now change.now.place.0 change.now.reference_size (held change.now.alternative.now) result }
{
    let place = change.place;
    let reference_size = change.reference_size;
    let count = change.alternative.count;
    if inversions::is_inversion(change.target, place, change.alternative) {
        return over_reference(Class::Inversion, place, reference_size, 0);
    }
    if reference_size == 0 {
        return Called {
            class: Class::Unchanged,
            start: place.before_gap(),
            end: place.before_gap(),
            reference_start: place,
            reference_size: 0,
            alternative_size: 0,
            anchor: Anchor::Alone,
        };
    }
    deleted_or_replaced(place, reference_size, count)
}

/// What the change is called, by which allele is longer.
#[tactic(auto, using(crate::proofs::Names::names))]
pub fn named(change: &Moved) -> Called
    requires { IsSettled change.now }
    ensures { CallsMoved change.now result }
{
    let reference_size = change.reference_size;
    let count = change.alternative.count;
    if reference_size < count {
        return build_result_len_gt(change);
    }
    if count < reference_size {
        return build_result_len_less(change.place, reference_size, count);
    }
    build_result_len_eq(change)
}
