// The two end rules, on what a change is called: a result before the first base, and one past the last.
ghost use Rattle.std.specs.Prelude.{◌≡◌, ◌≤◌, length};
ghost use Rattle.definition.specs.Limits.{longest_target};
ghost use Rattle.definition.specs.Answer.{first_base_rule, has_last_base_rule, last_base_rule};
ghost use Rattle.results.specs.Rules.{Applies, FirstClass};

use crate::classes::{Anchor, Called};
use definition::{Class, Kind, Zero};

// Equal alleles are unchanged: an alternative and the first base behind it are the first base where the alternative is empty.
#[tactic(auto, using(crate::proofs::Rules::class_unchanged, crate::proofs::Rules::class_replaced))]
fn replaced_or_unchanged(alternative_size: usize) -> Class
    ensures { FirstClass alternative_size result }
{
    if alternative_size == 0 {
        Class::Unchanged
    } else {
        Class::Replacement
    }
}

/// A result start of 0 becomes the first base, with that base behind the alternative.
#[tactic(auto, using(crate::proofs::Rules::due))]
pub fn first_base_rule(target: &[u8], called: Called) -> Called
    requires { 1 ≤ length target.now }
    ensures { Applies (first_base_rule target.now) target.now called result }
{
    if 0 < called.start.0 {
        return called;
    }
    let alternative_size = called.alternative_size;
    Called {
        class: replaced_or_unchanged(alternative_size),
        start: Zero(0).one_based(),
        end: Zero(0).one_based(),
        reference_start: Zero(0),
        reference_size: 1,
        alternative_size,
        anchor: Anchor::First,
    }
}

// Open targets have no rule for the last base.
#[tactic(auto, unfolding(definition::specs::Answer::has_last_base_rule))]
fn has_last_base_rule(kind: Kind) -> bool
    ensures { result ≡ has_last_base_rule kind }
{
    match kind {
        Kind::Open => false,
        Kind::Transcript | Kind::Crossing => true,
    }
}

/// A result end past the last base becomes the last base, with that base before the alternative.
#[tactic(auto, using(crate::proofs::Rules::due))]
pub fn last_base_rule(target: &[u8], kind: Kind, called: Called) -> Called
    requires { (1 ≤ length target.now) × (length target.now ≤ longest_target) }
    ensures { Applies (last_base_rule kind target.now) target.now called result }
{
    if !has_last_base_rule(kind) {
        return called;
    }
    let size = target.len();
    if called.end.0 != size + 1 {
        return called;
    }
    Called {
        class: Class::Replacement,
        start: Zero(size).before_gap(),
        end: Zero(size).before_gap(),
        reference_start: Zero(size - 1),
        reference_size: 1,
        alternative_size: called.alternative_size,
        anchor: Anchor::Last,
    }
}
