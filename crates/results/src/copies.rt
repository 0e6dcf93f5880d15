// The copy beside an insertion: where it would lie in the piece, and whether it is there.
ghost use Rattle.std.specs.Prelude.{◌≡◌, ◌≤◌, length};
ghost use Rattle.definition.specs.Bases.{same_bases};
ghost use Rattle.definition.specs.Limits.{longest_target};
ghost use Rattle.definition.specs.Answer.{copy_beside, copy_start};
ghost use Rattle.definition.specs.declared.Direction.TheVariants.{Rightward, Leftward};
ghost use Rattle.alleles.specs.Held.{held, Good};
ghost use Rattle.alleles.specs.Window.{window, Placed};
ghost use Rattle.results.specs.Found.{found};

use crate::changes::Moved;
use alleles::Allele;
use definition::{Direction, Zero};

// Whether a part of the target holds the same bases as the alternative, up to the first pair that differs.
#[tactic(auto, using(crate::proofs::Compared::compared))]
fn is_copy(part: &[u8], alternative: &Allele) -> bool
    requires { Placed alternative.now.head (length part.now) }
    ensures { result ≡ same_bases part.now (window alternative.now.bytes alternative.now.head (length part.now)) }
{
    for i in 0..part.len() {
        if part[i] != alternative.bytes[(alternative.head + i) % 2048] {
            return false;
        }
    }
    true
}

// Rightward, the bases before the gap are the copy, and the piece begins at or before them.
#[tactic(auto, using(crate::proofs::CopiesLaws::beside), unfolding(definition::specs::Answer::copy_start))]
fn copy_before(change: &Moved) -> Option<Zero>
    requires { Good change.now.alternative.now × (change.now.place.0 ≤ length change.now.target.now) }
    ensures { result ≡ found
        (copy_beside Rightward change.now.piece change.now.target.now change.now.place.0 (held change.now.alternative.now))
        (copy_start Rightward change.now.place.0 change.now.alternative.now.count) }
{
    let gap = change.place.0;
    let first = gap.checked_sub(change.alternative.count)?;
    if first < change.piece.left.0 {
        return None;
    }
    is_copy(&change.target[first..gap], change.alternative).then_some(Zero(first))
}

// Leftward, the bases after the gap are the copy, and the piece and the target end at or after them.
#[tactic(auto, using(crate::proofs::CopiesLaws::beside), unfolding(definition::specs::Answer::copy_start))]
fn copy_after(change: &Moved) -> Option<Zero>
    requires { Good change.now.alternative.now × (change.now.place.0 ≤ length change.now.target.now) × (length change.now.target.now ≤ longest_target) }
    ensures { result ≡ found
        (copy_beside Leftward change.now.piece change.now.target.now change.now.place.0 (held change.now.alternative.now))
        (copy_start Leftward change.now.place.0 change.now.alternative.now.count) }
{
    let gap = change.place.0;
    let last = gap + change.alternative.count;
    if change.piece.right.0 < last || change.target.len() < last {
        return None;
    }
    is_copy(&change.target[gap..last], change.alternative).then_some(change.place)
}

/// Where the copy beside an insertion begins, if there is one that lies wholly in the piece: rightward before its gap, leftward after it.
pub fn copy_beside(change: &Moved) -> Option<Zero>
    requires { Good change.now.alternative.now × (change.now.place.0 ≤ length change.now.target.now) × (length change.now.target.now ≤ longest_target) }
    ensures { result ≡ found
        (copy_beside change.now.direction change.now.piece change.now.target.now change.now.place.0 (held change.now.alternative.now))
        (copy_start change.now.direction change.now.place.0 change.now.alternative.now.count) }
{
    match change.direction {
        Direction::Rightward => copy_before(change),
        Direction::Leftward => copy_after(change),
    }
}
