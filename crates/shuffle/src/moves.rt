// A trimmed change: with both alleles left it stays where it is, with one used up it moves to the furthest place inside piece and target.
ghost use Rattle.std.proofs.Math.Seq.{slice};
ghost use Rattle.shuffle.specs.Settled.{Asked, Settled, Shares, change};

use crate::slides::Shuffled;
use crate::{Alleles, Spelled, slides};
use definition::{Direction, Piece, Zero};

/// What two alleles share: so many bases at the front, and so many at the back.
#[derive(Clone, Copy)]
pub struct Shared {
    pub front: usize,
    pub back: usize,
}

/// A change without what its alleles share. With both alleles left it stays where it is; with one used up, or both, it moves. Its alleles go into the two
/// buffers that are lent, whatever these held.
pub fn move_trimmed(
    direction: Direction,
    target: &[u8],
    piece: Piece,
    spelled: Spelled,
    shared: Shared,
    most: usize,
    alleles: &mut Alleles,
) -> Shuffled
    requires asked { Asked piece target.now (change spelled) most }
    requires shares { Shares direction (slice spelled.from.0 spelled.to.0 target.now) spelled.inserted.now shared }
    ensures { Settled direction piece target.now (change spelled.entry) alleles.new.reference alleles.new.alternative result }
{
    let Shared { front, back } = shared;
    let start = spelled.from.0 + front;
    let end = spelled.to.0 - back;
    let last = spelled.inserted.len() - back;
    alleles.reference.fill(&target[start..end]);
    alleles.alternative.fill(&spelled.inserted[front..last]);
    if start < end && front < last {
        return Shuffled {
            place: Zero(start),
            probes: 0,
        };
    }
    slides::slide(direction, target, piece, start, alleles, most)
}
