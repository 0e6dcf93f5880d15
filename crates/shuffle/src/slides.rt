// Windows in a row: a change with an allele empty moves window by window to the furthest place inside piece and target. The window shows nowhere in
// what comes back, so each is twice as long as the one before, up to the longest.
ghost use Rattle.std.specs.Prelude.{◌≡◌};
ghost use Rattle.shuffle.specs.Slides.{Poised, Slid, edge, moved, Movable};

use crate::{Alleles, windows};
use definition::{Direction, LONGEST_WINDOW, Piece, Zero};

/// A change at its final place: the gap before it, and the pairs of bases that the move compared. Its alleles there are in the buffers that were lent.
#[derive(Clone, Copy)]
pub struct Shuffled {
    pub place: Zero,
    pub probes: usize,
}

// How far a change may go that way: to the end of the piece, and rightward of the target.
#[tactic(auto, unfolding(definition::specs::Place::right_edge))]
fn edge_of(direction: Direction, piece: Piece, target: &[u8]) -> usize
    ensures { result ≡ edge direction piece target.now }
{
    match direction {
        Direction::Rightward => piece.right.0.min(target.len()),
        Direction::Leftward => piece.left.0,
    }
}

// Where a change is that moved so many places that way.
fn moved_on(direction: Direction, place: usize, count: usize) -> usize
    requires { Movable direction place count }
    ensures { result ≡ moved direction place count }
{
    match direction {
        Direction::Rightward => place + count,
        Direction::Leftward => place - count,
    }
}

/// Windows in a row that way, the first of `most` bases.
pub fn slide(
    direction: Direction,
    target: &[u8],
    piece: Piece,
    start: usize,
    alleles: &mut Alleles,
    most: usize,
) -> Shuffled
    requires { Poised piece target.now start alleles.old.reference alleles.old.alternative most }
    ensures { Slid direction piece target.now start alleles.old.reference alleles.old.alternative alleles.new.reference alleles.new.alternative result }
{
    let edge = edge_of(direction, piece, target);
    let mut place = start;
    let mut width = most;
    loop {
        let step = windows::normalize_alleles_inner(direction, target, place, edge, width, alleles);
        place = moved_on(direction, place, step.moved);
        if step.moved < width {
            let stopped = step.moved < step.size;
            return Shuffled {
                place: Zero(place),
                probes: place.abs_diff(start) + usize::from(stopped),
            };
        }
        width = (2 * width).min(LONGEST_WINDOW as usize);
    }
}
