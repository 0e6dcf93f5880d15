// The shuffle: what the alleles of a change share comes off, from the front first or from the back first, and the change without it moves.
#![tactic(auto)]

pub mod moves;
pub mod slides;
pub mod windows;

ghost use Rattle.definition.specs.declared.Direction.TheVariants.{Rightward, Leftward};
ghost use Rattle.shuffle.specs.Settled.{Asked, Settled, Shares, change};

use crate::moves::Shared;
use crate::slides::Shuffled;
use alleles::Allele;
use definition::{Direction, Piece, Zero};

/// The two alleles of a change on its way, each in its buffer.
#[derive(Drop)]
pub struct Alleles {
    pub reference: Allele,
    pub alternative: Allele,
}

/// A change as it is spelled: the bases of the target from gap `from` up to gap `to` give way to those inserted.
#[derive(Clone, Copy)]
pub struct Spelled<'a> {
    pub from: Zero,
    pub to: Zero,
    pub inserted: &'a [u8],
}

// The front that both alleles share comes off first, then the back. This and the next are the two arms of `shared_by`: the order of the trims is all of them.
#[tactic(auto, using(crate::proofs::Trimming::rightward))]
fn front_first(reference: &[u8], alternative: &[u8]) -> Shared
    ensures { Shares Rightward reference.now alternative.now result }
{
    let front = sequences::trim_common_prefixes(reference, alternative);
    let rest = &reference[front..];
    let other = &alternative[front..];
    let back = sequences::trim_common_suffixes(rest, other);
    Shared { front, back }
}

// The back that both alleles share comes off first, then the front.
#[tactic(auto, using(crate::proofs::Trimming::leftward))]
fn back_first(reference: &[u8], alternative: &[u8]) -> Shared
    ensures { Shares Leftward reference.now alternative.now result }
{
    let back = sequences::trim_common_suffixes(reference, alternative);
    let rest = &reference[..reference.len() - back];
    let other = &alternative[..alternative.len() - back];
    let front = sequences::trim_common_prefixes(rest, other);
    Shared { front, back }
}

// What two alleles share, rightward with the front first and leftward with the back.
fn shared_by(direction: Direction, reference: &[u8], alternative: &[u8]) -> Shared
    ensures { Shares direction reference.now alternative.now result }
{
    match direction {
        Direction::Rightward => front_first(reference, alternative),
        Direction::Leftward => back_first(reference, alternative),
    }
}

/// A change that is spelled inside piece and target, trimmed and moved as far that way as its altered sequence stays the same. Its alleles go into the two
/// buffers that are lent, whatever these held; the first window is of `most` bases, and shows nowhere.
pub fn normalize_alleles(
    direction: Direction,
    target: &[u8],
    piece: Piece,
    spelled: Spelled,
    most: usize,
    alleles: &mut Alleles,
) -> Shuffled
    requires { Asked piece target.now (change spelled) most }
    ensures { Settled direction piece target.now (change spelled.entry)
        alleles.new.reference alleles.new.alternative result }
{
    let reference = &target[spelled.from.0..spelled.to.0];
    let shared = shared_by(direction, reference, spelled.inserted);
    moves::move_trimmed(direction, target, piece, spelled, shared, most, alleles)
}
