// A change at its final place, and what it is named by.
use alleles::Allele;
use definition::{Direction, Piece, Zero};

// No invariant: each contract asks its own of a change. Its name asks that it `IsSettled`; the copy beside it and row 16 (`copies`, `leaves_target`) ask less,
// that its place lies in a target that is not too long, and promise as much of all such changes.
/// A change that was moved to its final place in its piece. Its reference is a part of the target, so that only the size is held; its alternative stands in
/// a rotating buffer, which is lent.
#[derive(Clone, Copy)]
pub struct Moved<'a> {
    pub target: &'a [u8],
    pub direction: Direction,
    pub piece: Piece,
    pub place: Zero,
    pub reference_size: usize,
    pub alternative: &'a Allele,
}
