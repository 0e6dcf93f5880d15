// A piece cut at a CDS bound, and the row of a range that lies on both sides of one.
ghost use Rattle.std.specs.Prelude.{◌≡◌, Ok};
ghost use Rattle.definition.specs.declared.Bound.TheVariants.{At};
ghost use Rattle.definition.specs.Piece.{cut_at};

use definition::{Bound, Piece, Range, Refusal, Zero};

// A piece, cut at gap c to the side on which the range lies; refused where the range has bases on both.
#[tactic(auto, unfolding(definition::specs::Piece::cut_at))]
fn cut_piece(c: usize, range: Range, piece: Piece) -> Result<Piece, Refusal>
    ensures { result ≡ cut_at (At c) range.start.0 range.end.0 (Ok piece) }
{
    let Piece { left, right } = piece;
    if range.end.0 <= c {
        let cut = Zero(right.0.min(c));
        return Ok(Piece { left, right: cut });
    }
    if c <= range.start.0 {
        let cut = Zero(left.0.max(c));
        return Ok(Piece { left: cut, right });
    }
    Err(Refusal::UtrExonBoundary)
}

/// What was found, cut at a CDS bound. A bound that is no number cuts nothing.
///
/// # Errors
/// What was found, where it is an error; else `UtrExonBoundary` where the range has bases on both sides of the bound.
#[tactic(auto, unfolding(definition::specs::Piece::cut_at))]
pub fn cut_at(bound: Bound, range: Range, found: Result<Piece, Refusal>) -> Result<Piece, Refusal>
    ensures { result ≡ cut_at bound range.start.0 range.end.0 found }
{
    let piece = found?;
    match bound {
        Bound::At(c) => cut_piece(c, range, piece),
        Bound::Absent | Bound::Negative => Ok(piece),
    }
}
