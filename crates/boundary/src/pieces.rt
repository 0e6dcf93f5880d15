// The piece of a range on any target: the one piece of open targets and crossing transcripts, or what `get_boundary` gives on a transcript.
ghost use Rattle.std.specs.Prelude.{◌≡◌, ◌<◌};
ghost use Rattle.definition.specs.Piece.{whole_piece, piece_for};
ghost use Rattle.boundary.specs.ReadInOrder.{ReadInOrder};

use crate::get_boundary;
use definition::{Cds, Kind, OPEN_END, Piece, Range, Refusal, Zero};

// The piece of a target that no exon cuts.
#[tactic(auto, unfolding(definition::specs::Piece::whole_piece))]
fn whole_piece() -> Piece
    ensures { result ≡ whole_piece }
{
    Piece {
        left: Zero(0),
        right: Zero(OPEN_END),
    }
}

/// The piece of a range: open targets and crossing transcripts have one piece, and their tables are not read.
///
/// # Errors
/// On a transcript, those of `get_boundary`.
#[tactic(auto, unfolding(definition::specs::Piece::piece_for))]
pub fn piece_for(kind: Kind, table: &[u8], cds: Cds, range: Range) -> Result<Piece, Refusal>
    requires { (range.start.0 < range.end.0) × ReadInOrder kind table.now }
    ensures { result ≡ piece_for kind table.now cds.start cds.end range.start.0 range.end.0 }
{
    match kind {
        Kind::Transcript => get_boundary(table, cds, range),
        Kind::Open | Kind::Crossing => Ok(whole_piece()),
    }
}
