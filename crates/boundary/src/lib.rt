// The piece of a range on a transcript: the exon that holds it, cut at the CDS bounds.
#![tactic(auto)]

pub mod cuts;
pub mod pieces;

ghost use Rattle.std.specs.Prelude.{◌≡◌, true, ◌<◌};
ghost use Rattle.definition.specs.Piece.{exons_in, exons_in_order, pieces_of, exon_piece, transcript_piece};

use definition::{Cds, Exon, Piece, Range, Refusal, Zero};
use tables::exons::Exons;

// The exon of the first base and that of the last make a piece if they are one exon.
#[tactic(auto, unfolding(definition::specs::Piece::exon_piece))]
fn exon_piece(first: Option<Exon>, last: Option<Exon>) -> Result<Piece, Refusal>
    ensures { result ≡ exon_piece first last }
{
    let first = first.ok_or(Refusal::ExonNotFoundForStart)?;
    let last = last.ok_or(Refusal::ExonNotFoundForEnd)?;
    if first != last {
        return Err(Refusal::ExonIntronBoundary);
    }
    Ok(Piece {
        left: first.start,
        right: first.end,
    })
}

/// The exon that holds the range, cut on the range's side of CDS start, then of CDS end.
///
/// # Errors
/// `ExonNotFoundForStart` and `ExonNotFoundForEnd` where no exon holds the range's first or last base, `ExonIntronBoundary` where two exons do,
/// `UtrExonBoundary` where the range has bases on both sides of a bound.
#[tactic(auto, unfolding(definition::specs::Piece::transcript_piece, definition::specs::Piece::pieces_of))]
pub fn get_boundary(table: &[u8], cds: Cds, range: Range) -> Result<Piece, Refusal>
    requires { (range.start.0 < range.end.0) × (exons_in_order 0 (exons_in table.now) ≡ true) }
    ensures { result ≡ transcript_piece (pieces_of table.now) cds.start cds.end range.start.0 range.end.0 }
{
    let exons = Exons::of(table);
    let last_base = range.end.0 - 1;
    let exon = exon_piece(exons.holding(range.start), exons.holding(Zero(last_base)));
    let cut = cuts::cut_at(cds.start, range, exon);
    cuts::cut_at(cds.end, range, cut)
}
