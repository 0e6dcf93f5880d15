// A request whose codes and range are read.
use definition::{Cds, Direction, Edit, Kind, Range};

/// A request past row 5: what its codes and its numbers stand for, and its range in the target. The exon table is read later, from its bytes.
#[derive(Clone, Copy)]
pub struct Query<'a> {
    pub target: &'a [u8],
    pub kind: Kind,
    pub exons: &'a [u8],
    pub cds: Cds,
    pub range: Range,
    pub edit: Edit,
    pub alternative: &'a [u8],
    pub direction: Direction,
    /// How far a change is moved at a time: 1 to 1,024 bases.
    pub window: usize,
}
