// Whether the exons that a table holds are in order and end with the target.
ghost use Rattle.std.specs.Prelude.{◌≡◌};
ghost use Rattle.definition.specs.Piece.{exons_fit};

use crate::exons::Exons;

impl<'a> Exons<'a> {
    /// Whether each start is below its end and at or after the end before it, and the last end is the target's size in bases.
    #[tactic(auto, using(crate::proofs::Pairs::none_behind))]
    pub fn fit(&self, size: usize) -> bool
        ensures { result ≡ exons_fit size 0 self.now }
    {
        let mut before = 0;
        for i in 0..self.len() {
            let exon = self.get(i);
            let start = exon.start.0;
            let end = exon.end.0;
            if start < before {
                return false;
            }
            if end <= start {
                return false;
            }
            before = end;
        }
        before == size
    }
}
