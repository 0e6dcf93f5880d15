// The exon that holds a base, searched among exons in order.
ghost use Rattle.std.specs.Prelude.{◌≡◌, true};
ghost use Rattle.definition.specs.Piece.{exons_in_order, exon_holding};

use crate::exons::Exons;
use definition::{Exon, Zero};

impl<'a> Exons<'a> {
    /// The exon that holds a base, among exons in order: the first that ends past the base, if it starts at or before it. It is found by halves: the
    /// exons before `from` end at or before the base, the one at `to` ends past it.
    // By hand, since std's `partition_point` is one of slices: the exons are bytes that a caller of the C interface lends, and nothing here is on the heap.
    #[tactic(auto, using(crate::proofs::Pairs::none_behind))]
    pub fn holding(&self, base: Zero) -> Option<Exon>
        requires { exons_in_order 0 self.now ≡ true }
        ensures { result ≡ exon_holding base.0 self.now }
    {
        let exons = self.len();
        let mut from = 0;
        let mut to = exons;
        while from < to {
            let middle = (from + to) / 2;
            let exon = self.get(middle);
            if base.0 < exon.end.0 {
                to = middle;
            } else {
                from = middle + 1;
            }
        }
        if from == exons {
            return None;
        }
        let exon = self.get(from);
        if base.0 < exon.start.0 {
            return None;
        }
        Some(exon)
    }
}
