// Two alleles without what they share at one end, by value: that the buffers are handed in and back is a rule of the project (docs/RULES.md, "Forms"). What they share is counted in
// `ends`; what is kept of each is a part of its buffer. Front and back stay two functions: one over a side would have these two as its arms.
ghost use Rattle.alleles.specs.Held.{Good};
ghost use Rattle.alleles.specs.Trims.{TrimmedFront, TrimmedBack};

use crate::allele_parts::{keep_back, keep_front};
use crate::{Allele, ends};

/// How many bases two alleles share at one end, and the two rests.
#[derive(Drop)]
pub struct Trimmed {
    pub count: usize,
    pub left: Allele,
    pub right: Allele,
}

/// The bases that both alleles begin with come off.
#[tactic(auto, using(crate::proofs::Trims::fronts))]
pub fn trim_front(a: Allele, b: Allele) -> Trimmed
    requires good { Good a }
    requires good_2 { Good b }
    ensures { TrimmedFront a b result }
{
    let n = ends::common_front(&a, &b);
    Trimmed {
        count: n,
        left: keep_back(a, a.count - n),
        right: keep_back(b, b.count - n),
    }
}

/// The bases that both alleles end with come off.
#[tactic(auto, using(crate::proofs::Trims::backs))]
pub fn trim_back(a: Allele, b: Allele) -> Trimmed
    requires good { Good a }
    requires good_2 { Good b }
    ensures { TrimmedBack a b result }
{
    let n = ends::common_back(&a, &b);
    Trimmed {
        count: n,
        left: keep_front(a, a.count - n),
        right: keep_front(b, b.count - n),
    }
}
