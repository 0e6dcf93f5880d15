// The thin forms of `allele_trims`: two buffers are lent and trimmed in place. Each takes both alleles out of the references, calls the by-value function of
// the same name and stores the two rests that come back; it asks and ensures what that function does, of the buffers at entry and at exit.
// That a thin form calls the by-value work is a rule of the project (docs/RULES.md, "Forms").
ghost use Rattle.alleles.specs.Held.{Good};
ghost use Rattle.alleles.specs.Trims.{TrimmedFront, TrimmedBack};
ghost use Rattle.alleles.specs.Rests.{rests};

use crate::{Allele, allele_trims};

/// The bases that both alleles begin with come off, and how many they are comes back.
pub fn trim_front_in(a: &mut Allele, b: &mut Allele) -> usize
    requires { Good a.old × Good b.old }
    ensures { TrimmedFront a.old b.old (rests result a.new b.new) }
{
    let t = allele_trims::trim_front(*a, *b);
    *a = t.left;
    *b = t.right;
    t.count
}

/// The bases that both alleles end with come off, and how many they are comes back.
pub fn trim_back_in(a: &mut Allele, b: &mut Allele) -> usize
    requires { Good a.old × Good b.old }
    ensures { TrimmedBack a.old b.old (rests result a.new b.new) }
{
    let t = allele_trims::trim_back(*a, *b);
    *a = t.left;
    *b = t.right;
    t.count
}
