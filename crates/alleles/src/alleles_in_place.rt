// The thin forms of `alleles` and `allele_parts`: the buffer is lent and rotated in place. Each takes the allele out of the reference,
// calls the by-value function of the same name and stores what comes back; it asks and ensures what that function does, of the buffer at entry and at exit.
// That a thin form calls the by-value work is a rule of the project (docs/RULES.md, "Forms"). A move calls `append`, `prepend`, `narrow` and `fill`, which copy no buffer.
ghost use Rattle.std.specs.Prelude.{◌+◌, ◌-◌, ◌%◌, ◌≤◌, ◌++◌, length, take, drop};
ghost use Rattle.alleles.specs.Held.{held, Good, Holds};

use crate::{Allele, allele_parts};

/// The bases of a part go behind those of the allele.
pub fn push_back_in(allele: &mut Allele, part: &[u8])
    requires { Good allele.old × (allele.old.count + length part.now ≤ 2048) }
    ensures { Holds allele.new allele.old.head
        (allele.old.count + length part.now) (held allele.old ++ part.now) }
{
    *allele = (*allele).push_back(part);
}

/// The bases of a part go before those of the allele.
pub fn push_front_in(allele: &mut Allele, part: &[u8])
    requires { Good allele.old × (allele.old.count + length part.now ≤ 2048) }
    ensures { Holds allele.new ((allele.old.head + 2048 - length part.now) % 2048)
        (allele.old.count + length part.now) (part.now ++ held allele.old) }
{
    *allele = (*allele).push_front(part);
}

/// The first so many bases alone.
pub fn keep_front_in(allele: &mut Allele, first: usize)
    requires { Good allele.old × (first ≤ allele.old.count) }
    ensures { Holds allele.new allele.old.head first (take first (held allele.old)) }
{
    *allele = allele_parts::keep_front(*allele, first);
}

/// The last so many bases alone.
pub fn keep_back_in(allele: &mut Allele, last: usize)
    requires { Good allele.old × (last ≤ allele.old.count) }
    ensures { Holds allele.new ((allele.old.head + (allele.old.count - last)) % 2048)
        last (drop (allele.old.count - last) (held allele.old)) }
{
    *allele = allele_parts::keep_back(*allele, last);
}
