// Parts of an allele, by value: its first bases or its last alone, and its bases written out. That the buffer is handed in and back is a rule of the
// project (docs/RULES.md, "Forms"). Its bytes are read in `rotating_out`; here are the head and the count. Front and back stay two functions: the edits
// `keep_front_moves_the_head`, `keep_back_from_the_count` and `keep_back_round_too_short` speak of the head of each.
ghost use Rattle.std.specs.Prelude.{◌+◌, ◌-◌, ◌%◌, ◌≤◌, length, take, drop};
ghost use Rattle.alleles.specs.Held.{held, Good, Holds};
ghost use Rattle.alleles.specs.WrittenOut.{WrittenOut};

use crate::{Allele, rotating_out};

/// The first so many bases alone.
#[tactic(auto, using(crate::proofs::Parts::first_bases))]
pub fn keep_front(mut allele: Allele, first: usize) -> Allele
    requires good { Good allele }
    requires first_le_count { first ≤ allele.count }
    ensures { Holds result allele.head first (take first (held allele)) }
{
    allele.count = first;
    allele
}

/// The last so many bases alone.
#[tactic(auto, using(crate::proofs::Parts::last_bases))]
pub fn keep_back(mut allele: Allele, last: usize) -> Allele
    requires good { Good allele }
    requires last_le_count { last ≤ allele.count }
    ensures { Holds result ((allele.head + (allele.count - last)) % 2048) last (drop (allele.count - last) (held allele)) }
{
    allele.head = (allele.head + (allele.count - last)) % 2048;
    allele.count = last;
    allele
}

/// The bases are written out from byte 0, and how many they are comes back; the bytes after them are unchanged.
pub fn write_out(allele: Allele, out: &mut [u8]) -> usize
    requires good { Good allele }
    requires count_in_bounds { allele.count ≤ length out.old }
    ensures { WrittenOut allele out.old out.new result }
{
    rotating_out::copy_out(&allele.bytes, allele.head, allele.count, out);
    allele.count
}
