// The rotating buffer that holds an allele while it is moved: 2,048 bytes, head and count together. It is filled, made longer at either end and narrowed
// where it stands, so that a move copies no buffer; `push_back`, `push_front` and `filled` do so by value.
// What is done to its bytes stands in `rotating`; here are the head and the count.
// The back and the front have a function each: they differ in what is stored where and in the head, which is all that each says.
// That the window is `Good` stays a clause, not an invariant of the type: the fields are public (docs/RULES.md, "Forms"), and who builds an `Allele`, as the
// programs `alleles_in_place_rows` and `allele_rounds` may, is asked nothing.
#![tactic(auto)]

pub mod allele_parts;
pub mod allele_trims;
pub mod alleles_in_place;
pub mod ends;
pub mod rotating;
pub mod rotating_out;
pub mod trims_in_place;

ghost use Rattle.std.specs.Prelude.{[], ◌++◌, ◌+◌, ◌-◌, ◌%◌, ◌≤◌, length, take, drop};
ghost use Rattle.alleles.specs.Held.{held, Good, Holds};

use sequences::bases;

/// An allele: the `count` bases from the place `head` on, where the place after the last of the array is its first.
#[derive(Clone, Copy)]
pub struct Allele {
    pub bytes: [u8; 2048],
    pub head: usize,
    pub count: usize,
}

impl Allele {
    /// An allele of no bases.
    #[tactic(auto, unfolding(crate::specs::Window::window))]
    pub fn empty() -> Self
        ensures { Holds result 0 0 [] }
    {
        Allele {
            bytes: [0u8; 2048],
            head: 0,
            count: 0,
        }
    }

    /// An allele of the bases of a part.
    pub fn filled(part: &[u8]) -> Self
        requires { length part.now ≤ 2048 }
        ensures { Holds result 0 (length part.now) part.now }
    {
        Allele::empty().push_back(part)
    }

    /// The allele is that of the bases of a part, whatever it held.
    pub fn fill(&mut self, part: &[u8])
        requires part_bound { length part.now ≤ 2048 }
        ensures { Holds self.new 0 (length part.now) part.now }
    {
        bases::copy(part, &mut self.bytes[..part.len()]);
        self.head = 0;
        self.count = part.len();
    }

    /// The bases of a part go behind those of the allele, where it stands.
    pub fn append(&mut self, part: &[u8])
        requires good { Good self.old }
        requires part_bound { self.old.count + length part.now ≤ 2048 }
        ensures { Holds self.new self.old.head (self.old.count + length part.now) (held self.old ++ part.now) }
    {
        rotating::store_back(&mut self.bytes, self.head, self.count, part);
        self.count += part.len();
    }

    /// The bases of a part go before those of the allele, where it stands.
    pub fn prepend(&mut self, part: &[u8])
        requires good { Good self.old }
        requires part_bound { self.old.count + length part.now ≤ 2048 }
        ensures { Holds self.new ((self.old.head + 2048 - length part.now) % 2048)
            (self.old.count + length part.now) (part.now ++ held self.old) }
    {
        self.head = rotating::store_front(&mut self.bytes, self.head, self.count, part);
        self.count += part.len();
    }

    /// The allele is `count` of its bases, those behind its first `first`.
    #[tactic(auto, using(crate::proofs::Parts::narrowed))]
    pub fn narrow(&mut self, first: usize, count: usize)
        requires good { Good self.old }
        requires in_bounds { first + count ≤ self.old.count }
        ensures { Holds self.new ((self.old.head + first) % 2048) count (take count (drop first (held self.old))) }
    {
        self.head = (self.head + first) % 2048;
        self.count = count;
    }

    /// The bases of a part go behind those of the allele.
    pub fn push_back(mut self, part: &[u8]) -> Self
        requires good { Good self }
        requires part_bound { self.count + length part.now ≤ 2048 }
        ensures { Holds result self.head (self.count + length part.now) (held self ++ part.now) }
    {
        self.append(part);
        self
    }

    /// The bases of a part go before those of the allele.
    pub fn push_front(mut self, part: &[u8]) -> Self
        requires good { Good self }
        requires part_bound { self.count + length part.now ≤ 2048 }
        ensures { Holds result ((self.head + 2048 - length part.now) % 2048)
            (self.count + length part.now) (part.now ++ held self) }
    {
        self.prepend(part);
        self
    }
}
