// The ends of two alleles: how many bases they begin with in common, and how many they end with.
// An allele lies in its array as one stretch or as two, so two alleles are compared in three stretches at most, each whole in both arrays.
// Two functions, since the loop over the stretches runs the other way in the second. It counts by hand, since a step is as long as its stretch.
ghost use Rattle.std.specs.Prelude.{◌≡◌};
ghost use Rattle.definition.specs.Prefix.{lcp, lcs};
ghost use Rattle.alleles.specs.Held.{held, Good};

use crate::Allele;
use sequences::reach;

/// How many bases two alleles begin with in common.
pub fn common_front(a: &Allele, b: &Allele) -> usize
    requires { Good a.now × Good b.now }
    ensures { result ≡ lcp (held a.now) (held b.now) }
{
    let most = a.count.min(b.count);
    let mut n = 0;
    while n < most {
        let i = (a.head + n) % 2048;
        let j = (b.head + n) % 2048;
        let room = (2048 - i).min(2048 - j);
        let size = room.min(most - n);
        let more = reach::common(&a.bytes[i..i + size], &b.bytes[j..j + size]);
        n += more;
        if more < size {
            return n;
        }
    }
    n
}

/// How many bases two alleles end with in common.
pub fn common_back(a: &Allele, b: &Allele) -> usize
    requires { Good a.now × Good b.now }
    ensures { result ≡ lcs (held a.now) (held b.now) }
{
    let most = a.count.min(b.count);
    let mut n = 0;
    while n < most {
        let i = (a.head + (a.count - 1 - n)) % 2048 + 1;
        let j = (b.head + (b.count - 1 - n)) % 2048 + 1;
        let room = i.min(j);
        let size = room.min(most - n);
        let more = reach::common_end(&a.bytes[i - size..i], &b.bytes[j - size..j]);
        n += more;
        if more < size {
            return n;
        }
    }
    n
}
