// Bytes that are written round an array of 2,048, after whose last place comes the first: a part is stored beside a window. The array is lent:
// nothing here copies it. Array, head and count come apart, and not as an `Allele`, since the edits `push_back_head_and_count_crossed` and
// `push_front_head_for_count` speak of just these calls.
ghost use Rattle.std.specs.Prelude.{◌≡◌, ◌++◌, ◌+◌, ◌≤◌, length};
ghost use Rattle.definition.specs.Reply.{written};
ghost use Rattle.alleles.specs.Window.{window, Placed, StoredFront};

use sequences::bases;

// A part is stored from the place at on, round the end; the other bytes are unchanged.
fn store(bytes: &mut [u8], at: usize, part: &[u8])
    requires { (length bytes.old ≡ 2048) × (at ≤ 4096) × (length part.now ≤ 2048) }
    ensures { window bytes.new at 2048 ≡ written part.now (window bytes.old at 2048) }
{
    let start = at % 2048;
    let first = part.len().min(2048 - start);
    bases::copy(&part[..first], &mut bytes[start..start + first]);
    if first < part.len() {
        bases::copy(&part[first..], &mut bytes[..part.len() - first]);
    }
}

/// A part goes behind the window.
#[tactic(auto, using(crate::proofs::Stores::behind))]
pub fn store_back(bytes: &mut [u8; 2048], head: usize, count: usize, part: &[u8])
    requires { Placed head (count + length part.now) }
    ensures { window bytes.new head (count + length part.now)
        ≡ window bytes.old head count ++ part.now }
{
    store(bytes, head + count, part)
}

/// A part goes before the window, and the new head comes back.
#[tactic(auto, using(crate::proofs::Stores::before))]
pub fn store_front(bytes: &mut [u8; 2048], head: usize, count: usize, part: &[u8]) -> usize
    requires { Placed head (count + length part.now) }
    ensures { StoredFront bytes.old bytes.new part.now head count result }
{
    let first = (head + 2048 - part.len()) % 2048;
    store(bytes, first, part);
    first
}
