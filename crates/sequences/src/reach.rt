// Whether two stretches of bases are the same, and how far two agree, thirty-two bases at a time: two functions, since the loops run the other way in the
// second. Both count by hand: a step is a block or a base, and an iterator over the bases behind the blocks would need the count of those beside it, which is no plainer.
ghost use Rattle.std.specs.Prelude.{◌≡◌};
ghost use Rattle.definition.specs.Bases.{same_bases};
ghost use Rattle.definition.specs.Prefix.{lcp, lcs};

const BLOCK: usize = 32;

/// Whether two stretches are the same, base for base. The loop has no early exit, so that it is compiled to vector instructions.
#[tactic(auto, using(crate::proofs::SameBases::not_as_long))]
pub fn is_same(a: &[u8], b: &[u8]) -> bool
    ensures { result ≡ same_bases a.now b.now }
{
    if a.len() != b.len() {
        return false;
    }
    let mut same = true;
    for k in 0..a.len() {
        same &= a[k] == b[k];
    }
    same
}

/// How many bases two stretches begin with in common.
pub fn common(a: &[u8], b: &[u8]) -> usize
    ensures { result ≡ lcp a.now b.now }
{
    let most = a.len().min(b.len());
    let mut n = 0;
    while most - n >= BLOCK && is_same(&a[n..n + BLOCK], &b[n..n + BLOCK]) {
        n += BLOCK;
    }
    while n < most && a[n] == b[n] {
        n += 1;
    }
    n
}

/// How many bases two stretches end with in common.
pub fn common_end(a: &[u8], b: &[u8]) -> usize
    ensures { result ≡ lcs a.now b.now }
{
    let most = a.len().min(b.len());
    let mut n = 0;
    while most - n >= BLOCK
        && is_same(
            &a[a.len() - n - BLOCK..a.len() - n],
            &b[b.len() - n - BLOCK..b.len() - n],
        )
    {
        n += BLOCK;
    }
    while n < most && a[a.len() - 1 - n] == b[b.len() - 1 - n] {
        n += 1;
    }
    n
}
