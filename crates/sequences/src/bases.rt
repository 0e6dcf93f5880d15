// Bases: which bytes are bases, the complement and the reverse complement. Each contract says by equations with the crate `definition` what comes back
// and what is written. No function reads outside its slice.
ghost use Rattle.std.specs.Prelude.{◌≡◌, ◌≤◌, length};
ghost use Rattle.definition.specs.Bases.{is_base, all_bases, complement, reverse_complement};
ghost use Rattle.definition.specs.Reply.{written};

/// A with T, C with G; any other byte is its own complement.
#[tactic(auto, unfolding(definition::specs::Bases::complement))]
pub fn complement(b: u8) -> u8
    ensures { result ≡ complement b }
{
    match b {
        b'A' => b'T',
        b'T' => b'A',
        b'C' => b'G',
        b'G' => b'C',
        _ => b,
    }
}

// Whether the byte is A, C, G or T. All four tests are made, so that a loop over this has no branch.
#[tactic(auto, unfolding(definition::specs::Bases::is_base))]
fn is_base(b: u8) -> bool
    ensures { result ≡ is_base b }
{
    (b == b'A') | (b == b'C') | (b == b'G') | (b == b'T')
}

/// Whether every byte is a base. It reads to the end whatever it finds: without an early exit the loop is compiled to vector instructions.
pub fn all_bases(s: &[u8]) -> bool
    ensures { result ≡ all_bases s.now }
{
    let mut all = true;
    for b in s {
        all &= is_base(*b);
    }
    all
}

/// Puts the bytes of `part` into `out`, which is as long.
// A loop, and no `copy_from_slice`: the compiler makes of that a call of `memmove`, which a host of the archive would have to bring.
pub fn copy(part: &[u8], out: &mut [u8])
    requires { length out.old ≡ length part.now }
    ensures { out.new ≡ part.now }
{
    for i in 0..part.len() {
        out[i] = part[i];
    }
}

/// The reverse complement of `part` at the front of `out`, whose other bytes stay as they are; and how many bytes that is.
#[tactic(auto, using(crate::proofs::ReverseComplement::laid))]
pub fn revcomp(part: &[u8], out: &mut [u8]) -> usize
    requires { length part.now ≤ length out.old }
    ensures count { result ≡ length part.now }
    ensures laid { out.new ≡ written (reverse_complement part.now) out.old }
{
    let n = part.len();
    for i in 0..n {
        out[i] = complement(part[n - 1 - i]);
    }
    n
}
