// Whether a reference is the reverse complement of the alternative.
ghost use Rattle.std.specs.Prelude.{◌≡◌, ◌+◌, ◌≤◌, length};
ghost use Rattle.std.proofs.Math.Seq.{slice};
ghost use Rattle.definition.specs.Bases.{reverse_complement, same_bases};
ghost use Rattle.definition.specs.Answer.{is_inversion};
ghost use Rattle.alleles.specs.Held.{held, Good};
ghost use Rattle.alleles.specs.Window.{window, Placed};

use alleles::Allele;
use definition::Zero;
use sequences::bases::complement;

// Whether a part of the target is the reverse complement of the alternative, which is as long, up to the first pair that differs.
#[tactic(auto, using(crate::proofs::Inverted::inverted))]
fn is_inverted(part: &[u8], alternative: &Allele) -> bool
    requires { Placed alternative.now.head (length part.now) }
    ensures { result ≡ same_bases part.now
        (reverse_complement (window alternative.now.bytes alternative.now.head (length part.now))) }
{
    let n = part.len();
    for i in 0..n {
        if part[i] != complement(alternative.bytes[(alternative.head + (n - 1 - i)) % 2048]) {
            return false;
        }
    }
    true
}

/// Whether the bases of the target at the place, as many as the alternative has, are its reverse complement. One base is no inversion.
#[tactic(auto, using(crate::proofs::Inverted::inversion))]
pub fn is_inversion(target: &[u8], place: Zero, alternative: &Allele) -> bool
    requires { Good alternative.now × (place.0 + alternative.now.count ≤ length target.now) }
    ensures { result ≡ is_inversion (slice place.0 (place.0 + alternative.now.count) target.now) (held alternative.now) }
{
    let count = alternative.count;
    if count <= 1 {
        return false;
    }
    is_inverted(&target[place.0..place.0 + count], alternative)
}
