// The lent answer buffers: both alleles of an answer written out. The reference of every answer is a part of the target.
ghost use Rattle.std.specs.Prelude.{◌≡◌, ◌+◌, ◌≤◌, length};
ghost use Rattle.definition.specs.Verdict.{answered};
ghost use Rattle.definition.specs.Reply.{written};
ghost use Rattle.alleles.specs.Window.{window, Placed};
ghost use Rattle.results.specs.Called.{anchored, called_in};
ghost use Rattle.results.specs.Reported.{reported};
ghost use Rattle.results.specs.Asked.{Fits};
ghost use Rattle.results.specs.Lent.{MetIn, SameBuffers};

use crate::classes::{Anchor, Called};
use alleles::Allele;
use alleles::rotating_out::copy_out;
use definition::{Answered, Outcome};
use sequences::bases;

/// The two answer buffers that a caller lends.
#[derive(Drop)]
pub struct Buffers<'a> {
    /// The reference allele is written here, from byte 0.
    pub reference: &'a mut [u8],
    /// The alternative allele is written here, from byte 0.
    pub alternative: &'a mut [u8],
}

/// A part of the target is written out from byte 0; the bytes after it are unchanged.
#[tactic(auto, unfolding(definition::specs::Reply::written))]
pub fn write_part(part: &[u8], out: &mut [u8])
    requires { length part.now ≤ length out.old }
    ensures { out.new ≡ written part.now out.old }
{
    bases::copy(part, &mut out[..part.len()]);
}

// The first bases of the alternative, so many, are written out with their anchor, and how many bytes that is comes back.
#[tactic(auto, using(crate::proofs::Anchors::anchors))]
fn write_anchored(
    target: &[u8],
    alternative: &Allele,
    count: usize,
    anchor: Anchor,
    out: &mut [u8],
) -> usize
    requires { (1 ≤ length target.now) × Placed alternative.now.head count × (count + 1 ≤ length out.old) }
    ensures count { result ≡ length (anchored anchor target.now (window alternative.now.bytes alternative.now.head count)) }
    ensures bytes { out.new
        ≡ written (anchored anchor target.now (window alternative.now.bytes alternative.now.head count)) out.old }
{
    match anchor {
        Anchor::Alone => {
            copy_out(&alternative.bytes, alternative.head, count, out);
            count
        }
        Anchor::First => {
            copy_out(&alternative.bytes, alternative.head, count, out);
            out[count] = target[0];
            count + 1
        }
        Anchor::Last => {
            copy_out(&alternative.bytes, alternative.head, count, &mut out[1..]);
            out[0] = target[target.len() - 1];
            count + 1
        }
    }
}

/// An answer: both alleles are written out, and its numbers come back.
#[tactic(auto, using(crate::proofs::Written::met), unfolding(crate::specs::Called::called_in, definition::specs::Reply::outcome_of, definition::specs::Reply::reference_out, definition::specs::Reply::alternative_out))]
pub fn build_result_construct(
    target: &[u8],
    alternative: &Allele,
    called: Called,
    probes: usize,
    buffers: &mut Buffers,
) -> Outcome
    requires { Fits target.now called alternative.now.head buffers.old.reference.now buffers.old.alternative.now }
    ensures met { MetIn
        (answered (reported probes (called_in target.now (window alternative.now.bytes alternative.now.head called.alternative_size) called)))
        result buffers.old buffers.new }
    ensures same_buffers { SameBuffers buffers.old buffers.new }
{
    let first = called.reference_start.0;
    let reference_size = called.reference_size;
    write_part(&target[first..first + reference_size], buffers.reference);
    let alternative_size = write_anchored(
        target,
        alternative,
        called.alternative_size,
        called.anchor,
        buffers.alternative,
    );
    Ok(Answered {
        class: called.class,
        start: called.start,
        end: called.end,
        probes,
        reference_size,
        alternative_size,
    })
}
