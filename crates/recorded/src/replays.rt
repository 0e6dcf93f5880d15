// What `normalize` answers to the request of a stored record, and where that differs from what is stored.
ghost use Rattle.std.specs.Prelude.{◌≡◌, ◌≤◌, ◌&&◌, length};
ghost use Rattle.definition.specs.Limits.{answer_room};
ghost use Rattle.definition.specs.Reply.{written};
ghost use Rattle.recorded.specs.Replay.{filled, request_read, stored_read, reply_to, holds_allele, reply_of, compared_with};

use crate::records::{Request, Stored};
use definition::ANSWER_ROOM;
use normalizer::replies;
use normalizer::replies::Answer;
use std::fmt;

// What fills both buffers before a request: no base.
const FILL: u8 = b'.';

// The refusal and the class that were answered, and whether both, the range, the probes and both alleles are the stored ones. The refusal
// and the class stay numbers, 0 for none, as the definition `compared_with` has them.
#[derive(Clone, Copy)]
pub struct Compared {
    pub refusal: u32,
    pub class: u32,
    pub same_verdict: bool,
    pub same_range: bool,
    pub same_probes: bool,
    pub same_alleles: bool,
}

impl Compared {
    // Whether nothing differs.
    pub fn agrees(&self) -> bool
        ensures { result ≡ (self.now.same_verdict && self.now.same_range && self.now.same_probes && self.now.same_alleles) }
    {
        self.same_verdict && self.same_range && self.same_probes && self.same_alleles
    }
}

// Each part that differs, a space before it.
impl fmt::Display for Compared {
    fn fmt<W: fmt::Write>(&self, f: &mut fmt::Formatter<W>) -> fmt::Result {
        if !self.same_verdict {
            f.write_str(" class or refusal")?;
        }
        if !self.same_range {
            f.write_str(" range")?;
        }
        if !self.same_probes {
            f.write_str(" probes")?;
        }
        if !self.same_alleles {
            f.write_str(" alleles")?;
        }
        Ok(())
    }
}

// A buffer that holds an allele, and behind it what filled the buffer.
#[tactic(auto, unfolding(definition::specs::Reply::written, crate::specs::Replay::filled))]
fn holding(allele: &[u8]) -> [u8; ANSWER_ROOM]
    requires { length allele.now ≤ answer_room }
    ensures { result ≡ written allele.now filled }
{
    let mut buffer = [FILL; ANSWER_ROOM];
    buffer[..allele.len()].copy_from_slice(allele);
    buffer
}

// Whether a buffer holds an allele of so many bases, and behind it what filled the buffer.
fn holds_allele(buffer: &[u8], size: usize, allele: &[u8]) -> bool
    requires { length buffer.now ≡ answer_room }
    ensures { result ≡ holds_allele buffer.now size allele.now }
{
    if allele.len() != size {
        return false;
    }
    if ANSWER_ROOM < size {
        return false;
    }
    buffer == holding(allele).as_slice()
}

// Compares all that comes back of a request with what is stored.
fn compare(
    stored: &Stored<'_>,
    reply: Answer,
    reference_out: &[u8; ANSWER_ROOM],
    alternative_out: &[u8; ANSWER_ROOM],
) -> Compared
    ensures { result ≡ compared_with (stored_read stored.now)
        (reply_of reply reference_out.now alternative_out.now) }
{
    Compared {
        refusal: reply.refusal,
        class: reply.class,
        same_verdict: reply.refusal == stored.refusal && reply.class == stored.class,
        same_range: reply.start == stored.start && reply.end == stored.end,
        same_probes: reply.probes == stored.probes,
        same_alleles: holds_allele(
            reference_out,
            reply.reference_len as usize,
            stored.reference,
        ) && holds_allele(
            alternative_out,
            reply.alternative_len as usize,
            stored.alternative,
        ),
    }
}

// Asks for a record's request and compares all that comes back with what is stored.
pub fn replayed(request: &Request<'_>, stored: &Stored<'_>) -> Compared
    ensures { result ≡ compared_with (stored_read stored.now) (reply_to (request_read request.now)) }
{
    let asked = request.numbers;
    let mut reference_out = [FILL; ANSWER_ROOM];
    let mut alternative_out = [FILL; ANSWER_ROOM];
    let outcome = normalizer::normalize(
        request.target,
        asked.kind,
        request.exons,
        asked.cds_start,
        asked.cds_end,
        asked.start,
        asked.end,
        asked.edit,
        request.alternative,
        asked.direction,
        asked.window,
        &mut reference_out,
        &mut alternative_out,
    );
    compare(
        stored,
        replies::in_numbers(outcome),
        &reference_out,
        &alternative_out,
    )
}
