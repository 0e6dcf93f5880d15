// What comes back of a request, in the numbers that a host reads.
ghost use Rattle.std.specs.Prelude.{◌≡◌};
ghost use Rattle.normalizer.specs.Replied.{Small, answer_of};

use definition::Outcome;

/// The numbers of a reply: the refusal's number or 0, and the answer's numbers or 0.
#[repr(C)]
#[derive(Clone, Copy)]
pub struct Answer {
    pub refusal: u32,
    pub class: u32,
    pub start: u32,
    pub end: u32,
    pub probes: u32,
    pub reference_len: u32,
    pub alternative_len: u32,
}

/// What comes back of a request, in numbers.
#[tactic(auto, unfolding(crate::specs::Replied::answer_of))]
pub fn in_numbers(outcome: Outcome) -> Answer
    requires { Small outcome }
    ensures { result ≡ answer_of outcome }
{
    match outcome {
        Err(refusal) => Answer {
            refusal: refusal.number(),
            class: 0,
            start: 0,
            end: 0,
            probes: 0,
            reference_len: 0,
            alternative_len: 0,
        },
        Ok(answer) => Answer {
            refusal: 0,
            class: answer.class.number(),
            start: answer.start.0 as u32,
            end: answer.end.0 as u32,
            probes: answer.probes as u32,
            reference_len: answer.reference_size as u32,
            alternative_len: answer.alternative_size as u32,
        },
    }
}
