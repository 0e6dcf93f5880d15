// The records of stored answers: the parts of a record, which lie among the file's bytes, and its numbers. Every length that the file gives is
// tested before it ends a part. Each function takes the whole file and a place in it: `part_at`, `request_at` and `stored_at` of the format count
// the place behind a part from the file's start.
ghost use Rattle.std.specs.Prelude.{◌≡◌, ◌≤◌, ◌<◌, ◌+◌, ◌^◌, length, IfSome};
ghost use Rattle.std.specs.Option.{option_map};
ghost use Rattle.recorded.specs.Format.{stored_number, signed_at, signed_long_at, part_at, numbers_at, request_at, stored_at};
ghost use Rattle.recorded.specs.Replay.{part_read, request_read, stored_read};

use asking::text;
use tables::little_endian::number_at;

// The most bytes that a file may have.
pub const MOST: usize = 524288;

// The numbers of a request.
#[derive(Clone, Copy)]
pub struct Numbers {
    pub kind: u32,
    pub cds_start: i64,
    pub cds_end: i64,
    pub start: i32,
    pub end: i32,
    pub edit: u32,
    pub direction: u32,
    pub window: u32,
}

// The request of a record, and the place behind it.
#[derive(Clone, Copy)]
pub struct Request<'a> {
    pub target: &'a [u8],
    pub exons: &'a [u8],
    pub alternative: &'a [u8],
    pub numbers: Numbers,
    pub to: usize,
}

// The answer of a record, and the place behind it. Its refusal and class stay numbers, 0 for none, as `stored_read` hands them to `Kept`: a file
// may hold any number there.
#[derive(Clone, Copy)]
pub struct Stored<'a> {
    pub refusal: u32,
    pub class: u32,
    pub start: u32,
    pub end: u32,
    pub probes: u32,
    pub reference: &'a [u8],
    pub alternative: &'a [u8],
    pub to: usize,
}

// The number at a place; 0 where the file ends before it does, by the definition `stored_number`.
#[tactic(auto, unfolding(crate::specs::Format::stored_number))]
pub fn number(file: &[u8], at: usize) -> u32
    ensures { result ≡ stored_number file.now at }
{
    if file.len() < at.saturating_add(4) {
        return 0;
    }
    number_at(file, at)
}

// The number that four bytes spell, with a sign.
#[tactic(auto, unfolding(crate::specs::Format::signed_at))]
fn signed_at(file: &[u8], at: usize) -> i32
    ensures { result ≡ signed_at file.now at }
{
    number(file, at).cast_signed()
}

// The number that eight bytes spell, with a sign: the sum of both halves, as the definition `signed_long_at` has it.
#[tactic(auto, unfolding(crate::specs::Format::signed_long_at))]
fn signed_long_at(file: &[u8], at: usize) -> i64
    requires { at ≤ length file.now + 8 }
    ensures { result ≡ signed_long_at file.now at }
{
    let bits = number(file, at) as u64 + number(file, at + 4) as u64 * 4294967296;
    bits.cast_signed()
}

// The part whose length stands at a place, where the file has the whole of it, and the place behind it.
#[tactic(auto, unfolding(crate::specs::Format::part_at, crate::specs::Format::stored_number))]
fn part_at(file: &[u8], at: usize) -> Option<(&[u8], usize)>
    ensures value { option_map part_read result ≡ part_at file.now at }
    ensures to_in_bounds { IfSome result (λ part. part.1 ≤ length file.now) }
{
    if file.len() < at {
        return None;
    }
    let from = at + 4;
    let to = from + number(file, at) as usize;
    if file.len() < to {
        return None;
    }
    Some((text::part(file, from, to), to))
}

// The numbers of a request, which stand behind its target, its exon table and its alternative.
fn numbers_at(file: &[u8], target_to: usize, exons_to: usize, alternative_to: usize) -> Numbers
    requires { (exons_to ≤ length file.now) × (alternative_to ≤ length file.now) }
    ensures { result ≡ numbers_at file.now target_to exons_to alternative_to }
{
    let at = exons_to;
    Numbers {
        kind: number(file, target_to),
        cds_start: signed_long_at(file, at),
        cds_end: signed_long_at(file, at + 8),
        start: signed_at(file, at + 16),
        end: signed_at(file, at + 20),
        edit: number(file, at + 24),
        direction: number(file, alternative_to),
        window: number(file, alternative_to + 4),
    }
}

// The request at a place of a file: none where the file ends within it.
#[tactic(auto, unfolding(crate::specs::Format::request_at))]
pub fn request_at(file: &[u8], at: usize) -> Option<Request<'_>>
    ensures value { option_map request_read result ≡ request_at file.now at }
    ensures to_bound { IfSome result (λ request. request.to ≤ length file.now + 8) }
{
    let (target, target_to) = part_at(file, at)?;
    let (exons, exons_to) = part_at(file, target_to + 4)?;
    let (alternative, alternative_to) = part_at(file, exons_to + 28)?;
    Some(Request {
        target,
        exons,
        alternative,
        numbers: numbers_at(file, target_to, exons_to, alternative_to),
        to: alternative_to + 8,
    })
}

// The stored answer at a place of a file: none where the file ends within it.
#[tactic(auto, unfolding(crate::specs::Format::stored_at))]
pub fn stored_at(file: &[u8], at: usize) -> Option<Stored<'_>>
    requires { at < 2 ^ 63 + 8 }
    ensures value { option_map stored_read result ≡ stored_at file.now at }
    ensures to_bound { IfSome result (λ stored. stored.to ≤ length file.now) }
{
    let (reference, reference_to) = part_at(file, at + 20)?;
    let (alternative, to) = part_at(file, reference_to)?;
    Some(Stored {
        refusal: number(file, at),
        class: number(file, at + 4),
        start: number(file, at + 8),
        end: number(file, at + 12),
        probes: number(file, at + 16),
        reference,
        alternative,
        to,
    })
}
