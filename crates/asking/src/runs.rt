// Runs in a field: A*50 is a run of fifty As.
ghost use Rattle.std.specs.Prelude.{◌≡◌, ◌+◌, ◌<◌, ◌≤◌, length, drop, replicate};
ghost use Rattle.asking.specs.Decimal.{decimal_of};
ghost use Rattle.asking.specs.Page.{Put};
ghost use Rattle.asking.specs.Runs.{or_once, digits_in, times_in, mark_size, separated_by, expanded};

use crate::terminal::Page;
use crate::{decimals, text};

// Where the digits that begin at an index end.
fn digits_end(field: &[u8], from: usize) -> usize
    requires { from ≤ length field.now }
    ensures value { result ≡ from + length (digits_in (drop from field.now)) }
    ensures upper_bound { result ≤ length field.now }
{
    let digits = field[from..]
        .iter()
        .take_while(|byte| byte.is_ascii_digit());
    from + digits.count()
}

// Where the run that begins at an index ends: after its count, if a star follows the byte.
#[tactic(auto, using(crate::proofs::Marks::marks))]
fn run_end(field: &[u8], from: usize) -> usize
    requires { from < length field.now }
    ensures value { result ≡ from + 1 + mark_size (drop (from + 1) field.now) }
    ensures upper_bound { result ≤ length field.now }
{
    let star = from + 1;
    if star < field.len() && field[star] == b'*' {
        return digits_end(field, star + 1);
    }
    star
}

// The number that the digits from an index on are; 1 where they are none.
fn count_at(field: &[u8], from: usize) -> u32
    requires { from ≤ length field.now }
    ensures { result ≡ or_once (decimal_of (digits_in (drop from field.now))) }
{
    decimals::decimal(text::part(field, from, digits_end(field, from))).unwrap_or(1)
}

// How often the byte at an index stands in its run.
#[tactic(auto, using(crate::proofs::Marks::marks))]
fn run_count(field: &[u8], from: usize) -> u32
    requires { from < length field.now }
    ensures { result ≡ times_in (drop (from + 1) field.now) }
{
    let star = from + 1;
    if star < field.len() && field[star] == b'*' {
        return count_at(field, star + 1);
    }
    1
}

// A space as the byte that separates words.
fn separated(byte: u8, separator: u8) -> u8
    ensures { result ≡ separated_by separator byte }
{
    if byte == b' ' { separator } else { byte }
}

// Puts so many of one byte on a page.
fn put_run(page: &mut Page, byte: u8, times: usize)
    ensures { Put page.old (replicate times byte) page.new }
{
    page.put_times(byte, times);
}

/// Puts a field with its runs written out on a page.
pub fn expand(field: &[u8], separator: u8, page: &mut Page)
    ensures { Put page.old (expanded separator field.now) page.new }
{
    let mut i = 0;
    // A step is a run, so no `for` counts it.
    while i < field.len() {
        let byte = separated(field[i], separator);
        put_run(page, byte, run_count(field, i) as usize);
        i = run_end(field, i);
    }
}
