// An exon table as a person writes it, pairs as in 0-4,4-12, put into the bytes that a request has.
ghost use Rattle.std.specs.Prelude.{◌≡◌, ◌≤◌, set};
ghost use Rattle.asking.specs.Exons.{four_bytes, numbers_in, pair_bytes, pair_came, pair_put, pairs_of};
ghost use Rattle.asking.specs.Laid.{laid_at};

use crate::{decimals, text};

/// The pairs that a table has room for: one more than row 10 accepts, so that it is row 10 that refuses them.
pub const MOST_PAIRS: usize = 513;

/// Why a list of exons is no table: a part of it is no pair, or it has more pairs than a table has room for.
#[derive(Clone, Copy)]
pub enum BadExons {
    /// A part between commas is not two numbers with a dash between them.
    BadPair,
    /// There are more than `MOST_PAIRS`.
    TooMany,
}

// A byte of a table; nothing past its end. It is put by its index: where `get_mut` finds none, the table is not known to stay.
fn put_at(table: &mut [u8], at: usize, byte: u8)
    ensures { table.new ≡ set table.old at byte }
{
    if at < table.len() {
        table[at] = byte;
    }
}

// A 32-bit number as four bytes, the lowest first.
fn put_little_endian(table: &mut [u8], at: usize, number: u32)
    requires { at ≤ 8192 }
    ensures { table.new ≡ laid_at at (four_bytes number) table.old }
{
    let [first, second, third, fourth] = number.to_le_bytes();
    put_at(table, at, first);
    put_at(table, at + 1, second);
    put_at(table, at + 2, third);
    put_at(table, at + 3, fourth);
}

// The two numbers that a pair with a dash between them is.
#[tactic(auto, unfolding(crate::specs::Exons::numbers_in))]
fn numbers_in(pair: &[u8]) -> Option<(u32, u32)>
    ensures { result ≡ numbers_in pair.now }
{
    let dash = text::find(pair, 0, b'-');
    if dash == pair.len() {
        return None;
    }
    let start = decimals::decimal(text::part(pair, 0, dash))?;
    let end = decimals::decimal(text::part(pair, dash + 1, pair.len()))?;
    Some((start, end))
}

// A pair as eight bytes of a table from an index on; where they end.
#[tactic(auto, using(crate::proofs::Laid::laying), unfolding(crate::specs::Exons::four_bytes))]
fn put_exon(pair: &[u8], table: &mut [u8], at: usize) -> Result<usize, BadExons>
    ensures value { result ≡ pair_came at (pair_bytes pair.now) }
    ensures table_after { table.new ≡ laid_at at (pair_put at (pair_bytes pair.now)) table.old }
{
    let Some((start, end)) = numbers_in(pair) else {
        return Err(BadExons::BadPair);
    };
    if MOST_PAIRS * 8 <= at {
        return Err(BadExons::TooMany);
    }
    put_little_endian(table, at, start);
    put_little_endian(table, at + 4, end);
    Ok(at + 8)
}

/// Puts pairs with commas between them, as in 0-4,4-12, at the front of a table, each as eight bytes, and gives how many bytes they are.
/// After an error the pairs before the bad one stand there.
pub fn read_exons(list: &[u8], table: &mut [u8]) -> Result<usize, BadExons>
    ensures value { result ≡ (pairs_of list.now).came }
    ensures table_after { table.new ≡ laid_at 0 (pairs_of list.now).bytes table.old }
{
    let mut size = 0;
    for pair in list.split(|byte| *byte == b',') {
        size = put_exon(pair, table, size)?;
    }
    Ok(size)
}
