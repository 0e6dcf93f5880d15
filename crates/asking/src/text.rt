// Parts of a text, and where a byte that parts it stands.
ghost use Rattle.std.specs.Prelude.{◌≡◌, ◌+◌, ◌≤◌, min, length, All};
ghost use Rattle.asking.specs.Text.{part_of, found_at, after_found};

/// Zeros, as room for bytes that come.
pub fn room<const N: usize>() -> [u8; N]
    ensures size { length result ≡ N }
    ensures zeros { All (λ byte. byte ≡ 0) result }
{
    [0; N]
}

/// The bytes from one index up to another; none where they don't lie in the text in this order.
pub fn part(text: &[u8], from: usize, to: usize) -> &[u8]
    ensures { result.now ≡ part_of text.now from to }
{
    text.get(from..to).unwrap_or(&[])
}

/// Where the first of a byte stands at or after an index: the text's end where there is none.
// No `Option`: `found_at` and `after_found`, the theorems `find-one` and `after_one` and the edits of both speak of the text's end.
pub fn find(text: &[u8], from: usize, byte: u8) -> usize
    ensures value { result ≡ found_at text.now from byte }
    ensures upper_bound { (result ≤ length text.now) × (min from (length text.now) ≤ result) }
{
    if text.len() < from {
        return text.len();
    }
    match text[from..].iter().position(|here| *here == byte) {
        Some(at) => from + at,
        None => text.len(),
    }
}

/// The index behind the first of a byte at or after an index: the text's end where there is none.
pub fn after(text: &[u8], from: usize, byte: u8) -> usize
    ensures value { result ≡ after_found text.now from byte }
    ensures upper_bound { (result ≤ length text.now) × (min (from + 1) (length text.now) ≤ result) }
{
    (find(text, from, byte) + 1).min(text.len())
}
