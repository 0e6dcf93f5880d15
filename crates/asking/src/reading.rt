// Bytes read from a file or from standard input into a space that is lent, as many as it holds.
ghost use Rattle.std.specs.Prelude.{◌≤◌, length, take};
ghost use Rattle.std.specs.Io.KnownBytes.{Consumes};

use std::io::Read;

/// Reads until the space is full, the source ends or a read fails, and gives how many bytes it put at the front of the space.
pub fn read_full<R: Read>(source: &mut R, space: &mut [u8]) -> usize
    ensures bound { result ≤ length space.new }
    ensures bytes { Consumes (R.remaining source.old) (R.remaining source.new) (take result space.new) }
{
    let mut size = 0;
    // A step is what one read brings, so no `for` counts it; std's `read_exact` says too little of a source that ends.
    while size < space.len() {
        let Ok(came) = source.read(&mut space[size..]) else {
            break;
        };
        if came == 0 {
            break;
        }
        size += came;
    }
    size
}
