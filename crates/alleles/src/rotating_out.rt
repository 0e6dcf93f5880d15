// A window of an array of 2,048 bytes, after whose last place comes the first, written out. The array is lent: nothing here copies it. Array, head and count
// come apart, since the edit `write_out_head_and_count_crossed` speaks of just this call.
ghost use Rattle.std.specs.Prelude.{◌≡◌, ◌≤◌, length};
ghost use Rattle.definition.specs.Reply.{written};
ghost use Rattle.alleles.specs.Window.{window, Placed};

use sequences::bases;

/// The window is written out from byte 0; the bytes after it are unchanged.
pub fn copy_out(bytes: &[u8; 2048], head: usize, count: usize, out: &mut [u8])
    requires { Placed head count × (count ≤ length out.old) }
    ensures { out.new ≡ written (window bytes.now head count) out.old }
{
    let first = count.min(2048 - head);
    bases::copy(&bytes[head..head + first], &mut out[..first]);
    if first < count {
        bases::copy(&bytes[..count - first], &mut out[first..count]);
    }
}
