// A target as the words of a command line give it: its letters, or a file that has them. The file is read by the caller, who lends its bytes, or says why there are none.
ghost use Rattle.std.specs.Prelude.{◌≡◌, length};
ghost use Rattle.asking.specs.Sources.{bytes_of, source_of, target_of, laid};

use crate::problems::Unread;
use crate::{letters, lines};

/// Puts the letters of a target at the front of a buffer, and gives how many they are. Of two words, given by where they begin, one is to be there: the
/// letters themselves, or the path of the file whose bytes are lent.
#[tactic(auto, unfolding(crate::specs::Sources::source_of, crate::specs::Sources::target_of, crate::specs::Sources::laid))]
pub fn read(
    text: &[u8],
    letters: Option<usize>,
    path: Option<usize>,
    file: Result<&[u8], Unread>,
    target: &mut [u8],
) -> Result<usize, Unread>
    ensures value { result ≡ target_of (length target.old) (source_of text.now letters path (bytes_of file.entry)) }
    ensures target_after { target.new ≡ laid (source_of text.now letters path (bytes_of file.entry)) target.old }
{
    match (letters, path) {
        (None, None) => Err(Unread::Missing),
        (Some(at), None) => letters::read_letters(lines::word(text, at), target),
        (None, Some(_)) => letters::read_letters(file?, target),
        (Some(_), Some(_)) => Err(Unread::Twice),
    }
}
