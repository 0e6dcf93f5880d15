// A target's letters as a person writes them: in lines, in either case, with or without a FASTA header.
ghost use Rattle.std.specs.Prelude.{◌≡◌, cond, ◌+◌, ◌<◌, length, set};
ghost use Rattle.asking.specs.Letters.{upper_case, is_blank, letters_start, record_of, kept_in, letters_read, letters_laid};

use crate::problems::Unread;
use crate::text;

// A letter in upper case. Every other byte stays as it is.
#[tactic(auto, unfolding(crate::specs::Letters::upper_case))]
fn upper(letter: u8) -> u8
    ensures { result ≡ upper_case letter }
{
    letter.to_ascii_uppercase()
}

// A space, a tab or a part of a line's end.
// By `|`, and not `matches!`, of which the compiler makes three branches for each letter of a target.
#[tactic(auto, unfolding(crate::specs::Letters::is_blank))]
fn is_blank(byte: u8) -> bool
    ensures { result ≡ is_blank byte }
{
    (byte == b' ') | (byte == b'\t') | (byte == b'\n') | (byte == b'\r')
}

// Where the letters of a file begin: after its first line, if that is a FASTA header.
#[tactic(auto, using(crate::proofs::Header::none, crate::proofs::Header::header, crate::proofs::Header::letters))]
fn letters_start(text: &[u8]) -> usize
    ensures { result ≡ letters_start text.now }
{
    match text {
        [b'>', ..] => text::find(text, 0, b'\n'),
        _ => 0,
    }
}

// A byte kept in a target that has this many letters and room for one more, unless it is blank; how many it has then.
// The target and how many letters it has, and no slice that grows: `letters_laid` speaks of every byte of the lent buffer.
fn keep(byte: u8, target: &mut [u8], size: usize) -> usize
    requires { size < length target.old }
    ensures value { result ≡ cond (is_blank byte) size (size + 1) }
    ensures target_after { target.new ≡ cond (is_blank byte) target.old (set target.old size (upper_case byte)) }
{
    if is_blank(byte) {
        return size;
    }
    target[size] = upper(byte);
    size + 1
}

// Puts the letters of a part of a file, in upper case and without blanks, at the front of a target.
#[tactic(auto, using(crate::proofs::Keeping::keeping))]
fn keep_letters(part: &[u8], target: &mut [u8]) -> Result<usize, Unread>
    ensures value { result ≡ kept_in (length target.old) part.now }
    ensures target_after { target.new ≡ letters_laid part.now target.old }
{
    let mut size = 0;
    for byte in part {
        if target.len() <= size {
            return Err(Unread::LongTarget);
        }
        size = keep(*byte, target, size);
    }
    Ok(size)
}

/// Puts the letters of a file's one record at the front of a target, and gives how many they are. Whether they are bases is not looked at here.
/// An error is `LongTarget` where bytes are left when the target is full, and `SecondRecord` where another record follows.
pub fn read_letters(text: &[u8], target: &mut [u8]) -> Result<usize, Unread>
    ensures value { result ≡ letters_read (length target.old) text.now }
    ensures target_after { target.new ≡ letters_laid (record_of text.now) target.old }
{
    let start = letters_start(text);
    let end = text::find(text, start, b'>');
    let size = keep_letters(text::part(text, start, end), target)?;
    if end < text.len() {
        return Err(Unread::SecondRecord);
    }
    Ok(size)
}
