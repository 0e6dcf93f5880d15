// The words and the lines of a text: a byte 0 ends each word, and a line end each line.
ghost use Rattle.std.specs.Prelude.{◌≡◌};
ghost use Rattle.asking.specs.LinesRules.{word_at, Line};

use crate::text;

/// The word that begins at an index. A byte 0 ends each word.
pub fn word(text: &[u8], from: usize) -> &[u8]
    ensures { result.now ≡ word_at text.now from }
{
    text::part(text, from, text::find(text, from, 0))
}

/// The line of a number, which counts from 0: empty where the text has no such line.
// No `split`: the edit `line_from_the_start` takes the line's bytes from an index, and `always_the_second_line` the index of the next.
pub fn line(text: &[u8], number: usize) -> &[u8]
    ensures { Line text.now number result.now }
{
    let mut from = 0;
    for _line in 0..number {
        from = text::after(text, from, b'\n');
    }
    text::part(text, from, text::find(text, from, b'\n'))
}
