// From words to an outcome: the request that they make is handed to the normalizer with its target. A file that the words name is read by the
// caller, who lends its bytes.
#![tactic(auto)]

pub mod decimals;
pub mod exon_lists;
mod handing;
pub mod letters;
pub mod lines;
pub mod problems;
pub mod reading;
pub mod refusals;
pub mod requests;
pub mod runs;
pub mod targets;
pub mod terminal;
pub mod text;
pub mod values;

ghost use Rattle.std.specs.Prelude.{length};
ghost use Rattle.asking.specs.Reached.{Answers, on_range, on_words};
ghost use Rattle.asking.specs.Sources.{bytes_of};

use crate::problems::{Problem, Unread};
use crate::requests::Request;
use definition::Outcome;

// A request for an edit of a range, whose target is read and which is handed on with it. The room of the target is made here, where nothing ends before it is
// used: where `ask` makes it, it is cleared twice, and for words that make no request too.
fn read_and_hand(
    text: &[u8],
    request: Request,
    edit: u32,
    range: (u32, u32),
    file: Result<&[u8], Unread>,
    reference_out: &mut [u8],
    alternative_out: &mut [u8],
) -> Result<Outcome, Problem>
    ensures { Answers
        (on_range text.now request edit range (bytes_of file.entry)
        (length reference_out.old) (length alternative_out.old))
        result reference_out.old reference_out.new alternative_out.old alternative_out.new }
{
    let mut target = text::room::<65536>();
    let words = request.words;
    let size = targets::read(text, words.target, words.file, file, &mut target)?;
    handing::hand(
        text,
        request,
        edit,
        range,
        text::part(&target, 0, size),
        reference_out,
        alternative_out,
    )
}

/// The outcome of the request that words make, each ended by a byte 0, or why they make none. `file` has the bytes of the file that they name, or why it
/// isn't read. The alleles of an answer stand at the front of both buffers; a problem leaves both as they were.
pub fn ask(
    text: &[u8],
    file: Result<&[u8], Unread>,
    reference_out: &mut [u8],
    alternative_out: &mut [u8],
) -> Result<Outcome, Problem>
    ensures { Answers
        (on_words text.now (bytes_of file.entry)
        (length reference_out.old) (length alternative_out.old))
        result reference_out.old reference_out.new alternative_out.old alternative_out.new }
{
    let request = requests::request_of(text)?;
    let edit = request.codes.edit.ok_or(Problem::NoEdit)?;
    let range = request.range.ok_or(Problem::NoRange)?;
    read_and_hand(
        text,
        request,
        edit,
        range,
        file,
        reference_out,
        alternative_out,
    )
}
