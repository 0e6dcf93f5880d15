// The tool that a person runs: one change in, its normal form out. Without arguments it answers two examples.
#![tactic(auto)]

mod advice;
mod paths;
mod usage;

ghost use Rattle.std.specs.Prelude.{◌≤◌, length, IfOk};

use asking::problems::{Problem, Unread};
use asking::terminal::Page;
use asking::{lines, problems, reading, refusals, runs, text, values};
use definition::{ANSWER_ROOM, Answered, Outcome};
use std::env::FillError;
use std::io::Read;
use std::rt::{Env, Files};
use std::{fs, io, str};

// Puts an argument, and the byte 0 that ends it, into a text from an index on; the index behind both.
fn put_argument(rt: &impl Env, index: usize, text: &mut [u8], at: usize) -> Result<usize, FillError>
    ensures { IfOk result (λ end. end ≤ length text.new) }
{
    if text.len() < at {
        return Err(FillError::TooLong);
    }
    let size = rt.arg(index, &mut text[at..])?;
    if text.len() - at <= size {
        return Err(FillError::TooLong);
    }
    let end = at + size;
    text[end] = 0;
    Ok(end + 1)
}

// Every argument but the program's own name, each ended by a byte 0; how many bytes they are. Too long where the text has no room for them.
fn gather(rt: &impl Env, text: &mut [u8]) -> Result<usize, FillError>
    ensures { IfOk result (λ size. size ≤ length text.new) }
{
    let mut size = 0;
    for i in 1..usize::MAX {
        match put_argument(rt, i, text, size) {
            Ok(next) => size = next,
            Err(FillError::NotPresent) => break,
            Err(error) => return Err(error),
        }
    }
    Ok(size)
}

// What is left of a file after its first bytes: a byte more where it is too long, an error where it can't be read.
fn rest_of(file: &mut impl Read) -> io::Result<usize> {
    let mut byte = [0u8; 1];
    file.read(&mut byte)
}

// The bytes of the file at a path, at the front of those that are lent. No path is that of no file.
fn read_file<'a>(rt: &impl Files, path: &[u8], bytes: &'a mut [u8]) -> Result<&'a [u8], Unread> {
    let path = str::from_utf8(path).map_err(|_| Unread::Unreadable)?;
    let mut file = fs::open(rt, path).map_err(|_| Unread::Unreadable)?;
    let size = reading::read_full(&mut file, bytes);
    match rest_of(&mut file) {
        Ok(0) => Ok(text::part(bytes, 0, size)),
        Ok(_) => Err(Unread::LongFile),
        Err(_) => Err(Unread::Unreadable),
    }
}

// The two buffers of a request, as it left them.
#[derive(Clone, Copy)]
struct Buffers<'a> {
    reference: &'a [u8],
    alternative: &'a [u8],
}

impl Buffers<'_> {
    // An answer on five lines.
    fn put_answer(self, page: &mut Page, answer: Answered) {
        page.put(b"class        ");
        page.put_number(answer.class.number() as usize);
        page.put(b" ");
        values::put_class(page, answer.class);
        page.put(b"\nrange        ");
        values::put_range(page, answer.start.0, answer.end.0);
        page.put(b"\nreference    ");
        values::put_allele(page, self.reference, answer.reference_size);
        page.put(b"\nalternative  ");
        values::put_allele(page, self.alternative, answer.alternative_size);
        page.put(b"\nprobes       ");
        page.put_number(answer.probes);
    }

    // An answer, or a refusal on one line with what to change.
    fn put_outcome(self, page: &mut Page, outcome: Outcome) {
        match outcome {
            Ok(answer) => self.put_answer(page, answer),
            Err(refusal) => {
                refusals::put_refusal(page, refusal);
                page.put(b": ");
                advice::put_advice(page, refusal);
            }
        }
    }
}

// What is said where words reach no outcome: the usage where they ask for it.
fn put_problem(page: &mut Page, text: &[u8], problem: Problem) {
    match problem {
        Problem::Wrong(_, at) if lines::word(text, at) == b"--help".as_slice() => {
            usage::put_usage(page);
        }
        _ => problems::put_problem(page, text, problem),
    }
}

// What the words of a text reach, where the file that they name is read so.
fn put_reached(page: &mut Page, text: &[u8], file: Result<&[u8], Unread>) {
    let mut reference = [0u8; ANSWER_ROOM];
    let mut alternative = [0u8; ANSWER_ROOM];
    match asking::ask(text, file, &mut reference, &mut alternative) {
        Ok(outcome) => {
            let buffers = Buffers {
                reference: &reference,
                alternative: &alternative,
            };
            buffers.put_outcome(page, outcome);
        }
        Err(problem) => put_problem(page, text, problem),
    }
}

// A request as it is typed behind the tool's name, and what it reaches.
fn put_example(page: &mut Page, typed: &[u8]) {
    let mut space = [0u8; 256];
    let mut words = Page::new(&mut space);
    runs::expand(typed, 0, &mut words);
    words.put_byte(0);
    page.put(b"\nnormalize ");
    page.put(typed);
    page.put(b"\n");
    put_reached(page, words.text(), Err(Unread::Unreadable));
    page.put(b"\n");
}

// One deletion in a run of equal bases, spelled at the run's first base and at its last.
fn put_examples(page: &mut Page) {
    page.put(b"One change has one key, its class, range and alleles, wherever it is spelled:\n");
    put_example(page, b"--target CAAATGGTACCA --edit del --range 1 2");
    put_example(page, b"--target CAAATGGTACCA --edit del --range 3 4");
    page.put(b"\nnormalize --help tells how to ask for a change of your own.\n");
}

// What is said to words: the examples where there is none. A file that they name may have 262,144 bytes.
fn put_reply(rt: &impl Files, page: &mut Page, text: &[u8]) {
    if text.is_empty() {
        return put_examples(page);
    }
    let mut bytes = [0u8; 262144];
    let file = read_file(rt, paths::path_of(text), &mut bytes);
    put_reached(page, text, file);
    page.put(b"\n");
}

// What is said to the arguments.
fn put_all(rt: &(impl Env + Files), page: &mut Page) {
    let mut text = [0u8; 131072];
    match gather(rt, &mut text) {
        Ok(size) => put_reply(rt, page, &text[..size]),
        Err(_) => page.put(
            b"The arguments have more than 131072 bytes. Give the target by --file.\n",
        ),
    }
}

// The page has room for the longest argument, of fewer than 131,072 bytes, in a sentence.
fn main(rt: HostRuntime) -> io::Result<()> {
    let mut space = [0u8; 135168];
    let mut page = Page::new(&mut space);
    put_all(&rt, &mut page);
    rt.write_all(page.text())
}
