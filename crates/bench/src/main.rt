// The bench: rows on standard input, each a request, the answer that it should get, and what the row shows. A row's answer that differs is printed
// beside the expected one. The file `stdin` has every row of the bench of docs/RULES.md, both sides of each limit, and a row for each fault that those
// rows let through.
#![tactic(auto)]

mod answers;

use crate::answers::Buffers;
use asking::problems::Unread;
use asking::terminal::Page;
use asking::{decimals, problems, reading, runs};
use definition::ANSWER_ROOM;
use std::{fmt, io};

// The bytes of each of a row's two answer buffers.
#[derive(Clone, Copy)]
struct Rooms {
    reference: usize,
    alternative: usize,
}

// How many rows agree, and how many there are.
#[derive(Clone, Copy)]
struct Run {
    agreeing: usize,
    all: usize,
}

impl fmt::Display for Run {
    ghost use Rattle.std.specs.Prelude.{◌++◌, Some, codes, decimal};

    ghost output = { λ run. Some (decimal run.agreeing ++ (codes " of " ++ (decimal run.all ++ codes " rows agree"))) };

    fn fmt<W: fmt::Write>(&self, f: &mut fmt::Formatter<W>) -> fmt::Result {
        let agreeing = self.agreeing;
        let all = self.all;
        write!(f, "{agreeing} of {all} rows agree")
    }
}

// What the words of a row reach, on one line.
fn put_reached(answer: &mut Page, words: &[u8], reference: &mut [u8], alternative: &mut [u8]) {
    match asking::ask(words, Err(Unread::Unreadable), reference, alternative) {
        Ok(outcome) => {
            let buffers = Buffers {
                reference,
                alternative,
            };
            buffers.put_outcome(answer, outcome);
        }
        Err(problem) => problems::put_problem(answer, words, problem),
    }
}

// The same with answer buffers of two sizes. A size above 1,025 has no answer.
fn put_reached_in(answer: &mut Page, words: &[u8], rooms: Rooms) {
    let mut reference = [0u8; ANSWER_ROOM];
    let mut alternative = [0u8; ANSWER_ROOM];
    if rooms.reference <= ANSWER_ROOM && rooms.alternative <= ANSWER_ROOM {
        put_reached(
            answer,
            words,
            &mut reference[..rooms.reference],
            &mut alternative[..rooms.alternative],
        );
    }
}

// The answer to a row's words, which are asked of CAAATGGTACCA where they name no other target. There is room for the longest target.
fn put_answer(answer: &mut Page, asked: &[u8], rooms: Rooms) {
    let mut space = [0u8; 66560];
    let mut words = Page::new(&mut space);
    runs::expand(b"--target CAAATGGTACCA ", 0, &mut words);
    runs::expand(asked, 0, &mut words);
    words.put_byte(0);
    put_reached_in(answer, words.text(), rooms);
}

// Whether an answer is what a row expects.
fn agrees(answer: &[u8], expected: &[u8]) -> bool {
    let mut space = [0u8; 4096];
    let mut page = Page::new(&mut space);
    runs::expand(expected, b' ', &mut page);
    answer == page.text()
}

// The bytes of an answer buffer, where a field of a row tells them: 1,025 where it does not.
fn room_in(field: &[u8]) -> usize {
    decimals::decimal(field).map_or(ANSWER_ROOM, |room| room as usize)
}

// Whether the answer to a row's words is the one expected; it is said where it is not.
fn answers_as(rt: &impl Print, asked: &[u8], expected: &[u8], rooms: Rooms) -> io::Result<bool> {
    let mut space = [0u8; 4096];
    let mut answer = Page::new(&mut space);
    put_answer(&mut answer, asked, rooms);
    if agrees(answer.text(), expected) {
        return Ok(true);
    }
    rt.write_all(b"    DIFFERS: the answer is ")?;
    rt.write_all(answer.text())?;
    rt.write_all(b"\n")?;
    Ok(false)
}

// A row as the table has it: what was asked, what is expected, what it shows. A row may hold bytes that are not UTF-8.
fn say_row(rt: &impl Print, asked: &[u8], expected: &[u8], shows: &[u8]) -> io::Result<()> {
    rt.write_all(asked)?;
    rt.write_all(b"\n    ")?;
    rt.write_all(expected)?;
    rt.write_all(b"\n    ")?;
    rt.write_all(shows)?;
    rt.write_all(b"\n")
}

// Runs one row, whose fields bars part; whether it agrees.
fn run_row(rt: &impl Print, row: &[u8]) -> io::Result<bool> {
    let mut fields = row.split(|byte| *byte == b'|');
    let asked = fields.next().unwrap_or(b"");
    let expected = fields.next().unwrap_or(b"");
    let shows = fields.next().unwrap_or(b"");
    let rooms = Rooms {
        reference: room_in(fields.next().unwrap_or(b"")),
        alternative: room_in(fields.next().unwrap_or(b"")),
    };
    say_row(rt, asked, expected, shows)?;
    answers_as(rt, asked, expected, rooms)
}

// Runs the rows, one a line: a line that is empty, or begins with #, is none.
fn run_rows(rt: &impl Print, rows: &[u8]) -> io::Result<Run> {
    let mut run = Run {
        agreeing: 0,
        all: 0,
    };
    for line in rows.split(|byte| *byte == b'\n') {
        if line.is_empty() || line.starts_with(b"#") {
            continue;
        }
        run.all = run.all.saturating_add(1);
        if run_row(rt, line)? {
            run.agreeing = run.agreeing.saturating_add(1);
        }
    }
    Ok(run)
}

fn main(rt: HostRuntime) -> io::Result<()> {
    let mut space = [0u8; 65536];
    let size = reading::read_full(&mut rt.reader(), &mut space);
    if size == space.len() {
        return rt.write_all(b"The rows have more than 65535 bytes.\n");
    }
    let run = run_rows(&rt, &space[..size])?;
    println!(rt; "{run}")
}
