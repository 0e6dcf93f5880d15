// Replays stored answers: asks for each record's request again, names each record whose answer differs from the stored one, and counts the
// records that agree. The answers are the Rust's; the program needs no Rust.
#![tactic(auto)]

mod records;
mod replays;

use crate::replays::Compared;
use asking::{reading, text, values};
use definition::Class;
use std::io::Read;
use std::{fs, io};

// The classes, by number from 1, as the definition `compared_with` gives them.
const CLASSES: [Class; 6] = [
    Class::Insertion,
    Class::Duplication,
    Class::Deletion,
    Class::Replacement,
    Class::Inversion,
    Class::Unchanged,
];

// A record that was replayed: how its answer compares with the stored one, and the place behind it.
#[derive(Clone, Copy)]
struct Replayed {
    compared: Compared,
    to: usize,
}

// How many records were replayed and agreed, and of those that agreed how many had each class and each refusal, by number.
#[derive(Clone, Copy)]
struct Totals {
    replayed: u32,
    agreed: u32,
    classes: [u32; 7],
    refusals: [u32; 17],
}

impl Totals {
    fn new() -> Totals {
        Totals {
            replayed: 0,
            agreed: 0,
            classes: [0; 7],
            refusals: [0; 17],
        }
    }

    fn count(&mut self, compared: Compared) {
        self.replayed = self.replayed.saturating_add(1);
        if compared.agrees() {
            self.agreed = self.agreed.saturating_add(1);
            if compared.refusal == 0 {
                raise(&mut self.classes, compared.class);
            } else {
                raise(&mut self.refusals, compared.refusal);
            }
        }
    }

    fn say(&self, rt: &impl Print) -> io::Result<()> {
        println!(rt;
            "{} records replayed, {} agreed",
            self.replayed, self.agreed
        )?;
        for (class, count) in CLASSES.iter().zip(&self.classes[1..]) {
            if *count > 0 {
                println!(rt; "{}: {count}", values::class_name(*class))?;
            }
        }
        for (refusal, count) in self.refusals.iter().enumerate() {
            if *count > 0 {
                println!(rt; "refusal {refusal}: {count}")?;
            }
        }
        Ok(())
    }
}

// Counts one more of a number.
fn raise(counts: &mut [u32], number: u32) {
    if let Some(count) = counts.get_mut(number as usize) {
        *count = count.saturating_add(1);
    }
}

// The record at a place of the file, replayed; its line where it differs. None where the file ends within it.
fn replay(rt: &impl Print, file: &[u8], at: usize, number: u32) -> io::Result<Option<Replayed>> {
    let Some(request) = records::request_at(file, at) else {
        return Ok(None);
    };
    let Some(stored) = records::stored_at(file, request.to) else {
        return Ok(None);
    };
    let compared = replays::replayed(&request, &stored);
    if !compared.agrees() {
        println!(rt; "record {number} differs:{compared}")?;
    }
    Ok(Some(Replayed {
        compared,
        to: stored.to,
    }))
}

// All records of a file, replayed; fewer where the file is cut.
fn replay_all(rt: &impl Print, file: &[u8]) -> io::Result<Totals> {
    let count = records::number(file, 0);
    let mut totals = Totals::new();
    let mut at = 4;
    for before in 0..count {
        let Some(record) = replay(rt, file, at, before + 1)? else {
            break;
        };
        totals.count(record.compared);
        at = record.to;
    }
    if totals.replayed < count {
        println!(rt;
            "The file is cut: it tells of {count} records and has the whole of {}.",
            totals.replayed
        )?;
    } else if at != file.len() {
        println!(rt; "The file does not end with its last record.")?;
    }
    Ok(totals)
}

// A file replayed, or the sentence why it is not.
fn replay_file(rt: &impl Print, file: &[u8]) -> io::Result<()> {
    if file.len() < 4 {
        return println!(rt;
            "The file answers is cut or cannot be read: it has no count of records."
        );
    }
    if records::MOST < file.len() {
        return println!(rt; "The file answers has more than 524288 bytes.");
    }
    replay_all(rt, file)?.say(rt)
}

// An open file, read into the space that is lent and replayed.
fn replay_from(rt: &impl Print, file: &mut impl Read, space: &mut [u8]) -> io::Result<()> {
    let size = reading::read_full(file, space);
    replay_file(rt, &space[..size])
}

// There is room for one byte more than a file may have, so that a longer one shows.
fn main(rt: HostRuntime) -> io::Result<()> {
    match fs::open(&rt, "answers") {
        Ok(mut file) => {
            let mut space = text::room::<524289>();
            replay_from(&rt, &mut file, &mut space)
        }
        Err(error) => {
            let complained = eprintln!(rt; "answers: {error}");
            println!(rt; "The file answers cannot be read.")?;
            complained
        }
    }
}
