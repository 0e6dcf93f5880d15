// How long the work of one window takes: twenty bases go behind two alleles, and what both then begin with comes off. `time` before the program
// with a form and a number of rounds tells it; without arguments each form goes its rounds a few times, and its last count is written.
#![tactic(auto)]

use alleles::{Allele, allele_parts, allele_trims};
use asking::{decimals, text};
use definition::Direction;
use shuffle::{Alleles, windows};
use std::env::FillError;
use std::io;
use std::rt::Env;

const WINDOW: [u8; 20] = *b"AAAAAAAAAAAAAAAAAAAA";

// A base, and the window behind it.
const RUN: [u8; 21] = *b"AAAAAAAAAAAAAAAAAAAAA";

// The buffers are lent, as in the shuffles, and one base in the first allele moves along a run.
fn lent(rounds: u32) -> usize {
    let mut alleles = Alleles {
        reference: Allele::filled(b"A"),
        alternative: Allele::empty(),
    };
    let mut shared: usize = 0;
    for _ in 0..rounds {
        let stepped = windows::normalize_alleles_inner(
            Direction::Rightward,
            &RUN,
            0,
            21,
            20,
            &mut alleles,
        );
        shared = stepped.moved;
    }
    shared
}

// The alleles go by value.
fn by_value(rounds: u32) -> usize {
    let mut reference = Allele::filled(b"A");
    let mut alternative = Allele::empty();
    let mut shared = 0;
    for _ in 0..rounds {
        let longer = reference.push_back(&WINDOW);
        let other = alternative.push_back(&WINDOW);
        let trimmed = allele_trims::trim_front(longer, other);
        shared = trimmed.count;
        reference = allele_parts::keep_front(trimmed.left, 1);
        alternative = allele_parts::keep_front(trimmed.right, 0);
    }
    shared
}

// A form by its name, so many rounds, and how many bases came off in the last.
fn go(rt: &impl Print, form: &[u8], rounds: u32) -> io::Result<()> {
    match form {
        b"lent" => {
            println!(rt;
                "lent: {rounds} rounds, {} bases came off in the last",
                lent(rounds)
            )
        }
        b"by-value" => {
            println!(rt;
                "by-value: {rounds} rounds, {} bases came off in the last",
                by_value(rounds)
            )
        }
        _ => println!(rt; "The first argument is no form. Give lent or by-value."),
    }
}

// A form, and the rounds that the second argument names.
fn go_as_asked(rt: &(impl Env + Print), form: &[u8]) -> io::Result<()> {
    let mut count = [0u8; 16];
    let count_size = rt.arg(2, &mut count).unwrap_or(0);
    match decimals::decimal(text::part(&count, 0, count_size)) {
        Some(rounds) => go(rt, form, rounds),
        None => println!(rt;
            "The second argument is no number. Give the rounds, as in: allele_rounds lent 10000000"
        ),
    }
}

fn main(rt: HostRuntime) -> io::Result<()> {
    let mut form = [0u8; 16];
    match rt.arg(1, &mut form) {
        Ok(size) => go_as_asked(&rt, text::part(&form, 0, size)),
        Err(FillError::TooLong) => go_as_asked(&rt, b""),
        Err(FillError::NotPresent) => {
            go(&rt, b"lent", 1000)?;
            go(&rt, b"by-value", 1000)
        }
    }
}
