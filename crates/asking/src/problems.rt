// A sentence for each reason why words reach no outcome: it names the argument, and says what to give instead.
ghost use Rattle.std.specs.Prelude.{◌≡◌};
ghost use Rattle.asking.specs.Page.{Put};
ghost use Rattle.asking.specs.Problems.{fault_text, unread_text, problem_text};
ghost use Rattle.asking.specs.Reached.{of_exons};
ghost use Rattle.asking.specs.declared.problems.Problem.TheVariants.{Wrong, Unread as UnreadTarget};

use crate::exon_lists::BadExons;
use crate::lines;
use crate::requests::{Broken, Fault};
use crate::terminal::Page;

/// Why a target is not read.
#[derive(Clone, Copy)]
pub enum Unread {
    /// Neither its letters nor a file are given.
    Missing,
    /// Both its letters and a file are given.
    Twice,
    /// The file can't be read, or its path is no UTF-8.
    Unreadable,
    /// The file has more than 262,144 bytes.
    LongFile,
    /// The target has more than 65,535 letters.
    LongTarget,
    /// The file has more than one FASTA record.
    SecondRecord,
}

/// Why words reach no outcome.
#[derive(Clone, Copy)]
pub enum Problem {
    /// An option is broken: why, and where it begins in the text of the words.
    Wrong(Fault, usize),
    /// The target is not read.
    Unread(Unread),
    /// No edit is given.
    NoEdit,
    /// No range is given.
    NoRange,
    /// A part of the list of exons is no pair.
    BadExons,
    /// The list of exons has more than 513 pairs.
    TooManyExons,
}

impl From<Broken> for Problem {
    ghost from_gives = { λ broken problem. problem ≡ Wrong broken.fault broken.at };

    fn from(broken: Broken) -> Problem {
        Problem::Wrong(broken.fault, broken.at)
    }
}

impl From<Unread> for Problem {
    ghost from_gives = { λ unread problem. problem ≡ UnreadTarget unread };

    fn from(unread: Unread) -> Problem {
        Problem::Unread(unread)
    }
}

impl From<BadExons> for Problem {
    ghost from_gives = { λ bad problem. problem ≡ of_exons bad };

    fn from(bad: BadExons) -> Problem {
        match bad {
            BadExons::BadPair => Problem::BadExons,
            BadExons::TooMany => Problem::TooManyExons,
        }
    }
}

// What is wrong with an option or its value, and what to give instead. The first two sentences name the option.
#[tactic(auto, unfolding(crate::specs::Problems::fault_text))]
fn put_fault(page: &mut Page, option: &[u8], fault: Fault)
    ensures { Put page.old (fault_text option.now fault) page.new }
{
    match fault {
        Fault::UnknownOption => {
            page.put(b"'");
            page.put(option);
            page.put(b"' is no option. Give one that --help lists, each value after its option.");
        }
        Fault::NoValue => {
            page.put(option);
            page.put(b" has no value. Give one after it; --help shows which.");
        }
        Fault::BadKind => page.put(b"--kind takes open, transcript or crossing. Give one of them."),
        Fault::BadEdit => page.put(
            b"--edit takes ins, dup, del, replace or inv. Give one of them.",
        ),
        Fault::BadDirection => page.put(b"--direction takes right or left. Give one of them."),
        Fault::BadWindow => page.put(b"--window takes a whole number. Give one from 1 to 1024."),
        Fault::BadRange => page.put(
            b"--range takes two whole numbers, each at most 2147483647. Give a start, counted from 0, and an end, as in --range 1 2.",
        ),
        Fault::BadBound => page.put(
            b"A CDS bound is a whole number, at most 2147483647. Give --cds START END, --cds-start START or --cds-end END.",
        ),
    }
}

// Why a target is not read, and what to give.
#[tactic(auto, unfolding(crate::specs::Problems::unread_text))]
fn unread_sentence(unread: Unread) -> &'static str
    ensures { result.now ≡ unread_text unread }
{
    match unread {
        Unread::Missing =>
            "There is no target. Give its letters by --target, or a file that has them by --file.",
        Unread::Twice => "--target and --file are both given. Give one of them.",
        Unread::Unreadable =>
            "--file names a file that can't be read. Give the path of a file of plain letters, or of FASTA with one record.",
        Unread::LongFile =>
            "--file names a file of more than 262144 bytes. Give one with at most 65535 bases.",
        Unread::LongTarget =>
            "--target or --file has more than 65535 bases. Give at most 65535, as a part of the sequence around the change.",
        Unread::SecondRecord =>
            "--file has a second record. Give a file with one, or its letters alone.",
    }
}

/// Puts the sentence for a problem with the words of a text. An option that is none is quoted.
#[tactic(auto, unfolding(crate::specs::Problems::problem_text))]
pub fn put_problem(page: &mut Page, text: &[u8], problem: Problem)
    ensures { Put page.old (problem_text text.now problem) page.new }
{
    match problem {
        Problem::Wrong(fault, at) => put_fault(page, lines::word(text, at), fault),
        Problem::Unread(unread) => page.put(unread_sentence(unread).as_bytes()),
        Problem::NoEdit => page.put(
            b"There is no edit. Give --edit with ins, dup, del, replace or inv.",
        ),
        Problem::NoRange => page.put(
            b"There is no range. Give --range START END, counted from 0, with the end not in it.",
        ),
        Problem::BadExons => page.put(
            b"--exons takes pairs of whole numbers. Give each as START-END, with commas between them, as in --exons 0-4,4-12.",
        ),
        Problem::TooManyExons => page.put(b"--exons has more than 513 pairs. Give at most 512."),
    }
}
