// The types that every crate shares, so that the definition in specs/ and the code speak of the same ones, and the limits as the code reads them.
// What the types mean stands in specs/, the laws in proofs/; the rules that they serve are in docs/RULES.md.
#![tactic(auto)]

pub mod classes;
pub mod positions;
pub mod refusals;

// The numbers of specs/Limits.antt. That these are the same follows where they are read: in rows 2, 3, 7 and 9, and in the whole piece.

/// The most bases of a window.
pub const LONGEST_WINDOW: u32 = 1024;

/// The most bases of a target.
pub const LONGEST_TARGET: usize = 65535;

/// The most bases of a range, and of an alternative that is read.
pub const LONGEST_ALLELE: usize = 1024;

/// The bytes of an answer buffer: an allele and one base more.
pub const ANSWER_ROOM: usize = 1025;

/// The right end of a piece that no exon ends.
pub const OPEN_END: usize = 2147483647;

/// A 0-based position: the bases before it are counted, so it is also the gap before a base.
#[derive(Clone, Copy, PartialEq, Eq)]
pub struct Zero(pub usize);

/// A 1-based position, as an answer gives it.
#[derive(Clone, Copy, PartialEq, Eq)]
pub struct One(pub usize);

/// What a target is: open (g., m.), a transcript, or a transcript whose changes may cross its boundaries.
#[derive(Clone, Copy, PartialEq, Eq)]
pub enum Kind {
    Open,
    Transcript,
    Crossing,
}

/// What a request asks for.
#[derive(Clone, Copy)]
pub enum Edit {
    Insert,
    Duplicate,
    Delete,
    Replace,
    Invert,
}

/// Where a change is moved: rightward is the Rust's `FiveToThree`.
#[derive(Clone, Copy, PartialEq, Eq)]
pub enum Direction {
    Rightward,
    Leftward,
}

/// A CDS bound as it reaches us: absent, a 0-based gap, or a negative number that breaks a table rule.
#[derive(Clone, Copy)]
pub enum Bound {
    Absent,
    At(usize),
    Negative,
}

/// The two bounds of a transcript's CDS, each of which may be absent.
#[derive(Clone, Copy)]
pub struct Cds {
    pub start: Bound,
    pub end: Bound,
}

/// A range of the target: the bases from `start` up to `end`.
#[derive(Clone, Copy)]
pub struct Range {
    pub start: Zero,
    pub end: Zero,
}

/// The rows of the table of refusals, by name and number. Number 11 is reserved and has none.
#[derive(Clone, Copy)]
pub enum Refusal {
    BadCode = 1,
    BadWindow = 2,
    BadTarget = 3,
    BadBase = 4,
    CoordinatesOutOfBounds = 5,
    BadInsertion = 6,
    TooLong = 7,
    BadAllele = 8,
    NoRoom = 9,
    BadTables = 10,
    ExonNotFoundForStart = 12,
    ExonNotFoundForEnd = 13,
    ExonIntronBoundary = 14,
    UtrExonBoundary = 15,
    VariantSpanOutsideSequenceBounds = 16,
}

/// An exon of a transcript: the bases from start up to end.
#[derive(Clone, Copy, PartialEq, Eq)]
pub struct Exon {
    pub start: Zero,
    pub end: Zero,
}

/// Where a change may move: from gap left up to gap right.
#[derive(Clone, Copy)]
pub struct Piece {
    pub left: Zero,
    pub right: Zero,
}

/// What an answer is called, by name and number.
#[derive(Clone, Copy)]
pub enum Class {
    Insertion = 1,
    Duplication = 2,
    Deletion = 3,
    Replacement = 4,
    Inversion = 5,
    Unchanged = 6,
}

/// The numbers of an answer: what it is called, its range with both ends in it, the pairs of bases compared in the move, and how many bases
/// each allele has. The alleles themselves stand in the lent buffers.
#[derive(Clone, Copy)]
pub struct Answered {
    pub class: Class,
    pub start: One,
    pub end: One,
    pub probes: usize,
    pub reference_size: usize,
    pub alternative_size: usize,
}

/// What comes back of a request: its answer, or the row that refuses it.
pub type Outcome = Result<Answered, Refusal>;
