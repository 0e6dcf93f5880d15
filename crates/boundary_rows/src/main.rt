// Runs the table rules and the pieces over the rows on standard input, and writes one line a row: what it shows and what came back. The file `stdin` has a
// row for each table rule, each refusal of the boundary search and each side of its bounds.
#![tactic(auto)]

ghost use Rattle.std.specs.Prelude.{◌<◌};

use asking::{decimals, exon_lists, reading, refusals, text};
use boundary::pieces;
use definition::{Bound, Cds, Kind, Piece, Range, Refusal, Zero};
use std::io;

// A piece, or the number and the name of a refusal.
fn say_found(rt: &impl Print, found: Result<Piece, Refusal>) -> io::Result<()> {
    match found {
        Ok(piece) => println!(rt; ": piece {}..{}", piece.left.0, piece.right.0),
        Err(refusal) => println!(rt;
            ": refusal {} {}",
            refusal.number(),
            refusals::refusal_name(refusal)
        ),
    }
}

// Row 10 where a transcript's tables break a rule, else the piece of the range.
fn found_for(
    kind: Kind,
    table: &[u8],
    cds: Cds,
    size: usize,
    range: Range,
) -> Result<Piece, Refusal>
    requires { range.start.0 < range.end.0 }
{
    match kind {
        Kind::Open | Kind::Crossing => pieces::piece_for(kind, table, cds, range),
        // Asked in its own arm, where the check sees that the table is in order: behind a joined `if` that fact is lost.
        Kind::Transcript => {
            if tables::tables_hold(table, cds, size) {
                return pieces::piece_for(kind, table, cds, range);
            }
            Err(Refusal::BadTables)
        }
    }
}

// The field of a number, which counts from 0, among those that bars part: empty where there is none.
fn field(row: &[u8], number: usize) -> &[u8] {
    row.split(|byte| *byte == b'|').nth(number).unwrap_or(b"")
}

// The number that a field is; another where it is none.
fn number_or(field: &[u8], other: usize) -> usize {
    decimals::decimal(field).map_or(other, |number| number as usize)
}

fn kind_in(field: &[u8]) -> Kind {
    match field {
        b"open" => Kind::Open,
        b"crossing" => Kind::Crossing,
        _ => Kind::Transcript,
    }
}

// A CDS bound: absent where the field is empty.
fn bound_in(field: &[u8]) -> Bound {
    if field.is_empty() {
        return Bound::Absent;
    }
    match decimals::decimal(field) {
        Some(place) => Bound::At(place as usize),
        None => Bound::Negative,
    }
}

// The bytes of the table that a field's exons fill: none where a part of it is no pair, as where it is empty.
fn fill_table(exons: &[u8], table: &mut [u8]) -> usize {
    exon_lists::read_exons(exons, table).unwrap_or(0)
}

// What a row's range comes to over a table.
fn say_piece(rt: &impl Print, row: &[u8], table: &[u8]) -> io::Result<()> {
    let start = number_or(field(row, 7), 0);
    let end = number_or(field(row, 8), 0);
    if end <= start {
        return println!(rt; ": no range");
    }
    let cds = Cds {
        start: bound_in(field(row, 4)),
        end: bound_in(field(row, 5)),
    };
    let range = Range {
        start: Zero(start),
        end: Zero(end),
    };
    say_found(
        rt,
        found_for(
            kind_in(field(row, 1)),
            table,
            cds,
            number_or(field(row, 6), 0),
            range,
        ),
    )
}

// Runs a row. What it shows may be bytes that are not UTF-8.
fn run_row(rt: &impl Print, row: &[u8]) -> io::Result<()> {
    let mut table = [0u8; 4104];
    let size = fill_table(field(row, 2), &mut table);
    rt.write_all(field(row, 0))?;
    say_piece(
        rt,
        row,
        text::part(&table, 0, number_or(field(row, 3), size)),
    )
}

// Runs the rows, one a line: a line that is empty, or begins with #, is none.
fn run_rows(rt: &impl Print, rows: &[u8]) -> io::Result<()> {
    for line in rows.split(|byte| *byte == b'\n') {
        if line.is_empty() || line.starts_with(b"#") {
            continue;
        }
        run_row(rt, line)?;
    }
    Ok(())
}

fn main(rt: HostRuntime) -> io::Result<()> {
    let mut space = [0u8; 65536];
    let size = reading::read_full(&mut rt.reader(), &mut space);
    if size == space.len() {
        return println!(rt; "The rows have more than 65535 bytes.");
    }
    run_rows(&rt, &space[..size])
}
