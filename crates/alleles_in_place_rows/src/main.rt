// Runs the thin forms over small alleles, one of which goes round its array's end, and writes one line a row: what was done and what the
// alleles then hold.
#![tactic(auto)]

ghost use Rattle.std.specs.Prelude.{◌+◌, ◌-◌, ◌%◌, ◌≤◌, ◌≡◌, ◌++◌, length, take, drop};
ghost use Rattle.alleles.specs.Held.{held, Good, Holds};
ghost use Rattle.alleles.specs.Trims.{TrimmedFront, TrimmedBack};

use alleles::allele_trims::Trimmed;
use alleles::alleles_in_place::{keep_back_in, keep_front_in, push_back_in, push_front_in};
use alleles::trims_in_place::{trim_back_in, trim_front_in};
use alleles::{Allele, allele_parts};
use std::io;

// Each thin form called on an allele of the caller's own: the local is lent for the call, and given back by value.
fn pushed_back(mut allele: Allele, part: &[u8]) -> Allele
    requires { Good allele × (allele.count + length part.now ≤ 2048) }
    ensures { Holds result allele.head (allele.count + length part.now) (held allele ++ part.now) }
{
    push_back_in(&mut allele, part);
    allele
}

fn pushed_front(mut allele: Allele, part: &[u8]) -> Allele
    requires { Good allele × (allele.count + length part.now ≤ 2048) }
    ensures { Holds result ((allele.head + 2048 - length part.now) % 2048)
        (allele.count + length part.now) (part.now ++ held allele) }
{
    push_front_in(&mut allele, part);
    allele
}

fn kept_front(mut allele: Allele, first: usize) -> Allele
    requires { Good allele × (first ≤ allele.count) }
    ensures { Holds result allele.head first (take first (held allele)) }
{
    keep_front_in(&mut allele, first);
    allele
}

fn kept_back(mut allele: Allele, last: usize) -> Allele
    requires { Good allele × (last ≤ allele.count) }
    ensures { Holds result ((allele.head + (allele.count - last)) % 2048) last (drop (allele.count - last) (held allele)) }
{
    keep_back_in(&mut allele, last);
    allele
}

fn trimmed_front(mut left: Allele, mut right: Allele) -> Trimmed
    requires { Good left × Good right }
    ensures { TrimmedFront left right result }
{
    let count = trim_front_in(&mut left, &mut right);
    Trimmed { count, left, right }
}

fn trimmed_back(mut left: Allele, mut right: Allele) -> Trimmed
    requires { Good left × Good right }
    ensures { TrimmedBack left right result }
{
    let count = trim_back_in(&mut left, &mut right);
    Trimmed { count, left, right }
}

// The bases of an allele, and where its window begins.
fn write_allele(rt: &impl Print, allele: Allele) -> io::Result<()>
    requires { Good allele }
{
    let mut bases = [0u8; 2048];
    let head = allele.head;
    let size = allele_parts::write_out(allele, &mut bases);
    if size == 0 {
        print!(rt; "no base")?;
    }
    rt.write_all(&bases[..size])?;
    print!(rt; " from place {head}")
}

fn write_trim(rt: &impl Print, what: &str, trimmed: Trimmed) -> io::Result<()>
    requires { Good trimmed.left × Good trimmed.right }
{
    print!(rt; "{what}: {} off, ", trimmed.count)?;
    write_allele(rt, trimmed.left)?;
    print!(rt; " and ")?;
    write_allele(rt, trimmed.right)?;
    println!(rt;)
}

fn write_row(rt: &impl Print, what: &str, allele: Allele) -> io::Result<()>
    requires { Good allele }
{
    print!(rt; "{what}: ")?;
    write_allele(rt, allele)?;
    println!(rt;)
}

// An allele whose window goes round the array's end: the first two of its four bases stand in the last two places.
fn round() -> Allele
    ensures good { Good result }
    ensures count_value { result.count ≡ 4 }
{
    pushed_front(Allele::filled(b"GT"), b"AC")
}

fn pushes(rt: &impl Print) -> io::Result<()> {
    write_row(
        rt,
        "push_back_in of GT to AC",
        pushed_back(Allele::filled(b"AC"), b"GT"),
    )?;
    write_row(rt, "push_front_in of AC to GT", round())?;
    write_row(
        rt,
        "push_back_in of GG to ACGT, which goes round",
        pushed_back(round(), b"GG"),
    )?;
    write_row(
        rt,
        "push_front_in of nothing to ACGT, which goes round",
        pushed_front(round(), b""),
    )
}

fn keeps(rt: &impl Print) -> io::Result<()> {
    write_row(
        rt,
        "keep_front_in of 3 of ACGT, which goes round",
        kept_front(round(), 3),
    )?;
    write_row(
        rt,
        "keep_back_in of 3 of ACGT, which goes round",
        kept_back(round(), 3),
    )?;
    write_row(
        rt,
        "keep_back_in of 1 of ACGT, which goes round",
        kept_back(round(), 1),
    )?;
    write_row(
        rt,
        "keep_front_in of 0 of ACGT",
        kept_front(Allele::filled(b"ACGT"), 0),
    )
}

fn trims(rt: &impl Print) -> io::Result<()> {
    write_trim(
        rt,
        "trim_front_in of ACGT, which goes round, and ACT",
        trimmed_front(round(), Allele::filled(b"ACT")),
    )?;
    write_trim(
        rt,
        "trim_back_in of ACGT, which goes round, and CCGT",
        trimmed_back(round(), Allele::filled(b"CCGT")),
    )?;
    write_trim(
        rt,
        "trim_front_in of ACGT and G",
        trimmed_front(Allele::filled(b"ACGT"), Allele::filled(b"G")),
    )?;
    write_trim(
        rt,
        "trim_back_in of GT and GT",
        trimmed_back(Allele::filled(b"GT"), Allele::filled(b"GT")),
    )
}

fn main(rt: HostRuntime) -> io::Result<()> {
    pushes(&rt)?;
    keeps(&rt)?;
    trims(&rt)
}
