// The table rules, and whether the row of the tables is given.
#![tactic(auto)]

pub mod exon_order;
pub mod exons;
pub mod little_endian;
pub mod search;

ghost use Rattle.std.specs.Prelude.{◌≡◌};
ghost use Rattle.definition.specs.Piece.{bound_in_target, bounds_in_order, tables_hold};
ghost use Rattle.definition.specs.Verdict.{tables_broken};

use crate::exons::Exons;
use definition::{Bound, Cds, Kind};

// A bound that is given is a number up to the target's size.
#[tactic(auto, unfolding(definition::specs::Piece::bound_in_target))]
fn bound_in_target(bound: Bound, size: usize) -> bool
    ensures { result ≡ bound_in_target size bound }
{
    match bound {
        Bound::Absent => true,
        Bound::At(c) => c <= size,
        Bound::Negative => false,
    }
}

// Two numbers in order. A bound that is absent is in order with any, and one that is negative is refused by itself.
#[tactic(auto, unfolding(definition::specs::Piece::bounds_in_order))]
fn bounds_in_order(cds: Cds) -> bool
    ensures { result ≡ bounds_in_order cds.start cds.end }
{
    match (cds.start, cds.end) {
        (Bound::At(s), Bound::At(e)) => s <= e,
        _ => true,
    }
}

/// Whether every table rule holds: 1 to 512 whole pairs of eight bytes, in order, the last end at the target's size, and CDS bounds in it and in
/// order. The table is any bytes at all.
#[tactic(auto, using(crate::proofs::Rules::left_over, crate::proofs::Rules::no_pair, crate::proofs::Rules::too_many, crate::proofs::Rules::rules_left))]
pub fn tables_hold(table: &[u8], cds: Cds, size: usize) -> bool
    ensures { result ≡ tables_hold table.now cds.start cds.end size }
{
    let bytes = table.len();
    bytes % 8 == 0
        && 8 <= bytes
        && bytes <= 4096
        && Exons::of(table).fit(size)
        && bound_in_target(cds.start, size)
        && bound_in_target(cds.end, size)
        && bounds_in_order(cds)
}

/// Whether the row of the tables is given: a transcript that does not cross breaks a table rule.
pub fn bad_tables(kind: Kind, exons: &[u8], cds: Cds, size: usize) -> bool
    ensures { result ≡ tables_broken kind exons.now cds.start cds.end size }
{
    match kind {
        Kind::Transcript => !tables_hold(exons, cds, size),
        Kind::Open | Kind::Crossing => false,
    }
}
