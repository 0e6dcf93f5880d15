// The exons that a table's bytes hold, read where the bytes lie, one exon at a time.
ghost use Rattle.std.specs.Prelude.{◌≡◌, ◌∷◌, ◌+◌, ◌<◌, ◌^◌, List, length, drop};
ghost use Rattle.definition.specs.Piece.{exons_in};
ghost use Rattle.definition.specs.declared.Exon as exon;

use crate::little_endian::number_at;
use definition::{Exon, Zero};
use std::marker::Model;

/// The exons of a table: pairs of 32-bit little-endian numbers, a start and an end, both counted from 0. Bytes at the end that make no whole pair
/// hold none.
#[derive(Drop)]
pub struct Exons<'a> {
    table: &'a [u8],
}

impl<'a> Model for Exons<'a> {
    ghost Value = { List exon.Exon };

    ghost view = { λ e. exons_in e.table.now };
}

impl<'a> Exons<'a> {
    /// The exons that the bytes of a table hold.
    pub fn of(table: &'a [u8]) -> Self
        ensures { result ≡ exons_in table.now }
    {
        Exons { table }
    }

    /// How many exons there are: an eighth of the table's bytes.
    #[tactic(auto, using(crate::proofs::Pairs::count))]
    pub fn len(&self) -> usize
        ensures count { result ≡ length self.now }
        ensures bound { result < 2 ^ 61 }
    {
        self.table.len() / 8
    }

    /// The exon at a place, counted from 0.
    #[tactic(auto, using(crate::proofs::Pairs::pair_at, crate::proofs::Pairs::count))]
    pub fn get(&self, i: usize) -> Exon
        requires { i < length self.now }
        ensures { drop i self.now ≡ result ∷ drop (i + 1) self.now }
    {
        let table = self.table;
        let at = 8 * i;
        Exon {
            start: Zero(number_at(table, at) as usize),
            end: Zero(number_at(table, at + 4) as usize),
        }
    }
}
