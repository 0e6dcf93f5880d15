// Numbers as bytes hold them, 32 bits, the least byte first: those of an exon table and those of stored records.
ghost use Rattle.std.specs.Prelude.{◌≡◌, ◌+◌, ◌≤◌, length};
ghost use Rattle.tables.specs.Numbers.{number_at};

/// The number that the four bytes from a place on spell.
#[tactic(auto, unfolding(crate::specs::Numbers::number_at, definition::specs::Piece::little))]
pub fn number_at(bytes: &[u8], at: usize) -> u32
    requires { at + 4 ≤ length bytes.now }
    ensures { result ≡ number_at bytes.now at }
{
    u32::from_le_bytes([bytes[at], bytes[at + 1], bytes[at + 2], bytes[at + 3]])
}
