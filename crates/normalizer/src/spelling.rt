// The change that each edit spells, moved in its piece, and its result there.
ghost use Rattle.std.specs.Prelude.{◌≡◌, false, [], ◌≤◌, ◌<◌, length};
ghost use Rattle.definition.specs.Limits.{longest_target};
ghost use Rattle.definition.specs.Change.{spelled};
ghost use Rattle.definition.specs.Verdict.{moved_in};
ghost use Rattle.normalizer.specs.Reads.{reads};
ghost use Rattle.shuffle.specs.Settled.{Asked, change};
ghost use Rattle.results.specs.Asked.{Room};
ghost use Rattle.results.specs.Lent.{MetIn, SameBuffers};
ghost use Rattle.normalizer.specs.Queries.{InPiece, Reads, spelled_by};
ghost use Rattle.normalizer.specs.Spelled.{gaps_of, copied_by};

use crate::edits;
use crate::queries::Query;
use alleles::Allele;
use definition::{Direction, Edit, Kind, LONGEST_ALLELE, Outcome, Piece, Range, Zero};
use results::buffers::Buffers;
use results::changes::Moved;
use sequences::bases;
use shuffle::{Alleles, Spelled};

// The gaps between which a change takes the bases away.
#[derive(Clone, Copy)]
struct Gaps {
    from: Zero,
    to: Zero,
}

// The change that a request spells, moved in its piece and named there. The buffers of its two alleles are made here, once, and lent from here on.
fn moved(
    direction: Direction,
    kind: Kind,
    target: &[u8],
    piece: Piece,
    spelled: Spelled,
    window: usize,
    buffers: &mut Buffers,
) -> Outcome
    requires asked { Asked piece target.now (change spelled) window }
    requires in_bounds { (1 ≤ length target.now) × (length target.now ≤ longest_target) }
    requires room { Room buffers.old.reference.now buffers.old.alternative.now }
    ensures met { MetIn
        (moved_in direction kind piece target.now (change spelled.entry))
        result buffers.old buffers.new }
    ensures same_buffers { SameBuffers buffers.old buffers.new }
{
    let mut alleles = Alleles {
        reference: Allele::empty(),
        alternative: Allele::empty(),
    };
    let moved = shuffle::normalize_alleles(direction, target, piece, spelled, window, &mut alleles);
    let change = Moved {
        target,
        direction,
        piece,
        place: moved.place,
        reference_size: alleles.reference.count,
        alternative: &alleles.alternative,
    };
    results::build_result(&change, kind, moved.probes, buffers)
}

// The two gaps of the change that an edit spells: an insertion goes in behind its first flanking base, a duplication's copy behind its range.
#[tactic(auto, unfolding(crate::specs::Spelled::gaps_of))]
fn gaps_of(edit: Edit, range: Range) -> Gaps
    requires { range.start.0 ≤ longest_target }
    ensures { result ≡ gaps_of edit range.start range.end }
{
    match edit {
        Edit::Insert => {
            let gap = Zero(range.start.0 + 1);
            Gaps { from: gap, to: gap }
        }
        Edit::Duplicate => Gaps {
            from: range.end,
            to: range.end,
        },
        Edit::Delete | Edit::Replace | Edit::Invert => Gaps {
            from: range.start,
            to: range.end,
        },
    }
}

// The bases of the target that an edit puts in once more: a duplication's range, and none otherwise.
#[tactic(auto, unfolding(crate::specs::Spelled::copied_by))]
fn copied<'a>(edit: Edit, target: &'a [u8], range: Range) -> &'a [u8]
    requires { (range.start.0 < range.end.0) × (range.end.0 ≤ length target.now) }
    ensures { result.now ≡ copied_by edit target.now range.start.0 range.end.0 }
{
    match edit {
        Edit::Duplicate => &target[range.start.0..range.end.0],
        Edit::Insert | Edit::Delete | Edit::Replace | Edit::Invert => &[],
    }
}

// An edit that reads no alternative: its bases are the reverse complement of the range, a copy of it, or none.
#[inline(always)]
fn spell_from_target(query: &Query, piece: Piece, buffers: &mut Buffers) -> Outcome
    requires ranged { InPiece query.now piece }
    requires reads_none { reads query.now.edit ≡ false }
    requires room { Room buffers.old.reference.now buffers.old.alternative.now }
    ensures met { MetIn
        (moved_in query.now.direction query.now.kind piece query.now.target.now (spelled query.now.edit query.now.target.now query.now.range.start.0 query.now.range.end.0 []))
        result buffers.old buffers.new }
    ensures same_buffers { SameBuffers buffers.old buffers.new }
{
    let range = query.range;
    if let Edit::Invert = query.edit {
        let mut buffer = [0u8; LONGEST_ALLELE];
        let size = bases::revcomp(&query.target[range.start.0..range.end.0], &mut buffer);
        let inverted = Spelled {
            from: range.start,
            to: range.end,
            inserted: &buffer[..size],
        };
        return moved(
            query.direction,
            query.kind,
            query.target,
            piece,
            inverted,
            query.window,
            buffers,
        );
    }
    let gaps = gaps_of(query.edit, range);
    let inserted = copied(query.edit, query.target, range);
    let spelled = Spelled {
        from: gaps.from,
        to: gaps.to,
        inserted,
    };
    moved(
        query.direction,
        query.kind,
        query.target,
        piece,
        spelled,
        query.window,
        buffers,
    )
}

/// The change that each edit spells, moved in its piece and named there.
#[inline(always)]
pub fn spell(query: &Query, piece: Piece, buffers: &mut Buffers) -> Outcome
    requires ranged { InPiece query.now piece }
    requires read { Reads query.now }
    requires room { Room buffers.old.reference.now buffers.old.alternative.now }
    ensures met { MetIn
        (moved_in query.now.direction query.now.kind piece query.now.target.now (spelled_by query.now))
        result buffers.old buffers.new }
    ensures same_buffers { SameBuffers buffers.old buffers.new }
{
    if !edits::reads_alternative(query.edit) {
        return spell_from_target(query, piece, buffers);
    }
    let gaps = gaps_of(query.edit, query.range);
    let spelled = Spelled {
        from: gaps.from,
        to: gaps.to,
        inserted: query.alternative,
    };
    moved(
        query.direction,
        query.kind,
        query.target,
        piece,
        spelled,
        query.window,
        buffers,
    )
}
