// Row 5: the two ends of the range, read and held to the target.
ghost use Rattle.std.specs.Prelude.{◌≡◌};
ghost use Rattle.definition.specs.Request.{coordinate_of};
ghost use Rattle.normalizer.specs.Range.{ordered_range, range_of, range_read};

use definition::{Range, Zero};

// An end of the range, signed as the caller gives it: no other function meets a number below 0. The test stands written out, and not in a TryFrom, for
// the edits that turn it: `minus_1_is_a_position` and `coordinate_0_is_below`.
#[tactic(auto, using(crate::proofs::Signed::coordinate_below, crate::proofs::Signed::coordinate_natural))]
fn coordinate_of(position: i32) -> Option<Zero>
    ensures { result ≡ coordinate_of position }
{
    if position < 0 {
        return None;
    }
    Some(Zero(position as usize))
}

// A range with some base in it, which lies in the target.
fn ordered(start: Zero, end: Zero, size: usize) -> Option<Range>
    ensures { result ≡ ordered_range start end size }
{
    if end.0 <= start.0 || size < end.0 {
        return None;
    }
    Some(Range { start, end })
}

// Two ends of a range, of which neither is below 0.
fn range_of(first: Option<Zero>, last: Option<Zero>, size: usize) -> Option<Range>
    ensures { result ≡ range_of first last size }
{
    ordered(first?, last?, size)
}

/// The range from `start` up to `end` of a target of `size` bases. Row 5 is `None`: it begins below 0, has no base, or ends past the target.
#[tactic(auto, using(crate::proofs::RangesRead::read_off))]
pub fn range_within(start: i32, end: i32, size: usize) -> Option<Range>
    ensures { result ≡ range_read start end size }
{
    range_of(coordinate_of(start), coordinate_of(end), size)
}
