// The codes and the CDS bounds of a request, and the kind, the edit, the direction and the bounds that they stand for. A code is read by a total function
// and by no TryFrom: row 1 has refused one past the last, and `limits::bad_code` says it of all three codes in one test, as the definition does.
ghost use Rattle.std.specs.Prelude.{◌≡◌};
ghost use Rattle.definition.specs.Request.{kind_of, edit_of, direction_of, bound_of};

use definition::{Bound, Direction, Edit, Kind};

// The kind of a target.
#[tactic(auto, unfolding(definition::specs::Request::kind_of))]
pub(crate) fn kind_of(code: u32) -> Kind
    ensures { result ≡ kind_of code }
{
    match code {
        0 => Kind::Open,
        1 => Kind::Transcript,
        _ => Kind::Crossing,
    }
}

// The edit that is asked for.
#[tactic(auto, unfolding(definition::specs::Request::edit_of))]
pub(crate) fn edit_of(code: u32) -> Edit
    ensures { result ≡ edit_of code }
{
    match code {
        0 => Edit::Insert,
        1 => Edit::Duplicate,
        2 => Edit::Delete,
        3 => Edit::Replace,
        _ => Edit::Invert,
    }
}

// The direction of the move.
#[tactic(auto, unfolding(definition::specs::Request::direction_of))]
pub(crate) fn direction_of(code: u32) -> Direction
    ensures { result ≡ direction_of code }
{
    match code {
        0 => Direction::Rightward,
        _ => Direction::Leftward,
    }
}

// A CDS bound, signed as the caller gives it: -1 is absent, another negative number breaks a table rule.
#[tactic(auto, unfolding(definition::specs::Request::bound_of))]
pub(crate) fn bound_of(number: i64) -> Bound
    ensures { result ≡ bound_of number }
{
    match number {
        0.. => Bound::At(number as usize),
        -1 => Bound::Absent,
        _ => Bound::Negative,
    }
}
