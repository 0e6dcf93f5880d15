// What an edit asks of its range and of the alternative: whether row 6 is given, and whether the alternative is read. The alternative stands beside the
// edit and not in it, as in the definition: a second type of edits would have each contract say both.
ghost use Rattle.std.specs.Prelude.{◌≡◌, ◌≤◌};
ghost use Rattle.definition.specs.Verdict.{misfits};
ghost use Rattle.normalizer.specs.Reads.{reads};

use definition::{Edit, Range};

/// Row 6: an insertion whose range is not two flanking bases, or with nothing to insert.
pub fn bad_insertion(edit: Edit, range: Range, alternative: &[u8]) -> bool
    requires { range.start.0 ≤ 4294967295 }
    ensures { result ≡ misfits edit range.start.0 range.end.0 alternative.now }
{
    match edit {
        Edit::Insert => (range.end.0 != range.start.0 + 2) | alternative.is_empty(),
        Edit::Duplicate | Edit::Delete | Edit::Replace | Edit::Invert => false,
    }
}

/// Only an insertion and a replacement read the alternative.
pub fn reads_alternative(edit: Edit) -> bool
    ensures { result ≡ reads edit }
{
    matches!(edit, Edit::Insert | Edit::Replace)
}
