// Rows 1, 2, 3 and 9: the numbers of a request that must lie inside a limit, each in a function that says whether its row is given.
ghost use Rattle.std.specs.Prelude.{◌≡◌};
ghost use Rattle.definition.specs.Verdict.{unlisted, window_outside, size_outside, cramped};

use definition::{ANSWER_ROOM, LONGEST_TARGET, LONGEST_WINDOW};

/// Row 1: a kind, an edit or a direction is no listed code.
pub fn bad_code(kind: u32, edit: u32, direction: u32) -> bool
    ensures { result ≡ unlisted kind edit direction }
{
    (2 < kind) | (4 < edit) | (1 < direction)
}

/// Row 2: the window is 0 or longer than the longest.
pub fn bad_window(window: u32) -> bool
    ensures { result ≡ window_outside window }
{
    (window == 0) | (LONGEST_WINDOW < window)
}

/// Row 3: the target has no base or more than the longest.
pub fn bad_target(size: usize) -> bool
    ensures { result ≡ size_outside size }
{
    (size == 0) | (LONGEST_TARGET < size)
}

/// Row 9: an answer buffer has no room for the longest answer.
pub fn no_room(reference: usize, alternative: usize) -> bool
    ensures { result ≡ cramped reference alternative }
{
    (reference < ANSWER_ROOM) | (alternative < ANSWER_ROOM)
}
