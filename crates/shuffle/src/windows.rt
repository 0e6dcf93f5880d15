// One window of a move: bases of the target are stored beside both alleles, rightward behind them and leftward before, and what the two then share at
// the other end says how far the change moves. The alleles are lent, so nothing here copies them.
ghost use Rattle.std.specs.Prelude.{◌≡◌, ◌+◌, min, length};
ghost use Rattle.alleles.specs.Window.{Placed};
ghost use Rattle.shuffle.specs.Windows.{Before, Taken, WindowMoved, SteppedOn};

use crate::Alleles;
use alleles::ends;
use definition::Direction;

/// One window of the move: how many bases it has, and how many the change moved in it.
#[derive(Clone, Copy)]
pub struct Stepped {
    pub size: usize,
    pub moved: usize,
}

// The bases beside a change of so many reference bases: as many as a window takes, and none past the edge.
fn chunk_beside<'a>(
    direction: Direction,
    target: &'a [u8],
    place: usize,
    count: usize,
    edge: usize,
    most: usize,
) -> &'a [u8]
    requires { Before direction target.now place count edge }
    ensures { Taken direction target.now place count edge most result.now }
{
    match direction {
        Direction::Rightward => {
            let from = place + count;
            let size = most.min(edge - from);
            &target[from..from + size]
        }
        Direction::Leftward => {
            let size = most.min(place - edge);
            let from = place - size;
            &target[from..place]
        }
    }
}

// The chunk goes beside both alleles, of which one is empty, and what they then share at the other end comes off, as does what is left of the chunk.
fn window(direction: Direction, alleles: &mut Alleles, chunk: &[u8]) -> usize
    requires placed { Placed alleles.old.reference.head (alleles.old.reference.count + length chunk.now) }
    requires placed_2 { Placed alleles.old.alternative.head (alleles.old.alternative.count + length chunk.now) }
    requires pure { min alleles.old.reference.count alleles.old.alternative.count ≡ 0 }
    ensures { WindowMoved direction alleles.old.reference alleles.old.alternative chunk.now alleles.new.reference alleles.new.alternative result }
{
    let Alleles {
        reference,
        alternative,
    } = alleles;
    let rn = reference.count;
    let an = alternative.count;
    match direction {
        Direction::Rightward => {
            reference.append(chunk);
            alternative.append(chunk);
            let shared = ends::common_front(reference, alternative);
            reference.narrow(shared, rn);
            alternative.narrow(shared, an);
            shared
        }
        Direction::Leftward => {
            reference.prepend(chunk);
            alternative.prepend(chunk);
            let shared = ends::common_back(reference, alternative);
            let first = chunk.len() - shared;
            reference.narrow(first, rn);
            alternative.narrow(first, an);
            shared
        }
    }
}

/// One window, of at most `most` bases of the target between the change at `place` and the edge: how many bases it has, and how many the change moved.
/// The two alleles are those of the change where it then is.
pub fn normalize_alleles_inner(
    direction: Direction,
    target: &[u8],
    place: usize,
    edge: usize,
    most: usize,
    alleles: &mut Alleles,
) -> Stepped
    requires before { Before direction target.now place alleles.old.reference.count edge }
    requires placed { Placed alleles.old.reference.head (alleles.old.reference.count + most) × Placed alleles.old.alternative.head (alleles.old.alternative.count + most) }
    requires pure { min alleles.old.reference.count alleles.old.alternative.count ≡ 0 }
    ensures { SteppedOn direction target.now place edge most alleles.old.reference alleles.old.alternative alleles.new.reference alleles.new.alternative result }
{
    let chunk = chunk_beside(
        direction,
        target,
        place,
        alleles.reference.count,
        edge,
        most,
    );
    let moved = window(direction, alleles, chunk);
    Stepped {
        size: chunk.len(),
        moved,
    }
}
