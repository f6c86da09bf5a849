// Spreading a process image over a row of areas. The row takes the next index, how many areas have a state, and three numbers of each.
ghost use Rattle.std.specs.Prelude.{◌≡◌, ◌+◌, ◌*◌, ◌≤◌, length, take};
ghost use mathlib.Core.List.{◌∷◌, flat_map};
ghost use Rattle.wire.specs.Bytes.{laid};
ghost use Rattle.created_frame.specs.Answers.{state_values};
ghost use Rattle.spread.specs.Answers.{said_last, first_of};
ghost use Rattle.spread.specs.Row.{areas_most, spread_of};
ghost use Rattle.export.specs.Told.{code_of, state_of, run_over};

use crate::row::{STATE_NUMBERS, code_of, put_all};
use created_frame::Builder;
use refusal::Refusal;
use spread::spread;

// The image goes over the areas of the row, each of `size` bytes, as logical PDUs of this command from this address on.
// The first area has the state (used, count, last); the answer's number is that of the last area that has a PDU of the image, 0 for no image.
pub fn morel_spread(
    areas: &mut [u8],
    size: usize,
    used: usize,
    count: usize,
    last: usize,
    index: u8,
    command: u8,
    address: u32,
    image: &[u8],
    out: &mut [u64],
) -> u8
    ensures code { result ≡ code_of (spread_of areas.old size (state_of used count last) index command address image.now).said }
    ensures bytes { areas.new ≡ (spread_of areas.old size (state_of used count last) index command address image.now).run.areas }
    ensures lent { out.new ≡ run_over out.old (spread_of areas.old size (state_of used count last) index command address image.now).run }
{
    let first = Builder { used, count, last };
    let r = spread(areas, size, first, index, command, address, image);
    put_run(out, r.next, last_of(r.answer), &r.states);
    code_of(r.answer)
}

// The last area's number; a refused image has none.
fn last_of(answer: Result<usize, Refusal>) -> usize
    ensures { result ≡ first_of (said_last answer) }
{
    answer.unwrap_or(0)
}

// The next index, how many states, and the first n of them.
fn put_run(out: &mut [u64], next: u8, n: usize, states: &[Builder])
    requires { (n ≤ areas_most) × (n ≤ length states.now) }
    ensures { out.new ≡ laid out.old 0 (next ∷ n ∷ flat_map state_values (take n states.now)) }
{
    wire::lay(out, 0, &[u64::from(next), n as u64]);
    put_all::<Builder, STATE_NUMBERS>(out, 2, &states[..n]);
}
