// The frame builder and the frame header. A builder's state goes in as numbers and comes back in the row.
ghost use Rattle.std.specs.Prelude.{◌≡◌, [], ◌∷◌, ◌++◌, length};
ghost use Rattle.refusal.specs.Said.{said, said_if_any};
ghost use Rattle.pdu.specs.Answers.{said_header, header_said, header_left};
ghost use Rattle.created_frame.specs.Frame.{opened, after_open, pushed, pushed_builder, pushed_next, after_push, rest_pushed, rest_builder, rest_next, after_rest, can_push};
ghost use Rattle.created_frame.specs.Answers.{handle_values, state_values, said_opened, said_pushed, said_rest};
ghost use Rattle.export.specs.Told.{code_of, row_over, state_of, state_over, bytes_over, header_told};

use crate::row::{ABSENT, GIVES, STATE_NUMBERS, Told, tell};
use created_frame::{Builder, state_row};
use pdu::FRAME_HEADER_BYTES;
use refusal::Refusal;

// Zeroes the area; the row takes the state of an empty one: used, count, last.
pub fn morel_open(area: &mut [u8], out: &mut [u64]) -> u8
    ensures code { result ≡ code_of (opened (length area.old)) }
    ensures bytes { area.new ≡ after_open area.old }
    ensures lent { out.new ≡ row_over out.old (opened (length area.old)) }
{
    tell(out, created_frame::open(area))
}

// Pushes a PDU of these bytes, its payload as long as the larger of their count and `over`.
// The row takes the state after it and the next index, and behind them the PDU's place, size, index and command.
pub fn morel_push_pdu(
    area: &mut [u8],
    used: usize,
    count: usize,
    last: usize,
    index: u8,
    command: u8,
    address: u32,
    bytes: &[u8],
    over: usize,
    out: &mut [u64],
) -> u8
    ensures code { result ≡ code_of (pushed (length area.old) (state_of used count last) index command (length bytes.now) over) }
    ensures bytes { area.new ≡ after_push area.old (state_of used count last) index command address bytes.now over }
    ensures lent { out.new ≡ state_over out.old
        (pushed_builder (length area.old) (state_of used count last) command (length bytes.now) over)
        (pushed_next (length area.old) (state_of used count last) index command (length bytes.now) over)
        (pushed (length area.old) (state_of used count last) index command (length bytes.now) over) }
{
    let b = Builder { used, count, last };
    let r = created_frame::push_pdu(area, b, index, command, address, bytes, over);
    tell_push(out, r.builder, r.next, if_any(r.answer))
}

// Pushes a PDU of the first of these bytes, as many as have room. The row takes the state after it and the next index,
// and behind them how many went in and the PDU's place, size, index and command.
pub fn morel_push_pdu_slice_rest(
    area: &mut [u8],
    used: usize,
    count: usize,
    last: usize,
    index: u8,
    command: u8,
    address: u32,
    bytes: &[u8],
    out: &mut [u64],
) -> u8
    ensures code { result ≡ code_of (rest_pushed (length area.old) (state_of used count last) index command (length bytes.now)) }
    ensures bytes { area.new ≡ after_rest area.old (state_of used count last) index command address bytes.now }
    ensures lent { out.new ≡ state_over out.old
        (rest_builder (length area.old) (state_of used count last) command (length bytes.now))
        (rest_next (length area.old) (state_of used count last) index command (length bytes.now))
        (rest_pushed (length area.old) (state_of used count last) index command (length bytes.now)) }
{
    let b = Builder { used, count, last };
    let r = created_frame::push_pdu_slice_rest(area, b, index, command, address, bytes);
    tell_push(out, r.builder, r.next, r.answer)
}

// The state after a push and the next index, and behind them what it gives.
#[tactic(auto, using(crate::proofs::Laws::state_laid), unfolding(crate::specs::Told::state_over))]
fn tell_push<T: Told>(
    out: &mut [u64],
    b: Builder,
    next: u8,
    answer: Result<Option<T>, Refusal>,
) -> u8
    ensures code { result ≡ code_of (said_if_any T.values answer) }
    ensures lent { out.new ≡ state_over out.old b next (said_if_any T.values answer) }
{
    wire::lay(out, 0, &kept_row(b, next));
    match answer {
        Ok(Some(x)) => {
            x.put(out, STATE_NUMBERS + 1);
            GIVES
        }
        Ok(None) => ABSENT,
        Err(x) => refusal::number(x),
    }
}

// The state and the next index.
fn kept_row(b: Builder, next: u8) -> [u64; 4]
    ensures { result ≡ state_values b ++ next ∷ [] }
{
    let [used, count, last] = state_row(b);
    [used, count, last, u64::from(next)]
}

// What is given as what may be absent.
fn if_any<T: Told>(answer: Result<T, Refusal>) -> Result<Option<T>, Refusal>
    ensures { said_if_any T.values result ≡ said T.values answer }
{
    Ok(Some(answer?))
}

// Whether a PDU of len payload bytes has room: 1 or 0.
pub fn morel_can_push_pdu_payload(
    size: usize,
    used: usize,
    count: usize,
    last: usize,
    len: usize,
    out: &mut [u64],
) -> u8
    ensures code { result ≡ code_of (can_push size (state_of used count last) len) }
    ensures lent { out.new ≡ row_over out.old (can_push size (state_of used count last) len) }
{
    let b = Builder { used, count, last };
    tell(out, created_frame::can_push_pdu_payload(size, b, len))
}

// The two bytes of the header of a frame whose PDUs take this many bytes, at the front of `bytes`; fewer than two are refused. A refusal leaves them.
#[tactic(auto, unfolding(crate::specs::Told::header_told, crate::specs::Told::bytes_over))]
pub fn morel_frame_header(used: usize, bytes: &mut [u8]) -> u8
    ensures code { result ≡ code_of (header_told used (length bytes.old)) }
    ensures lent { bytes.new ≡ bytes_over bytes.old (header_told used (length bytes.old)) (header_left used) }
{
    if bytes.len() < FRAME_HEADER_BYTES {
        return refusal::number(Refusal::BadArgument);
    }
    put_header(used, bytes)
}

// The header over the front of the bytes, as much of it as they have room for.
fn put_header(used: usize, bytes: &mut [u8]) -> u8
    ensures code { result ≡ code_of (header_said used) }
    ensures lent { bytes.new ≡ bytes_over bytes.old (header_said used) (header_left used) }
{
    match pdu::frame_header(used) {
        Ok(head) => {
            wire::lay(bytes, 0, &head);
            GIVES
        }
        Err(x) => refusal::number(x),
    }
}
