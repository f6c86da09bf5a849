// The frame builder: PDUs pushed one after the other into a lent area. It follows created_frame.rs of the Rust and RULES, frames;
// headers are packed by `pdu`. The state of an area goes in and comes back by value, and so does the index counter.
#![tactic(auto)]

ghost use Rattle.std.specs.Prelude.{◌≡◌, ◌+◌, ◌<◌, ◌≤◌, length};
ghost use Rattle.pdu.specs.Pdu.{area_most, pdu_overhead, more_at};
ghost use Rattle.created_frame.specs.Frame.{marked, sound, acceptable, with_pdu, Roomy, grown, pushed, pushed_builder, pushed_next, after_push, opened, after_open, taken, rest_pushed, rest_builder, rest_next, after_rest, can_push};
ghost use Rattle.created_frame.specs.Answers.{handle_values, state_values, said_opened, said_pushed, said_rest, said_can};

use pdu::{AREA_MOST, HEADER_BYTES, MORE_AT, MORE_IN_BYTE};
use refusal::Refusal;

// A PDU's bytes over its payload: its header, and the working counter behind the payload.
pub const PDU_OVERHEAD_BYTES: usize = pdu::PDU_OVERHEAD_BYTES;

// A command is a number and no enum: the calls take any, and refuse one past the last with 14.
const COMMAND_MOST: u8 = 14;

const DATA_MOST: usize = 65535;

// The state of one area: bytes used, PDUs pushed, and where the last PDU starts (of no meaning at count 0).
// `last` is a number and no Option: the C interface and `sound` speak of a number, at count 0 too.
#[derive(Clone, Copy, Default)]
pub struct Builder {
    pub used: usize,
    pub count: usize,
    pub last: usize,
}

// What a response is later matched against: the PDU's place in the area, its whole size, its index and its command.
#[derive(Clone, Copy)]
pub struct PduResponseHandle {
    pub start: usize,
    pub size: usize,
    pub index: u8,
    pub command: u8,
}

// A push's answer, the state after it, and the index of the next PDU. State and index stand beside the answer and not in its Ok,
// since a refusal gives them too: one with 8 uses up an index (the clause `state` of `push_pdu`).
#[derive(Clone, Copy)]
pub struct Push<T = PduResponseHandle> {
    pub answer: Result<T, Refusal>,
    pub builder: Builder,
    pub next: u8,
}

// A push of as much as fits answers how many bytes went in, and the PDU; or None, where not one had room.
pub type RestPush = Push<Option<(usize, PduResponseHandle)>>;

// Zeroes the area, and gives the state of an empty one. One of more than 2,047 bytes is refused with 14, and stays as it was.
#[tactic(auto, using(crate::proofs::Blank::builder_blank), unfolding(crate::specs::Frame::opened, crate::specs::Frame::after_open))]
pub fn open(area: &mut [u8]) -> Result<Builder, Refusal>
    ensures answer { said_opened result ≡ opened (length area.old) }
    ensures whole { area.new ≡ after_open area.old }
{
    if area.len() > AREA_MOST {
        return Err(Refusal::BadArgument);
    }
    wire::fill(area, 0);
    Ok(Builder::default())
}

// Pushes a PDU of these bytes; its payload is as long as the larger of their count and `over`.
// What is out of bounds is refused with 14, and a PDU that has no space with 8.
// Index, command and address stand side by side and in no struct: the rules (`pushed`, `after_push`) and the C interface take them one by one.
#[tactic(auto, using(crate::proofs::Laws::accepted, crate::proofs::Laws::has_room, crate::proofs::Laws::in_largest), unfolding(crate::specs::Frame::pushed, crate::specs::Frame::pushed_builder, crate::specs::Frame::pushed_next, crate::specs::Frame::after_push, crate::specs::Frame::room))]
pub fn push_pdu(
    area: &mut [u8],
    b: Builder,
    index: u8,
    command: u8,
    address: u32,
    bytes: &[u8],
    over: usize,
) -> Push
    ensures answer { said_pushed result.answer ≡ pushed (length area.old) b index command (length bytes.now) over }
    ensures state { (result.builder ≡ pushed_builder (length area.old) b command (length bytes.now) over)
        × (result.next ≡ pushed_next (length area.old) b index command (length bytes.now) over) }
    ensures whole { area.new ≡ after_push area.old b index command address bytes.now over }
{
    let next = index.wrapping_add(1);
    if !is_acceptable(area.len(), b, command, bytes.len(), over) {
        return without(Err(Refusal::BadArgument), b, index);
    }
    let len = bytes.len().max(over);
    if area.len() < b.used + (len + PDU_OVERHEAD_BYTES) {
        return without(Err(Refusal::TooLong), b, next);
    }
    append(area, b, index, command, address, len, bytes);
    Push {
        answer: Ok(handle_of(b, len, index, command)),
        builder: grow(b, len),
        next,
    }
}

// Pushes a PDU of the first of these bytes: as many as have room. What is out of bounds is refused with 14.
#[tactic(auto, using(crate::proofs::Laws::accepted, crate::proofs::Laws::rest_room, crate::proofs::Laws::in_largest), unfolding(crate::specs::Frame::rest_pushed, crate::specs::Frame::rest_builder, crate::specs::Frame::rest_next, crate::specs::Frame::after_rest))]
pub fn push_pdu_slice_rest(
    area: &mut [u8],
    b: Builder,
    index: u8,
    command: u8,
    address: u32,
    bytes: &[u8],
) -> RestPush
    ensures answer { said_rest result.answer ≡ rest_pushed (length area.old) b index command (length bytes.now) }
    ensures state { (result.builder ≡ rest_builder (length area.old) b command (length bytes.now))
        × (result.next ≡ rest_next (length area.old) b index command (length bytes.now)) }
    ensures whole { area.new ≡ after_rest area.old b index command address bytes.now }
{
    let next = index.wrapping_add(1);
    if !is_acceptable(area.len(), b, command, bytes.len(), 0) {
        return without(Err(Refusal::BadArgument), b, index);
    }
    let n = rest_len(area.len(), b.used, bytes.len());
    if n == 0 {
        return without(Ok(None), b, index);
    }
    append(area, b, index, command, address, n, &bytes[..n]);
    Push {
        answer: Ok(Some((n, handle_of(b, n, index, command)))),
        builder: grow(b, n),
        next,
    }
}

// Whether a PDU of len payload bytes has room. A state or a length that is out of bounds is refused with 14.
#[tactic(auto, unfolding(crate::specs::Frame::can_push, crate::specs::Frame::room, crate::specs::Frame::sound))]
pub fn can_push_pdu_payload(size: usize, b: Builder, len: usize) -> Result<bool, Refusal>
    ensures { said_can result ≡ can_push size b len }
{
    if !is_sound(size, b) || len > DATA_MOST {
        return Err(Refusal::BadArgument);
    }
    Ok(b.used + (len + PDU_OVERHEAD_BYTES) <= size)
}

// The state fits an area of size bytes.
#[tactic(auto, unfolding(crate::specs::Frame::sound))]
pub fn is_sound(size: usize, b: Builder) -> bool
    ensures { result ≡ sound size b }
{
    if size > AREA_MOST || b.used > size {
        return false;
    }
    if b.count == 0 {
        return b.used == 0;
    }
    b.count <= b.used / PDU_OVERHEAD_BYTES && b.last <= b.used - HEADER_BYTES
}

// A state as a row of numbers: used, count, last. A function by its name and no `From`: it is a public call with a row in `pinned`.
pub fn state_row(b: Builder) -> [u64; 3]
    ensures { result ≡ state_values b }
{
    [b.used as u64, b.count as u64, b.last as u64]
}

// A handle as a row of numbers: the PDU's place, its whole size, its index, its command.
// A function by its name and no `From`: it is a public call with a row in `pinned`.
pub fn handle_row(h: PduResponseHandle) -> [u64; 4]
    ensures { result ≡ handle_values h }
{
    [
        h.start as u64,
        h.size as u64,
        u64::from(h.index),
        u64::from(h.command),
    ]
}

// State, command and lengths are within the bounds.
#[tactic(auto, unfolding(crate::specs::Frame::acceptable))]
fn is_acceptable(size: usize, b: Builder, command: u8, given: usize, over: usize) -> bool
    ensures { result ≡ acceptable size b command given over }
{
    is_sound(size, b) && command <= COMMAND_MOST && given <= DATA_MOST && over <= DATA_MOST
}

// How many of `given` bytes have room in an area of size bytes with `used` used.
fn rest_len(size: usize, used: usize, given: usize) -> usize
    requires { used ≤ size }
    ensures { result ≡ taken size used given }
{
    wire::lesser(given, (size - used).saturating_sub(PDU_OVERHEAD_BYTES))
}

// A PDU of len payload bytes behind the used ones, of which `bytes` are written; its last two bytes, the working counter, are not.
#[tactic(auto, using(crate::proofs::Laws::pdu_laid))]
fn append(
    area: &mut [u8],
    b: Builder,
    index: u8,
    command: u8,
    address: u32,
    len: usize,
    bytes: &[u8],
)
    requires { Roomy (length area.old) b len (length bytes.now) }
    ensures { area.new ≡ with_pdu area.old b index command address len bytes.now }
{
    let start = b.used;
    mark(area, b.count, b.last);
    let head = pdu::pack_header(command, index, address, len as u16);
    wire::lay(area, start, &head);
    wire::lay(area, start + HEADER_BYTES, bytes);
}

// More-follows, bit 15 of the flags, set in the last PDU, where there is one.
#[tactic(auto, using(wire::proofs::Laws::byte_in_lem), unfolding(crate::specs::Frame::marked, crate::specs::Frame::more))]
fn mark(area: &mut [u8], count: usize, last: usize)
    requires { 0 < count → last + more_at < length area.old }
    ensures { area.new ≡ marked area.old count last }
{
    if 0 < count {
        let at = last + MORE_AT;
        let f = area[at];
        area[at] = f % MORE_IN_BYTE + MORE_IN_BYTE;
    }
}

// The state after a PDU of len payload bytes.
fn grow(b: Builder, len: usize) -> Builder
    requires { Roomy area_most b len 0 }
    ensures { result ≡ grown b len }
{
    Builder {
        used: b.used + (len + PDU_OVERHEAD_BYTES),
        count: b.count + 1,
        last: b.used,
    }
}

// Its handle.
fn handle_of(b: Builder, len: usize, index: u8, command: u8) -> PduResponseHandle
    requires { Roomy area_most b len 0 }
    ensures { result ≡ record { start = b.used; size = len + pdu_overhead; index = index; command = command } }
{
    PduResponseHandle {
        start: b.used,
        size: len + PDU_OVERHEAD_BYTES,
        index,
        command,
    }
}

// A push that adds no PDU: the state is as it was.
fn without<T: Copy>(answer: Result<T, Refusal>, b: Builder, next: u8) -> Push<T>
    ensures { result ≡ record { answer = answer; builder = b; next = next } }
{
    Push {
        answer,
        builder: b,
        next,
    }
}
