// A process image spread over a row of areas of one size: one logical PDU for each area that has room (RULES, spreading).
// The Rust leaves this to its callers. The rule is specs/Row.antt, and the contract `Promised` says that the call follows it; what that comes to is one statement, specs/Demand.antt.
#![tactic(auto)]

ghost use Rattle.std.specs.Prelude.{Ok, Err, ◌≡◌, ◌≤◌, [], length, take};
ghost use Rattle.pdu.specs.Pdu.{area_most};
ghost use Rattle.created_frame.specs.Answers.{said_rest};
ghost use Rattle.spread.specs.Answers.{first_of, Promised};
ghost use Rattle.spread.specs.Row.{areas_most, row_from, lawful, room_in, padded, begun_state, begun_area, Fillable};

use created_frame::{Builder, PDU_OVERHEAD_BYTES, PduResponseHandle};
use pdu::AREA_MOST;
use refusal::Refusal;

const AREAS_MOST: usize = 32;

const IMAGE_MOST: usize = 65535;

// LRD, LWR, LRW: numbers and no enum, since the call takes any and refuses the others with 14.
const COMMAND_LEAST: u8 = 10;

const COMMAND_LAST: u8 = 12;

const ADDRESS_END: usize = 4294967296;

// Its answer, the builder's state of each area up to the last, and the index of the next PDU. The answer is the last area's number, or the refusal.
// States and index stand beside it and not in its Ok, since the contract `Promised` and the theorem Demand3 speak of both where the call is refused.
#[derive(Clone, Copy)]
pub struct Spreading {
    pub answer: Result<usize, Refusal>,
    // A row of fixed length, as there is no heap: the answer says how many are areas', and the places behind hold the state of an empty area.
    pub states: [Builder; AREAS_MOST],
    pub next: u8,
}

// The image goes over the areas of the row, each of `size` bytes, as logical PDUs of this command from this address on.
// The first area has the state `first`; the others are opened before they are used. What is out of bounds is refused with 14,
// addresses that pass the last with 1, and an image that the areas have no room for with 13.
// Its parameters stand side by side and in no struct: the C interface and the contract `Promised` take them one by one.
#[tactic(auto, using(crate::proofs::Laws::law, crate::proofs::Laws::fillable), unfolding(crate::specs::Row::spread_of))]
pub fn spread(
    areas: &mut [u8],
    size: usize,
    first: Builder,
    index: u8,
    command: u8,
    address: u32,
    image: &[u8],
) -> Spreading
    ensures { Promised areas.old size first index command address image.now result areas.new }
{
    let given = image.len();
    if !is_lawful(areas.len(), size, first, command, given) {
        return refused(Refusal::BadArgument, index);
    }
    if given + (address as usize) > ADDRESS_END {
        return refused(Refusal::Address, index);
    }
    let count = areas.len() / size;
    if given > room_for(count, size, first.used) {
        return refused(Refusal::NoRoom, index);
    }
    carry(areas, size, count, first, index, command, address, image)
}

// Size, row, image, command and state are within the bounds: what is not is refused as 14.
#[tactic(auto, unfolding(crate::specs::Row::lawful))]
fn is_lawful(total: usize, size: usize, first: Builder, command: u8, given: usize) -> bool
    ensures { result ≡ lawful total size first command given }
{
    if size < 1 || size > AREA_MOST {
        return false;
    }
    let count = total / size;
    total % size == 0
        && 1 <= count
        && count <= AREAS_MOST
        && given <= IMAGE_MOST
        && COMMAND_LEAST <= command
        && command <= COMMAND_LAST
        && created_frame::is_sound(size, first)
}

// How many bytes of an image the areas have room for.
#[tactic(auto, using(crate::proofs::Going::room_sum))]
fn room_for(count: usize, size: usize, used: usize) -> usize
    requires { (1 ≤ count) × (count ≤ areas_most) × (size ≤ area_most) }
    ensures { result ≡ room_in count size used }
{
    let later = size.saturating_sub(PDU_OVERHEAD_BYTES);
    size.saturating_sub(used).saturating_sub(PDU_OVERHEAD_BYTES) + (count - 1) * later
}

// The states of no areas.
#[tactic(auto, using(created_frame::proofs::Blank::builder_blank), unfolding(crate::specs::Row::padded))]
fn no_states() -> [Builder; AREAS_MOST]
    ensures { result ≡ padded [] }
{
    [Builder::default(); AREAS_MOST]
}

fn refused(why: Refusal, index: u8) -> Spreading
    ensures { result ≡ record { answer = Err why; states = padded []; next = index } }
{
    Spreading {
        answer: Err(why),
        states: no_states(),
        next: index,
    }
}

// How many bytes a push took.
fn taken_of(r: Result<Option<(usize, PduResponseHandle)>, Refusal>) -> usize
    ensures { result ≡ first_of (said_rest r) }
{
    match r {
        Ok(Some((taken, _))) => taken,
        Ok(None) | Err(_) => 0,
    }
}

// The state that area k begins with: the first has one, and the others are opened.
#[tactic(auto, using(crate::proofs::Parts::opened_ok), unfolding(crate::specs::Row::zeroed, created_frame::specs::Frame::after_open))]
fn begun(area: &mut [u8], k: usize, first: Builder) -> Builder
    requires { length area.old ≤ area_most }
    ensures state { result ≡ begun_state k first }
    ensures whole { area.new ≡ begun_area k area.old }
{
    if k == 0 {
        first
    } else {
        created_frame::open(area).unwrap()
    }
}

// The image goes into the areas, which have room for it. The parameters are those of `spread`, one by one as there, and the areas' number.
fn carry(
    areas: &mut [u8],
    size: usize,
    count: usize,
    first: Builder,
    index: u8,
    command: u8,
    address: u32,
    image: &[u8],
) -> Spreading
    requires { Fillable (length areas.old) size count first command address (length image.now) }
    ensures answer { result.answer ≡ Ok (length (row_from size command address count (take size areas.old) first index 0 areas.old image.now).states) }
    ensures state { (result.states ≡ padded (row_from size command address count (take size areas.old) first index 0 areas.old image.now).states)
        × (result.next ≡ (row_from size command address count (take size areas.old) first index 0 areas.old image.now).next) }
    ensures whole { areas.new ≡ (row_from size command address count (take size areas.old) first index 0 areas.old image.now).areas }
{
    let mut states = no_states();
    let mut k: usize = 0;
    let mut sent: usize = 0;
    let mut next = index;
    // A `while` and no `for`: each push takes as many bytes as have room, and how many areas that makes is the answer. No `chunks_mut` either:
    // once its borrow is over, a proof knows a slice's length and not its bytes.
    while sent < image.len() {
        let at = k * size;
        let area = &mut areas[at..at + size];
        let b = begun(area, k, first);
        let a = address + sent as u32;
        let p = created_frame::push_pdu_slice_rest(area, b, next, command, a, &image[sent..]);
        states[k] = p.builder;
        k += 1;
        sent += taken_of(p.answer);
        next = p.next;
    }
    Spreading {
        answer: Ok(k),
        states,
        next,
    }
}
