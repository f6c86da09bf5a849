// The frame reader (RULES, reader): the PDUs of any bytes that are a frame, else refusal 12. The Rust has none.
// Two steps, header and body, each calling the other on what is left, find where the PDUs start; a loop then reads their fields.
#![tactic(auto)]

ghost use Rattle.std.specs.Prelude.{◌≡◌, ℕ, ◌+◌, ◌-◌, ◌*◌, ◌≤◌, ◌<◌, length};
ghost use Rattle.wire.specs.Bytes.{word_past};
ghost use Rattle.pdu.specs.Pdu.{area_most, header_bytes, pdu_overhead, frame_header_bytes, pdus_most};
ghost use Rattle.pdu.specs.Read.{good, body_at, places_at, frame_of, seen_at, read_of, pdus_of};
ghost use Rattle.frame_reader.specs.Answers.{said_frame, count_of, pdus_in, read_said, padded};
ghost use Rattle.frame_reader.specs.Walk.{walked_of, placed, listing};

use pdu::{
    ADDRESS_AT, CIRCULATED_BIT, FLAGS_AT, FRAME_HEADER_BYTES, HEADER_BYTES, INDEX_AT, IRQ_AT,
    LENGTH_PAST, MORE_BIT, PDU_OVERHEAD_BYTES, PDUS_MOST, PduFields, ends_rightly, pdus_end,
};
use refusal::Refusal;
use wire::{byte_at, long_at, word_at};

// The PDUs of a frame, in order; a place past the count holds zeros.
// The count stands beside an array because the memory is fixed, and because the promise says what every place holds.
// A struct of its own and not one generic with the lists of the SII: `pdus` here, and `items` there, are public names that callers read.
#[derive(Clone, Copy)]
pub struct FrameRead {
    pub count: usize,
    pub pdus: [PduFields; PDUS_MOST],
}

// The PDUs of a frame: each one's fields and its payload's place, in order. Bytes that are no frame are 12.
pub fn read_frame(s: &[u8]) -> Result<FrameRead, Refusal>
    ensures answer { said_frame result ≡ read_said (read_of s.now) }
    ensures count { count_of result ≡ length (pdus_of (read_of s.now)) }
    ensures pdus { pdus_in result ≡ padded (pdus_of (read_of s.now)) }
{
    let mut places = [0; PDUS_MOST];
    let count = find_pdus(s, &mut places).ok_or(Refusal::BadFrame)?;
    Ok(listed(s, &places[..count]))
}

// How many PDUs the frame has; each one's start goes into `out`.
#[tactic(auto, unfolding(pdu::specs::Read::frame_of, crate::specs::Walk::walked_of, crate::specs::Walk::placed, crate::specs::Walk::stored))]
fn find_pdus(s: &[u8], out: &mut [u16; PDUS_MOST]) -> Option<usize>
    ensures { (result ≡ walked_of 0 (frame_of s.now)) × (out.new ≡ placed 0 (frame_of s.now) out.old) }
{
    let end = pdus_end(s)?;
    if end == FRAME_HEADER_BYTES {
        return Some(0);
    }
    header(s, FRAME_HEADER_BYTES, end, 0, out)
}

// The PDUs from `at` to `end`, the k-th first: each one's start goes into `out`, unless there is a fault behind it.
#[cycle(body_header)]
fn header(s: &[u8], at: usize, end: usize, k: usize, out: &mut [u16; PDUS_MOST]) -> Option<usize>
    requires { (at ≤ end) × (end ≤ area_most + frame_header_bytes) × (pdu_overhead * k + frame_header_bytes ≤ at) }
    ensures { (f : ℕ) → end - at ≤ f → (result ≡ walked_of k (places_at f s.now at end)) × (out.new ≡ placed k (places_at f s.now at end) out.old) }
{
    if end - at < PDU_OVERHEAD_BYTES {
        return None;
    }
    let flags = word_at(s, at + FLAGS_AT);
    body(s, at, end, k, flags, out)
}

// .. where the PDU at `from` has these flags.
#[cycle(body_header)]
fn body(
    s: &[u8],
    from: usize,
    end: usize,
    k: usize,
    flags: u16,
    out: &mut [u16; PDUS_MOST],
) -> Option<usize>
    requires { (from + pdu_overhead ≤ end) × (end ≤ area_most + frame_header_bytes) × (pdu_overhead * k + frame_header_bytes ≤ from) }
    ensures { (f : ℕ) → end - (from + header_bytes) ≤ f → (result ≡ walked_of k (body_at (λ next. places_at f s.now next end) from end flags)) × (out.new ≡ placed k (body_at (λ next. places_at f s.now next end) from end flags) out.old) }
{
    let next = from + (PDU_OVERHEAD_BYTES + usize::from(flags % LENGTH_PAST));
    if !ends_rightly(from, end, flags) {
        return None;
    }
    let count = if next == end {
        k + 1
    } else {
        header(s, next, end, k + 1, out)?
    };
    out[k] = from as u16;
    Some(count)
}

// The fields of the PDU whose header starts at `at`.
#[tactic(auto, unfolding(pdu::specs::Read::seen_at))]
fn pdu_at(s: &[u8], at: usize) -> PduFields
    requires { at < word_past }
    ensures { result ≡ seen_at s.now at }
{
    let flags = word_at(s, at + FLAGS_AT);
    let n = flags % LENGTH_PAST;
    PduFields {
        command: byte_at(s, at),
        index: byte_at(s, at + INDEX_AT),
        address: long_at(s, at + ADDRESS_AT),
        len: n,
        circulated: flags / CIRCULATED_BIT % 2 == 1,
        more_follows: MORE_BIT <= flags,
        irq: word_at(s, at + IRQ_AT),
        place: at + HEADER_BYTES,
        counter: word_at(s, at + (HEADER_BYTES + usize::from(n))),
    }
}

// The PDUs whose headers start at these places.
fn listed(s: &[u8], places: &[u16]) -> FrameRead
    requires { length places.now ≤ pdus_most }
    ensures { Ok result ≡ listing s.now (good places.now) }
{
    let mut pdus = [PduFields::default(); PDUS_MOST];
    for (k, place) in places.iter().enumerate() {
        pdus[k] = pdu_at(s, usize::from(*place));
    }
    FrameRead {
        count: places.len(),
        pdus,
    }
}
