// What a PDU and a frame are on the wire, and the packing of their headers: pdu_header.rs, pdu_flags.rs and frame_header.rs of the Rust.
// RULES, frames. The builder and the reader share the definitions in specs/ and the record of a PDU's fields.
#![tactic(auto)]

ghost use Rattle.std.specs.Prelude.{◌≡◌};
ghost use Rattle.pdu.specs.Pdu.{header_of};
ghost use Rattle.pdu.specs.Read.{length_of, pdus_end, rightly};
ghost use Rattle.pdu.specs.Answers.{said_header, header_bytes_of, header_said, header_left, pdu_values};

use refusal::Refusal;
use wire::word_at;

// The bytes of a PDU's header; of a PDU over its payload, which are its header and the working counter behind the payload; and of a frame's header.
pub const HEADER_BYTES: usize = 10;

pub const PDU_OVERHEAD_BYTES: usize = 12;

pub const FRAME_HEADER_BYTES: usize = 2;

// Where the fields of a PDU's header stand: the command first, then these.
pub const INDEX_AT: usize = 1;

pub const ADDRESS_AT: usize = 2;

pub const FLAGS_AT: usize = 6;

pub const IRQ_AT: usize = 8;

// What bits weigh: the first past a length's 11; the flags 'circulating' and 'more follow'; the first of a frame's type.
pub const LENGTH_PAST: u16 = 2048;

pub const CIRCULATED_BIT: u16 = 16384;

pub const MORE_BIT: u16 = 32768;

pub const TYPE_BIT: u16 = 4096;

// Where more-follows stands in a header's bytes, and what it weighs there.
pub const MORE_AT: usize = 7;

pub const MORE_IN_BYTE: u8 = 128;

// The largest area, and so the most bytes that a frame's PDUs take: what the 11 bits of a length hold.
pub const AREA_MOST: usize = 2047;

// So many PDUs lie in it at most.
pub const PDUS_MOST: usize = 170;

// A PDU's fields as they are read. Its payload lies at `place`, counted from the frame's first byte, for `len` bytes.
#[derive(Clone, Copy, Default)]
pub struct PduFields {
    // A number and no enum: the reader gives any that a frame holds.
    pub command: u8,
    pub index: u8,
    pub address: u32,
    pub len: u16,
    pub circulated: bool,
    pub more_follows: bool,
    pub irq: u16,
    pub place: usize,
    pub counter: u16,
}

// A PDU's ten header bytes: no flag is set and the IRQ field is 0. Of the length the 11 bits are taken that the header has for it.
pub fn pack_header(command: u8, index: u8, address: u32, len: u16) -> [u8; 10]
    ensures { result ≡ header_of command index address (length_of len) 0 }
{
    let n = len % LENGTH_PAST;
    let [a0, a1, a2, a3] = address.to_le_bytes();
    let [low, high] = n.to_le_bytes();
    [command, index, a0, a1, a2, a3, low, high, 0, 0]
}

// The header of a frame whose PDUs take this many bytes. More than 2,047 are refused with 14.
#[tactic(auto, using(refusal::proofs::Tests::tests), unfolding(crate::specs::Answers::header_said, crate::specs::Answers::header_left))]
pub fn frame_header(used: usize) -> Result<[u8; 2], Refusal>
    ensures { (said_header result ≡ header_said used) × (header_bytes_of result ≡ header_left used) }
{
    if used > AREA_MOST {
        return Err(Refusal::BadArgument);
    }
    Ok(((used as u16) + TYPE_BIT).to_le_bytes())
}

// A PDU's fields as a row of numbers, in the order of the record; a flag is 1 or 0. A function by its name and no `From`: it is a public call with a row in `pinned`.
pub fn pdu_row(p: PduFields) -> [u64; 9]
    ensures { result ≡ pdu_values p }
{
    [
        u64::from(p.command),
        u64::from(p.index),
        u64::from(p.address),
        u64::from(p.len),
        u64::from(p.circulated),
        u64::from(p.more_follows),
        u64::from(p.irq),
        p.place as u64,
        u64::from(p.counter),
    ]
}

// Where the PDUs of a frame end: its header is there, of type 1, and its length lies within the bytes. Of other bytes it is none.
#[tactic(auto, unfolding(crate::specs::Read::headed))]
pub fn pdus_end(s: &[u8]) -> Option<usize>
    ensures { result ≡ pdus_end s.now }
{
    if s.len() < FRAME_HEADER_BYTES {
        return None;
    }
    let w = word_at(s, 0);
    let end = usize::from(w % LENGTH_PAST) + FRAME_HEADER_BYTES;
    if w / TYPE_BIT != 1 {
        return None;
    }
    if s.len() < end {
        return None;
    }
    Some(end)
}

// The PDU at `at` with these flags ends rightly: at `end` if it is the last, before it if more follow.
#[tactic(auto, unfolding(crate::specs::Read::rightly))]
pub fn ends_rightly(at: usize, end: usize, flags: u16) -> bool
    ensures { result ≡ rightly at end flags }
{
    let n = PDU_OVERHEAD_BYTES + usize::from(flags % LENGTH_PAST);
    if end < at {
        return false;
    }
    if flags < MORE_BIT {
        n == end - at
    } else {
        n < end - at
    }
}
