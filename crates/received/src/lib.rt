// What came back (RULES, received): a returned frame is matched with the handles that pushing gave. It follows received_frame.rs of the Rust.
// The place decides: the k-th handle is the k-th PDU's, whatever their indices are.
#![tactic(auto)]

ghost use Rattle.std.specs.Prelude.{◌≡◌, ◌+◌, ◌≤◌, ◌<◌, [], ◌∷◌, map};
ghost use Rattle.wire.specs.Bytes.{word_past};
ghost use Rattle.pdu.specs.Pdu.{area_most, frame_header_bytes};
ghost use Rattle.pdu.specs.Read.{seen_at};
ghost use Rattle.received.specs.Matching.{handle_of, came_back, judged, matched_at, received_of};
ghost use Rattle.received.specs.Answers.{told};

use pdu::{
    FLAGS_AT, FRAME_HEADER_BYTES, HEADER_BYTES, INDEX_AT, LENGTH_PAST, PDU_OVERHEAD_BYTES,
    PDUS_MOST, ends_rightly, pdus_end,
};
use refusal::Refusal;
use wire::{byte_at, word_at};

// The numbers of a handle in a row: where the PDU starts in its area, its whole size, its index, its command.
const HANDLE_NUMBERS: usize = 4;

// What came back of a PDU: its payload lies at `place`, counted from the frame's first byte, for `len` bytes, and its working counter is this.
#[derive(Clone, Copy, Default)]
pub struct ReceivedPdu {
    pub place: usize,
    pub len: u16,
    pub counter: u16,
}

// The PDUs that came back, in order; a place past the count holds zeros.
// The count stands beside an array because the memory is fixed, and because the promise says what every place holds.
#[derive(Clone, Copy)]
pub struct Received {
    pub count: usize,
    pub pdus: [ReceivedPdu; PDUS_MOST],
}

// The payload and the working counter of each PDU of a frame that came back. The handles are those that pushing gave, in order, four numbers each.
// They are a row of numbers and no structs, since a rule speaks of numbers that are no row of handles: those are 14.
// Else 19, 20, 21 or 22 is the first fault in the frame's order.
pub fn receive(handles: &[u64], frame: &[u8]) -> Result<Received, Refusal>
    ensures { result ≡ told (received_of handles.now frame.now) }
{
    let (handles, over) = handles.as_chunks();
    if !over.is_empty() {
        return Err(Refusal::BadArgument);
    }
    let end = pdus_end(frame).ok_or(Refusal::WrongFrame { place: 0 })?;
    match_all(handles, frame, end)
}

// The PDUs from the frame's header to `end`, each against its handle. A handle more than there are PDUs is judged at the end, where none ends rightly.
fn match_all(handles: &[[u64; HANDLE_NUMBERS]], s: &[u8], end: usize) -> Result<Received, Refusal>
    requires { (frame_header_bytes ≤ end) × (end ≤ area_most + frame_header_bytes) }
    ensures { result ≡ told (matched_at (map handle_of handles.now) s.now frame_header_bytes end 0) }
{
    let mut pdus = [ReceivedPdu::default(); PDUS_MOST];
    let mut at = FRAME_HEADER_BYTES;
    for (k, handle) in handles.iter().enumerate() {
        judge(*handle, s, at, end, k as u16)?;
        let pdu = came_back(s, at);
        pdus[k] = pdu;
        at += PDU_OVERHEAD_BYTES + usize::from(pdu.len);
    }
    let count = handles.len();
    if at < end {
        return Err(Refusal::WrongFrame {
            place: count as u16,
        });
    }
    Ok(Received { count, pdus })
}

// The PDU at `at` against its handle: that it ends rightly comes first, then command, index and length. A handle's start isn't compared.
#[tactic(auto, unfolding(crate::specs::Matching::judged, crate::specs::Matching::compared, pdu::specs::Read::seen_at))]
fn judge(
    handle: [u64; HANDLE_NUMBERS],
    s: &[u8],
    at: usize,
    end: usize,
    place: u16,
) -> Result<(), Refusal>
    requires { at < word_past }
    ensures { result ≡ judged (handle_of handle ∷ []) s.now at end place }
{
    let [_, size, index, command] = handle;
    let flags = word_at(s, at + FLAGS_AT);
    if !ends_rightly(at, end, flags) {
        return Err(Refusal::WrongFrame { place });
    }
    if u64::from(byte_at(s, at)) != command {
        return Err(Refusal::WrongCommand { place });
    }
    if u64::from(byte_at(s, at + INDEX_AT)) != index {
        return Err(Refusal::WrongIndex { place });
    }
    if u64::from(flags % LENGTH_PAST) + (PDU_OVERHEAD_BYTES as u64) != size {
        return Err(Refusal::WrongLength { place });
    }
    Ok(())
}

// What came back of the PDU whose header starts at `at`. Not shared with the reader's `pdu_at`: that reads all nine fields of a PDU, and three are wanted here.
#[tactic(auto, unfolding(pdu::specs::Read::seen_at))]
fn came_back(s: &[u8], at: usize) -> ReceivedPdu
    requires { at < word_past }
    ensures { result ≡ came_back (seen_at s.now at) }
{
    let n = word_at(s, at + FLAGS_AT) % LENGTH_PAST;
    ReceivedPdu {
        place: at + HEADER_BYTES,
        len: n,
        counter: word_at(s, at + (HEADER_BYTES + usize::from(n))),
    }
}
