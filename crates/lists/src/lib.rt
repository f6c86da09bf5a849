// The lists of the SII: sync managers, FMMUs and PDOs, the records of a category one behind the other, in a counted array.
// Follows subdevice/eeprom.rs and eeprom/types.rs; RULES, lists. specs/Layout.antt says where each field lies.
#![tactic(auto)]

mod layout;

ghost use Rattle.std.specs.Prelude.{MatchOption, IfOk, Ok, List, ℕ, ◌≡◌, ◌+◌, ◌^◌, ◌≤◌, ◌<◌, min, length};
ghost use Rattle.refusal.specs.Said.{said, number_value};
ghost use Rattle.wire.specs.Bytes.{overlay};
ghost use Rattle.category.specs.Numbers.{tx_pdo, rx_pdo};
ghost use Rattle.category.specs.Category.{category_said};
ghost use Rattle.category.specs.Answers.{said_found};
ghost use Rattle.sii.specs.General.{listed};
ghost use Rattle.lists.specs.Records.{Item, records, in_category, read_answer, count_said, laid_records, laid_in, back};
ghost use Rattle.lists.specs.SyncManagers.{mode_of, recovered, usage_type_of, sm_of, sm_values, sm_zero, sm_most, sm_at, sms_of};
ghost use Rattle.lists.specs.Fmmus.{fmmu_most, usage_admits, usage_at, usages_of, ex_at, ex_of};
ghost use Rattle.lists.specs.Pdos.{entries_of, entry_at, sum_to, entry_bits, pdo_of, pdo_values, pdo_zero, pdo_most, pdo_at, pdos_of};
ghost use Rattle.lists.specs.Answers.{back_sms, back_pdos, back_fmmus};

use crate::layout::{
    BIT_LENGTH, CONTROL_REGISTER, DIRECTION_LAST, DLS_USER_EVENT, ECAT_EVENT, ENABLE_BELOW,
    ENABLE_SYNC_M, ENTRY_BYTES, EX_BYTES, EX_SYNC_M, FMMU_BYTES, FMMU_MOST, FMMU_UNUSED,
    FMMU_USAGE_LAST, MAILBOX_MODE, MAILBOX_READ, MAILBOX_WRITE, N_ENTRY, PDO_BYTES, PDO_MOST,
    PDO_SYNC_M, PROCESS_DATA_READ, PROCESS_DATA_WRITE, SM_BYTES, SM_LENGTH, SM_MOST, SYNC_M_TYPE,
    SYNC_M_TYPE_LAST, WATCHDOG,
};
use category::{FMMU, FMMU_EXTENDED, RX_PDO, SYNC_MANAGER, TX_PDO, category};
use eeprom::{Chunk, Pos, Range, byte_of, word_of};
use refusal::Refusal;

// A sync manager. Its mode, direction and usage stay numbers, those of the Rust: `usage_type` and `sync_manager_row` take any, and an enum would ask more of their callers.
#[derive(Clone, Copy, Default)]
pub struct SyncManager {
    pub start_addr: u16,
    pub length_bytes: u16,
    pub operation_mode: u8,
    pub direction: u8,
    pub ecat_event_enable: bool,
    pub dls_user_event_enable: bool,
    pub watchdog_enable: bool,
    pub enable: u8,
    pub usage_type: u8,
}

// At most 8; a place from the count on is all zero.
// Here and in the lists below a count stands beside an array: memory is fixed, and `back` says what every place holds.
#[derive(Clone, Copy)]
pub struct SyncManagers {
    pub count: usize,
    pub items: [SyncManager; SM_MOST],
}

// The usage of each FMMU, or the sync manager of each extended one: at most 16; a place from the count on is 0.
#[derive(Clone, Copy)]
pub struct FmmuList {
    pub count: usize,
    pub items: [u8; FMMU_MOST],
}

// A PDO; its bit length is the sum of its entries'.
#[derive(Clone, Copy, Default)]
pub struct Pdo {
    pub index: u16,
    pub num_entries: u8,
    pub sync_manager: u8,
    pub bit_len: u16,
}

// At most 64; a place from the count on is all zero.
#[derive(Clone, Copy)]
pub struct PdoList {
    pub count: usize,
    pub items: [Pdo; PDO_MOST],
}

// ---- a list of records of any kind

// A kind of record, and what a list gives of one.
pub trait Record {
    type Value: Copy;

    // What stands in an image, in a category that ends somewhere, at a position.
    ghost item_at: { List ℕ → ℕ → ℕ → Item Self.Value };

    // The record at the front of the rest of a category, and the rest behind it; None if no whole one stands there. Refuses 5, where its type doesn't admit it.
    fn read(
        image: &[u8],
        chunk: Chunk,
        rest: Range,
    ) -> Result<Option<(Self::Value, Range)>, Refusal>
        ensures { result ≡ read_answer rest.end (item_at image.now rest.end rest.byte_pos) };
}

// The rest behind so many bytes, if they lie before its end.
pub fn rest_behind(rest: Range, bytes: Pos) -> Option<Range>
    ensures { MatchOption result (rest.end < rest.byte_pos + bytes) (λ g. (rest.byte_pos + bytes ≤ rest.end) × (g ≡ record { byte_pos = rest.byte_pos + bytes; end = rest.end })) }
{
    let byte_pos = rest.byte_pos.checked_add(bytes)?;
    if byte_pos <= rest.end {
        Some(Range { byte_pos, ..rest })
    } else {
        None
    }
}

// Reads the records of the category of this number into the places, from the first on, and answers how many there are: none where there is no category.
// Refuses what the search for it does; then 5, and 6 if one more record stands there than there are places.
// The places are lent: the caller says how many there are, and what an unused one holds. A refusal with 5 or 6 leaves the records before the fault in them.
pub fn read_records<R: Record>(
    image: &[u8],
    chunk: Chunk,
    number: u16,
    places: &mut [R::Value],
) -> Result<usize, Refusal>
    ensures said { said number_value result ≡ count_said (in_category (category_said image.now number) (λ p end. records (R.item_at image.now end) (length places.old) p)) }
    ensures lent { places.new ≡ overlay places.old 0 (laid_in (category_said image.now number) (λ p end. laid_records (R.item_at image.now end) (length places.old) p)) }
{
    let found = category(image, chunk, number)?;
    read_found::<R>(image, chunk, found, places)
}

// .. over the blank places of an array, which goes in and comes back by value: nothing is lent, so a refusal leaves nothing behind.
pub fn read_array<R: Record, const N: usize>(
    image: &[u8],
    chunk: Chunk,
    number: u16,
    blank: [R::Value; N],
) -> Result<(usize, [R::Value; N]), Refusal>
    ensures said { said (λ r. number_value r.0) result ≡ count_said (in_category (category_said image.now number) (λ p end. records (R.item_at image.now end) N p)) }
    ensures laid { IfOk result (λ r. r.1 ≡ overlay blank 0 (laid_in (category_said image.now number) (λ p end. laid_records (R.item_at image.now end) N p))) }
{
    let found = category(image, chunk, number)?;
    let mut places = blank;
    let count = read_found::<R>(image, chunk, found, &mut places)?;
    Ok((count, places))
}

// .. of the category that was found.
#[tactic(auto, using(crate::proofs::Laws::nothing), unfolding(crate::specs::Records::in_category, crate::specs::Records::laid_in))]
fn read_found<R: Record>(
    image: &[u8],
    chunk: Chunk,
    found: Option<Range>,
    places: &mut [R::Value],
) -> Result<usize, Refusal>
    ensures said { said number_value result ≡ count_said (in_category (said_found (Ok found)) (λ p end. records (R.item_at image.now end) (length places.old) p)) }
    ensures lent { places.new ≡ overlay places.old 0 (laid_in (said_found (Ok found)) (λ p end. laid_records (R.item_at image.now end) (length places.old) p)) }
{
    match found {
        Some(list) => read_all::<R>(image, chunk, list, places),
        None => Ok(0),
    }
}

// .. of a category that stands there.
fn read_all<R: Record>(
    image: &[u8],
    chunk: Chunk,
    list: Range,
    places: &mut [R::Value],
) -> Result<usize, Refusal>
    ensures said { said number_value result ≡ count_said (records (R.item_at image.now list.end) (length places.old) list.byte_pos) }
    ensures lent { places.new ≡ overlay places.old 0 (laid_records (R.item_at image.now list.end) (length places.old) list.byte_pos) }
{
    let mut rest = list;
    for (count, place) in places.iter_mut().enumerate() {
        let Some(record) = R::read(image, chunk, rest)? else {
            return Ok(count);
        };
        (*place, rest) = record;
    }
    match R::read(image, chunk, rest)? {
        Some(_) => Err(Refusal::Capacity),
        None => Ok(places.len()),
    }
}

// ---- sync managers

// The sync managers.
pub fn sync_managers(image: &[u8], chunk: Chunk) -> Result<SyncManagers, Refusal>
    ensures { back_sms result ≡ back sm_zero sm_most (sms_of image.now) }
{
    let blank = [SyncManager::default(); SM_MOST];
    let (count, items) = read_array::<SyncManager, _>(image, chunk, SYNC_MANAGER, blank)?;
    Ok(SyncManagers { count, items })
}

impl Record for SyncManager {
    type Value = SyncManager;

    ghost item_at = { sm_at };

    #[tactic(auto, unfolding(crate::specs::SyncManagers::sm_at))]
    fn read(
        image: &[u8],
        chunk: Chunk,
        rest: Range,
    ) -> Result<Option<(SyncManager, Range)>, Refusal> {
        let Some(behind) = rest_behind(rest, SM_BYTES) else {
            return Ok(None);
        };
        let sm = sm_at(image, chunk, rest.byte_pos);
        if sm.enable < ENABLE_BELOW {
            Ok(Some((sm, behind)))
        } else {
            Err(Refusal::Decode)
        }
    }
}

#[tactic(auto, unfolding(crate::specs::SyncManagers::sm_of))]
fn sm_at(image: &[u8], chunk: Chunk, at: Pos) -> SyncManager
    requires { at + SYNC_M_TYPE < 2 ^ 32 }
    ensures { result ≡ sm_of image.now at }
{
    let start_addr = word_of(image, chunk, at);
    let length_bytes = word_of(image, chunk, at + SM_LENGTH);
    let control = byte_of(image, chunk, at + CONTROL_REGISTER);
    let enable = byte_of(image, chunk, at + ENABLE_SYNC_M);
    let usage = byte_of(image, chunk, at + SYNC_M_TYPE);
    SyncManager {
        start_addr,
        length_bytes,
        operation_mode: mode(control),
        direction: or_default(control / 4 % 4, DIRECTION_LAST),
        ecat_event_enable: control / ECAT_EVENT % 2 == 1,
        dls_user_event_enable: control / DLS_USER_EVENT % 2 == 1,
        watchdog_enable: control / WATCHDOG % 2 == 1,
        enable,
        usage_type: or_default(usage, SYNC_M_TYPE_LAST),
    }
}

#[tactic(auto, unfolding(crate::specs::SyncManagers::mode_of))]
fn mode(control: u8) -> u8
    ensures { result ≡ mode_of control }
{
    if control % 4 == MAILBOX_MODE {
        MAILBOX_MODE
    } else {
        0
    }
}

// The usage of a sync manager, as the Rust recovers it where none is given: from its mode and direction.
#[tactic(auto, unfolding(crate::specs::SyncManagers::usage_type_of))]
pub fn usage_type(sm: SyncManager) -> u8
    ensures { result ≡ usage_type_of sm }
{
    if sm.usage_type == 0 {
        recovered(sm.operation_mode, sm.direction)
    } else {
        sm.usage_type
    }
}

#[tactic(auto, unfolding(crate::specs::SyncManagers::recovered))]
fn recovered(mode: u8, direction: u8) -> u8
    ensures { result ≡ recovered mode direction }
{
    match (mode == MAILBOX_MODE, direction == 0) {
        (true, true) => MAILBOX_READ,
        (true, false) => MAILBOX_WRITE,
        (false, true) => PROCESS_DATA_READ,
        (false, false) => PROCESS_DATA_WRITE,
    }
}

// A value of an enum whose listed ones are 0 to the last; one not listed is the default, 0.
// Not shared with sii's `port_status`, which promises `listed` too: that one takes a u16 and gives a u8, and this one goes from u8 to u8.
#[tactic(auto, unfolding(sii::specs::General::listed))]
fn or_default(n: u8, last: u8) -> u8
    ensures { result ≡ listed last n }
{
    if n <= last { n } else { 0 }
}

// ---- FMMUs

// The usage of an FMMU: a byte.
struct FmmuUsage;

// The sync manager of an extended FMMU.
struct ExtendedFmmu;

// The usage of each FMMU, from the category's first 16 bytes.
pub fn fmmus(image: &[u8], chunk: Chunk) -> Result<FmmuList, Refusal>
    ensures { back_fmmus result ≡ back 0 fmmu_most (usages_of image.now) }
{
    let found = category(image, chunk, FMMU)?.map(usage_bytes);
    let mut items = [0; FMMU_MOST];
    let count = read_found::<FmmuUsage>(image, chunk, found, &mut items)?;
    Ok(FmmuList { count, items })
}

// The sync manager of each extended FMMU.
pub fn fmmu_mappings(image: &[u8], chunk: Chunk) -> Result<FmmuList, Refusal>
    ensures { back_fmmus result ≡ back 0 fmmu_most (ex_of image.now) }
{
    let blank = [0; FMMU_MOST];
    let (count, items) = read_array::<ExtendedFmmu, _>(image, chunk, FMMU_EXTENDED, blank)?;
    Ok(FmmuList { count, items })
}

// The bytes of a category that are looked at for usages: its first 16.
fn usage_bytes(g: Range) -> Range
    ensures { result ≡ record { byte_pos = g.byte_pos; end = min g.end (g.byte_pos + fmmu_most) } }
{
    Range {
        end: g.end.min(g.byte_pos.saturating_add(FMMU_MOST as Pos)),
        ..g
    }
}

impl Record for FmmuUsage {
    type Value = u8;

    ghost item_at = { usage_at };

    #[tactic(auto, unfolding(crate::specs::Fmmus::usage_at))]
    fn read(image: &[u8], chunk: Chunk, rest: Range) -> Result<Option<(u8, Range)>, Refusal> {
        let Some(behind) = rest_behind(rest, FMMU_BYTES) else {
            return Ok(None);
        };
        let usage = byte_of(image, chunk, rest.byte_pos);
        if usage_admitted(usage) {
            Ok(Some((or_default(usage, FMMU_USAGE_LAST), behind)))
        } else {
            Err(Refusal::Decode)
        }
    }
}

#[tactic(auto, unfolding(crate::specs::Fmmus::usage_admits))]
fn usage_admitted(usage: u8) -> bool
    ensures { result ≡ usage_admits usage }
{
    usage <= FMMU_USAGE_LAST || usage == FMMU_UNUSED
}

impl Record for ExtendedFmmu {
    type Value = u8;

    ghost item_at = { ex_at };

    #[tactic(auto, unfolding(crate::specs::Fmmus::ex_at))]
    fn read(image: &[u8], chunk: Chunk, rest: Range) -> Result<Option<(u8, Range)>, Refusal> {
        let Some(behind) = rest_behind(rest, EX_BYTES) else {
            return Ok(None);
        };
        let sync_manager = byte_of(image, chunk, rest.byte_pos + EX_SYNC_M);
        Ok(Some((sync_manager, behind)))
    }
}

// ---- PDOs

// The PDOs that the MainDevice reads: TxPDO.
pub fn maindevice_read_pdos(image: &[u8], chunk: Chunk) -> Result<PdoList, Refusal>
    ensures { back_pdos result ≡ back pdo_zero pdo_most (pdos_of image.now tx_pdo) }
{
    pdos(image, chunk, TX_PDO)
}

// The PDOs that the MainDevice writes: RxPDO.
pub fn maindevice_write_pdos(image: &[u8], chunk: Chunk) -> Result<PdoList, Refusal>
    ensures { back_pdos result ≡ back pdo_zero pdo_most (pdos_of image.now rx_pdo) }
{
    pdos(image, chunk, RX_PDO)
}

fn pdos(image: &[u8], chunk: Chunk, number: u16) -> Result<PdoList, Refusal>
    ensures { back_pdos result ≡ back pdo_zero pdo_most (pdos_of image.now number) }
{
    let blank = [Pdo::default(); PDO_MOST];
    let (count, items) = read_array::<Pdo, _>(image, chunk, number, blank)?;
    Ok(PdoList { count, items })
}

impl Record for Pdo {
    type Value = Pdo;

    ghost item_at = { pdo_at };

    #[tactic(auto, unfolding(crate::specs::Pdos::pdo_at))]
    fn read(image: &[u8], chunk: Chunk, rest: Range) -> Result<Option<(Pdo, Range)>, Refusal> {
        let Some(body) = rest_behind(rest, PDO_BYTES) else {
            return Ok(None);
        };
        let n = entries(image, chunk, rest.byte_pos);
        let behind = rest_behind(body, ENTRY_BYTES * Pos::from(n)).ok_or(Refusal::Decode)?;
        Ok(Some((pdo_at(image, chunk, rest.byte_pos, n), behind)))
    }
}

#[tactic(auto, unfolding(crate::specs::Pdos::entries_of))]
fn entries(image: &[u8], chunk: Chunk, at: Pos) -> u8
    requires { at + PDO_BYTES < 2 ^ 32 }
    ensures { result ≡ entries_of image.now at }
{
    byte_of(image, chunk, at + N_ENTRY)
}

#[tactic(auto, unfolding(crate::specs::Pdos::pdo_of))]
fn pdo_at(image: &[u8], chunk: Chunk, at: Pos, n: u8) -> Pdo
    requires { (entry_at at n < 2 ^ 32) × (n ≡ entries_of image.now at) }
    ensures { result ≡ pdo_of image.now at }
{
    Pdo {
        index: word_of(image, chunk, at),
        num_entries: n,
        sync_manager: byte_of(image, chunk, at + PDO_SYNC_M),
        bit_len: bits(image, chunk, at, n),
    }
}

// The sum of the bit lengths of the first n entries of the PDO at a position.
#[tactic(auto, using(crate::proofs::Reading::sums))]
fn bits(image: &[u8], chunk: Chunk, at: Pos, n: u8) -> u16
    requires { entry_at at n < 2 ^ 32 }
    ensures { result ≡ sum_to (entry_bits image.now at) n }
{
    let mut sum = 0;
    for k in 0..n {
        sum += u16::from(entry_bits(image, chunk, at, k));
    }
    sum
}

#[tactic(auto, unfolding(crate::specs::Pdos::entry_bits))]
fn entry_bits(image: &[u8], chunk: Chunk, at: Pos, k: u8) -> u8
    requires { entry_at at (k + 1) < 2 ^ 32 }
    ensures { result ≡ entry_bits image.now at k }
{
    byte_of(
        image,
        chunk,
        at + PDO_BYTES + ENTRY_BYTES * Pos::from(k) + BIT_LENGTH,
    )
}

// ---- each record as the numbers that a list gives of it, in their order: functions by their names and no `From`, since each is a public call with a row in `pinned`

pub fn sync_manager_row(s: SyncManager) -> [u64; 9]
    ensures { result ≡ sm_values s }
{
    [
        u64::from(s.start_addr),
        u64::from(s.length_bytes),
        u64::from(s.operation_mode),
        u64::from(s.direction),
        u64::from(s.ecat_event_enable),
        u64::from(s.dls_user_event_enable),
        u64::from(s.watchdog_enable),
        u64::from(s.enable),
        u64::from(s.usage_type),
    ]
}

pub fn pdo_row(p: Pdo) -> [u64; 4]
    ensures { result ≡ pdo_values p }
{
    [
        u64::from(p.index),
        u64::from(p.num_entries),
        u64::from(p.sync_manager),
        u64::from(p.bit_len),
    ]
}
