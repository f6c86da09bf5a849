// The distributed clock's modes that the SII lists, its category DC, which ethercrab names and does not read.
// Follows ETG2010, category DC, and RULES, lists. specs/Layout.antt says where each field lies.
#![tactic(auto)]

#[cfg(test)]
mod tests;

ghost use Rattle.std.specs.Prelude.{◌≡◌, ◌+◌, ◌^◌, ◌<◌};
ghost use Rattle.lists.specs.Records.{back};
ghost use Rattle.clock.specs.Clocks.{clock_of, clock_values, clock_zero, clock_most, clock_at, clocks_of};
ghost use Rattle.clock.specs.Answers.{back_clocks};

use category::DISTRIBUTED_CLOCK;
use eeprom::{Chunk, Pos, Range, byte_of, long_of, word_of};
use lists::{Record, read_array, rest_behind};
use refusal::Refusal;

// The most that are listed.
const CLOCK_MOST: usize = 8;

// Where the fields of a record lie, in bytes: specs/Layout.antt, under the same names. The first stands where the record does.
const CLOCK_BYTES: u32 = 24;

const SHIFT_TIME0: u32 = 4;

const SHIFT_TIME1: u32 = 8;

const SYNC1_CYCLE_FACTOR: u32 = 12;

const ASSIGN_ACTIVATE: u32 = 14;

const SYNC0_CYCLE_FACTOR: u32 = 16;

const MODE_NAME_IDX: u32 = 18;

const MODE_DESC_IDX: u32 = 19;

// A mode of the distributed clock. Times are in ns.
#[derive(Clone, Copy, Default)]
pub struct DistributedClock {
    pub cycle_time0: u32,
    pub shift_time0: u32,
    pub shift_time1: u32,
    // The 16 bits of a signed number.
    pub sync1_cycle_factor: u16,
    pub assign_activate: u16,
    // The 16 bits of a signed number.
    pub sync0_cycle_factor: u16,
    pub name_string_idx: u8,
    pub description_string_idx: u8,
}

// At most 8; a place from the count on is all zero. The count stands beside an array: memory is fixed, and `back` says what every place holds.
#[derive(Clone, Copy)]
pub struct DistributedClocks {
    pub count: usize,
    pub items: [DistributedClock; CLOCK_MOST],
}

// The modes of the distributed clock.
pub fn distributed_clocks(image: &[u8], chunk: Chunk) -> Result<DistributedClocks, Refusal>
    ensures { back_clocks result ≡ back clock_zero clock_most (clocks_of image.now) }
{
    let blank = [DistributedClock::default(); CLOCK_MOST];
    let (count, items) = read_array::<DistributedClock, _>(image, chunk, DISTRIBUTED_CLOCK, blank)?;
    Ok(DistributedClocks { count, items })
}

impl Record for DistributedClock {
    type Value = DistributedClock;

    ghost item_at = { clock_at };

    #[tactic(auto, unfolding(crate::specs::Clocks::clock_at))]
    fn read(
        image: &[u8],
        chunk: Chunk,
        rest: Range,
    ) -> Result<Option<(DistributedClock, Range)>, Refusal> {
        let Some(behind) = rest_behind(rest, CLOCK_BYTES) else {
            return Ok(None);
        };
        Ok(Some((clock_at(image, chunk, rest.byte_pos), behind)))
    }
}

#[tactic(auto, unfolding(crate::specs::Clocks::clock_of))]
fn clock_at(image: &[u8], chunk: Chunk, at: Pos) -> DistributedClock
    requires { at + MODE_DESC_IDX < 2 ^ 32 }
    ensures { result ≡ clock_of image.now at }
{
    DistributedClock {
        cycle_time0: long_of(image, chunk, at),
        shift_time0: long_of(image, chunk, at + SHIFT_TIME0),
        shift_time1: long_of(image, chunk, at + SHIFT_TIME1),
        sync1_cycle_factor: word_of(image, chunk, at + SYNC1_CYCLE_FACTOR),
        assign_activate: word_of(image, chunk, at + ASSIGN_ACTIVATE),
        sync0_cycle_factor: word_of(image, chunk, at + SYNC0_CYCLE_FACTOR),
        name_string_idx: byte_of(image, chunk, at + MODE_NAME_IDX),
        description_string_idx: byte_of(image, chunk, at + MODE_DESC_IDX),
    }
}

// A record as the numbers that the list gives of it, in their order. A function by its name and no `From`: it is a public call with a row in `pinned`.
pub fn clock_row(c: DistributedClock) -> [u64; 8]
    ensures { result ≡ clock_values c }
{
    [
        u64::from(c.cycle_time0),
        u64::from(c.shift_time0),
        u64::from(c.shift_time1),
        u64::from(c.sync1_cycle_factor),
        u64::from(c.assign_activate),
        u64::from(c.sync0_cycle_factor),
        u64::from(c.name_string_idx),
        u64::from(c.description_string_idx),
    ]
}
