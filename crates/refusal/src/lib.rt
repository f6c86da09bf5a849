// The refusals (RULES, refusals), and the number that each is known by.
// Every answer of the crates above is put on paper as `Said` (specs/Said.antt), and the promises are equations of it.
#![tactic(auto)]

ghost use Rattle.std.specs.Prelude.{◌≡◌, [], ◌∷◌, length, take};
ghost use Rattle.refusal.specs.Said.{number_of, values_of, values_row};

#[derive(Debug, Clone, Copy, PartialEq, Eq)]
pub enum Refusal {
    // 1: an address rule is broken.
    Address,
    // 2: an exact read or a skip doesn't fit its range.
    Overrun,
    // 3: General is needed and not found.
    NoCategory,
    // 4: the stored string is longer than the lent room.
    StringTooLong { room: u16, stored: u16 },
    // 5: a field value that its type doesn't admit, or a PDO entry missing.
    Decode,
    // 6: a list is over its limit.
    Capacity,
    // 7: a word to write isn't wholly in the image.
    NotWritable,
    // 8: `push_pdu` has no space.
    TooLong,
    // 9: no port is active.
    NoPort,
    // 10: a port number outside 0 to 3.
    BadPort,
    // 11: a sum of delays exceeds 32 bits.
    Sum,
    // 12: the frame reader's rule is broken.
    BadFrame,
    // 13: no permitted cutting exists.
    NoRoom,
    // 14: a size, command, category number or state outside its bounds.
    BadArgument,
    // Of a frame that came back, with the PDU's place in it. 19: it is no frame, or the PDUs are not those of the handles.
    WrongFrame { place: u16 },
    // 20: the PDU's command is not its handle's.
    WrongCommand { place: u16 },
    // 21: the PDU's index is not its handle's.
    WrongIndex { place: u16 },
    // 22: the PDU's length is not its handle's.
    WrongLength { place: u16 },
}

// The values of a refusal: the first `count` of the two, and the others are 0.
// A count beside a row, since nothing here has a heap, and what `values` promises names both.
#[derive(Clone, Copy)]
pub struct ValueRow {
    pub count: usize,
    pub items: [u64; 2],
}

// The number by which a refusal is known (RULES, refusals). A function by its name and no `From`: it is a public call with a row in `pinned`.
pub fn number(x: Refusal) -> u8
    ensures { result ≡ number_of x }
{
    match x {
        Refusal::Address => 1,
        Refusal::Overrun => 2,
        Refusal::NoCategory => 3,
        Refusal::StringTooLong { .. } => 4,
        Refusal::Decode => 5,
        Refusal::Capacity => 6,
        Refusal::NotWritable => 7,
        Refusal::TooLong => 8,
        Refusal::NoPort => 9,
        Refusal::BadPort => 10,
        Refusal::Sum => 11,
        Refusal::BadFrame => 12,
        Refusal::NoRoom => 13,
        Refusal::BadArgument => 14,
        Refusal::WrongFrame { .. } => 19,
        Refusal::WrongCommand { .. } => 20,
        Refusal::WrongIndex { .. } => 21,
        Refusal::WrongLength { .. } => 22,
    }
}

// The values that a refusal gives (RULES, refusals).
pub fn values(x: Refusal) -> ValueRow
    ensures { (result.count ≡ length (values_of x)) × (result.items ≡ values_row x) × (take result.count result.items ≡ values_of x) }
{
    match x {
        Refusal::StringTooLong { room, stored } => {
            ValueRow {
                count: 2,
                items: [u64::from(room), u64::from(stored)],
            }
        }
        Refusal::WrongFrame { place }
        | Refusal::WrongCommand { place }
        | Refusal::WrongIndex { place }
        | Refusal::WrongLength { place } => one(place),
        _ => {
            ValueRow {
                count: 0,
                items: [0, 0],
            }
        }
    }
}

fn one(v: u16) -> ValueRow
    ensures { result ≡ record { count = 1; items = v ∷ 0 ∷ [] } }
{
    ValueRow {
        count: 1,
        items: [u64::from(v), 0],
    }
}
