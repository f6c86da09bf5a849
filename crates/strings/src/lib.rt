// Strings of the SII into a lent room: `find_string`, `device_name` and `device_description` of ethercrab's subdevice/eeprom.rs.
// RULES, strings, decides; specs/Strings.antt and specs/Names.antt have its rules in its order.
// A string is found by reading alone, and the room is written once it is known to be readable: a refusal has touched nothing.
#![tactic(auto)]

ghost use Rattle.std.specs.Prelude.{MatchResult, false, ◌≡◌, List, [], ◌∷◌, true, ℕ, ◌+◌, ◌-◌, ◌≤◌, ◌<◌, length};
ghost use Rattle.refusal.specs.declared.Refusal.TheVariants as Refusal;
ghost use Rattle.wire.specs.Bytes.{span, overlay};
ghost use Rattle.eeprom.specs.Image.{image_most, fine};
ghost use Rattle.eeprom.specs.Answers.{said_range};
ghost use Rattle.strings.specs.Strings.{string_past, passed_one, passed, fitted, string_here, string_behind, string_in, sought_at, ascii, shown, text_said, room_most, fits, string_said, length_said, room_behind};
ghost use Rattle.strings.specs.Names.{name_said, description_said};
ghost use Rattle.strings.specs.Answers.{said_place, said_string, Small};

use category::{STRINGS, category};
use eeprom::{Chunk, Pos, Range, byte_of};
use refusal::Refusal;
use sii::{find_general, general};

// The most bytes that a room has.
const ROOM_MOST: usize = 255;

// The first byte that is not ASCII.
const ASCII_END: u8 = 0x80;

// Puts the string of an index into the room, and answers its length: the text stands at the front of the room. Index 0 is absent.
// Refuses 14 where the image or the room is too long, 1 and 2 where reading fails, and 4 where the stored string is longer than the room.
// Absent or refused, the room is as it was, here and below.
#[tactic(auto, unfolding(crate::specs::Strings::string_said, crate::specs::Strings::text_for, crate::specs::Strings::bounded, crate::specs::Strings::text_said, crate::specs::Strings::length_said, crate::specs::Strings::room_behind, refusal::specs::Said::on2))]
pub fn find_string(
    image: &[u8],
    chunk: Chunk,
    index: u8,
    room: &mut [u8],
) -> Result<Option<u16>, Refusal>
    ensures said { said_string result ≡ length_said (string_said image.now index (length room.old)) }
    ensures lent { room.new ≡ room_behind (string_said image.now index (length room.old)) room.old }
{
    checked(image, room)?;
    let Some((at, n)) = sought(image, chunk, index, room.len() as u16)? else {
        return Ok(None);
    };
    let k = lay_text(image, chunk, at, u32::from(n), room);
    Ok(Some(k as u16))
}

// Puts the device's name into the room, and answers its length: the string of General's order index. Absent without General.
// Refuses as `find_string`, and 2 or 5 where General is cut or has undefined bits.
#[tactic(auto, unfolding(crate::specs::Names::name_said, crate::specs::Names::string_by, crate::specs::Names::on_general, crate::specs::Strings::bounded, crate::specs::Strings::length_said, crate::specs::Strings::room_behind))]
pub fn device_name(image: &[u8], chunk: Chunk, room: &mut [u8]) -> Result<Option<u16>, Refusal>
    ensures said { said_string result ≡ length_said (name_said image.now (length room.old)) }
    ensures lent { room.new ≡ room_behind (name_said image.now (length room.old)) room.old }
{
    checked(image, room)?;
    match find_general(image, chunk)? {
        Some(g) => find_string(image, chunk, g.order_string_idx, room),
        None => Ok(None),
    }
}

// Puts the device's description into the room, and answers its length: the string of General's name index. 3 without General.
#[tactic(auto, unfolding(crate::specs::Names::description_said, crate::specs::Names::string_by, crate::specs::Names::on_general, crate::specs::Strings::bounded, crate::specs::Strings::length_said, crate::specs::Strings::room_behind))]
pub fn device_description(
    image: &[u8],
    chunk: Chunk,
    room: &mut [u8],
) -> Result<Option<u16>, Refusal>
    ensures said { said_string result ≡ length_said (description_said image.now (length room.old)) }
    ensures lent { room.new ≡ room_behind (description_said image.now (length room.old)) room.old }
{
    checked(image, room)?;
    let g = general(image, chunk)?;
    find_string(image, chunk, g.name_string_idx, room)
}

// The image and the room are within their bounds: else 14.
#[tactic(auto, unfolding(crate::specs::Strings::fits))]
fn checked(image: &[u8], room: &[u8]) -> Result<(), Refusal>
    ensures { MatchResult result (λ _. (fits image.now (length room.now) ≡ true) × (length room.now ≤ room_most)) (λ x. (x ≡ Refusal.BadArgument) × (fits image.now (length room.now) ≡ false)) }
{
    eeprom::checked(image)?;
    if room.len() <= ROOM_MOST {
        Ok(())
    } else {
        Err(Refusal::BadArgument)
    }
}

// Where the string of an index stands, and how many bytes are stored.
#[tactic(auto, unfolding(crate::specs::Strings::sought_at, refusal::specs::Said::on2))]
fn sought(image: &[u8], chunk: Chunk, index: u8, room: u16) -> Result<Option<(Pos, u16)>, Refusal>
    ensures { said_place result ≡ sought_at image.now index room }
{
    if index == 0 {
        return Ok(None);
    }
    match category(image, chunk, STRINGS)? {
        Some(g) => in_strings(image, chunk, g, index - 1, room),
        None => Ok(None),
    }
}

// .. in the category, behind the count and s strings.
#[tactic(auto, unfolding(crate::specs::Strings::string_in, refusal::specs::Said::on3))]
fn in_strings(
    image: &[u8],
    chunk: Chunk,
    g: Range,
    s: u8,
    room: u16,
) -> Result<Option<(Pos, u16)>, Refusal>
    ensures { said_place result ≡ string_in image.now s room g.byte_pos g.end }
{
    let (count, h) = g.read_byte(image, chunk)?;
    if is_past(s, count) {
        return Ok(None);
    }
    behind(image, chunk, h, s, room)
}

// The count has no string behind s of them.
#[tactic(auto, unfolding(crate::specs::Strings::string_past))]
fn is_past(s: u8, count: u8) -> bool
    ensures { result ≡ string_past s count }
{
    count <= s
}

// .. behind s strings.
#[tactic(auto, unfolding(crate::specs::Strings::string_behind, refusal::specs::Said::on2))]
fn behind(
    image: &[u8],
    chunk: Chunk,
    g: Range,
    s: u8,
    room: u16,
) -> Result<Option<(Pos, u16)>, Refusal>
    ensures { said_place result ≡ string_behind image.now s room g.byte_pos g.end }
{
    let h = pass(image, chunk, g, s)?;
    here(image, chunk, h, room)
}

// Passes over s strings.
fn pass(image: &[u8], chunk: Chunk, g: Range, s: u8) -> Result<Range, Refusal>
    ensures { said_range result ≡ passed s image.now g.byte_pos g.end }
{
    let mut at = g;
    for _ in 0..s {
        at = pass_one(image, chunk, at)?;
    }
    Ok(at)
}

// Reads a length and skips it.
#[tactic(auto, unfolding(crate::specs::Strings::passed_one, refusal::specs::Said::on3))]
fn pass_one(image: &[u8], chunk: Chunk, g: Range) -> Result<Range, Refusal>
    ensures { said_range result ≡ passed_one image.now g.byte_pos g.end }
{
    let (n, h) = g.read_byte(image, chunk)?;
    h.skip_ahead_bytes(u16::from(n))
}

// Reads a length; the bytes stand behind it.
#[tactic(auto, unfolding(crate::specs::Strings::string_here, refusal::specs::Said::on3))]
fn here(image: &[u8], chunk: Chunk, g: Range, room: u16) -> Result<Option<(Pos, u16)>, Refusal>
    ensures { said_place result ≡ string_here image.now room g.byte_pos g.end }
{
    let (n, h) = g.read_byte(image, chunk)?;
    fit(room, u16::from(n), h)
}

// n bytes from the range's position on, for a room: an exact read of an image and a range within their bounds.
fn fit(room: u16, n: u16, g: Range) -> Result<Option<(Pos, u16)>, Refusal>
    ensures { (image : List ℕ) → fine image g.byte_pos g.end ≡ true → said_place result ≡ fitted image room n g.byte_pos g.end }
{
    if room < n {
        return Err(Refusal::StringTooLong { room, stored: n });
    }
    if Pos::from(n) <= g.end.saturating_sub(g.byte_pos) {
        Ok(Some((g.byte_pos, n)))
    } else {
        Err(Refusal::Overrun)
    }
}

// The text of n bytes from at on; answers its length.
fn lay_text(image: &[u8], chunk: Chunk, at: u32, n: u32, room: &mut [u8]) -> usize
    requires { (at ≤ image_most) × (n ≤ length room.old) × (length room.old ≤ room_most) }
    ensures said { result ≡ length (shown (span image.now at n)) }
    ensures most { result ≤ n }
    ensures lent { room.new ≡ overlay room.old 0 (shown (span image.now at n)) }
{
    let mut k = 0;
    for i in 0..n {
        let b = byte_of(image, chunk, at + i);
        k = put(b, k, room);
    }
    k
}

// The text of one byte goes to place k of the room; answers the next place.
#[tactic(auto, using(crate::proofs::Laws::put_lem), unfolding(crate::specs::Strings::shown))]
fn put(b: u8, k: usize, room: &mut [u8]) -> usize
    requires { k < length room.old }
    ensures said { result ≡ k + length (shown (b ∷ [])) }
    ensures lent { room.new ≡ overlay room.old k (shown (b ∷ [])) }
{
    if b == 0 {
        k
    } else {
        room[k] = as_ascii(b);
        k + 1
    }
}

#[tactic(auto, unfolding(crate::specs::Strings::ascii))]
fn as_ascii(b: u8) -> u8
    ensures { result ≡ ascii b }
{
    if b < ASCII_END { b } else { b'?' }
}
