// Finding a category of the SII in a lent EEPROM image: `category` of ethercrab's subdevice/eeprom.rs.
// RULES, category, decides; specs/Category.antt has its rules in its order.
#![tactic(auto)]

ghost use Rattle.std.specs.Prelude.{MatchResult, true, [], ◌≡◌, ◌+◌, ◌≤◌, ◌<◌};
ghost use Rattle.refusal.specs.Said.{refuses};
ghost use Rattle.refusal.specs.declared.Refusal.TheVariants as Refusal;
ghost use Rattle.eeprom.specs.Image.{within};
ghost use Rattle.eeprom.specs.Answers.{said_range};
ghost use Rattle.category.specs.Layout.{header_words, word_most};
ghost use Rattle.category.specs.Category.{numbers, empty_most, among, counted, decided, stepped, searched, category_said};
ghost use Rattle.category.specs.Inside.{header_end, last_header, end_inside, inside_said};
ghost use Rattle.category.specs.Answers.{said_found, said_inside, said_step};

use eeprom::{Chunk, Range, word_of};
use refusal::Refusal;

// The categories that may be sought, by their numbers in the SII.
pub const STRINGS: u16 = 10;

pub const GENERAL: u16 = 30;

pub const FMMU: u16 = 40;

pub const SYNC_MANAGER: u16 = 41;

pub const FMMU_EXTENDED: u16 = 42;

pub const TX_PDO: u16 = 50;

pub const RX_PDO: u16 = 51;

pub const DISTRIBUTED_CLOCK: u16 = 60;

// The word of the first header, and the largest word number.
const SII_FIRST_CATEGORY_START: u32 = 64;

const WORD_MOST: u32 = 65535;

// How many words a header has, which of them is the length, and how many of them the mark behind the last category needs.
const HEADER_WORDS: u32 = 2;

const LENGTH_WORD: u32 = 1;

const MARK_WORDS: u32 = 1;

// The type behind the last category, and the empty header at which a search ends.
const END: u16 = 65535;

const EMPTY_MOST: u32 = 32;

// Where a search ends: its last header's word, and what it answers.
#[derive(Clone, Copy)]
struct Ending {
    word: u32,
    found: Result<Option<Range>, Refusal>,
}

// What a header leads to.
#[derive(Clone, Copy)]
enum Step {
    // The search ends.
    Done(Result<Option<Range>, Refusal>),
    // The next header's word, and the count of empty headers so far.
    Next(u32, u32),
}

// Finds the first category of this number, within the first 31 empty headers: its body, from its first byte to its end.
// Refuses 14 where the image is too long or the number may not be sought, and 1 where a length leads past the last word or the range would end above its limit.
#[tactic(auto, unfolding(crate::specs::Category::category_said))]
#[inline]
pub fn category(image: &[u8], chunk: Chunk, number: u16) -> Result<Option<Range>, Refusal>
    ensures { said_found result ≡ category_said image.now number }
{
    checked(image, number)?;
    search(image, chunk, number).found
}

// Whether the headers that the search for this number looks at, the mark, and the category that it finds lie in the image.
// Past the image a byte reads as 0xFF, and a mark read there is none. Where `category` refuses, its refusal.
#[tactic(auto, unfolding(crate::specs::Inside::inside_said, crate::specs::Inside::end_inside))]
pub fn category_inside(image: &[u8], chunk: Chunk, number: u16) -> Result<bool, Refusal>
    ensures { said_inside result ≡ inside_said image.now number }
{
    checked(image, number)?;
    let ending = search(image, chunk, number);
    end_inside(image, chunk, ending.word, ending.found)
}

// The image is not too long, and the number may be sought: else 14.
#[tactic(auto, unfolding(crate::specs::Category::category_said))]
fn checked(image: &[u8], number: u16) -> Result<(), Refusal>
    ensures { MatchResult result (λ _. (within image.now ≡ true) × (among number numbers ≡ true)) (λ x. (x ≡ Refusal.BadArgument) × (category_said image.now number ≡ refuses 14 [])) }
{
    eeprom::checked(image)?;
    if is_sought(number) {
        Ok(())
    } else {
        Err(Refusal::BadArgument)
    }
}

// .. where it ended at the header at word with this.
#[tactic(auto, unfolding(crate::specs::Inside::end_inside))]
fn end_inside(
    image: &[u8],
    chunk: Chunk,
    word: u32,
    found: Result<Option<Range>, Refusal>,
) -> Result<bool, Refusal>
    requires { word ≤ word_most }
    ensures { said_inside result ≡ end_inside image.now word (said_found found) }
{
    let end = match found? {
        Some(g) => g.end,
        None => header_end(image, chunk, word),
    };
    Ok((end as usize) <= image.len())
}

// The end of what is looked at of the header at word.
#[tactic(auto, unfolding(crate::specs::Inside::header_end))]
fn header_end(image: &[u8], chunk: Chunk, word: u32) -> u32
    requires { word ≤ word_most }
    ensures { result ≡ header_end image.now word }
{
    if word_of(image, chunk, 2 * word) == END {
        2 * (word + MARK_WORDS)
    } else {
        2 * (word + HEADER_WORDS)
    }
}

// A number that may be sought.
#[tactic(auto, unfolding(crate::specs::Category::among))]
fn is_sought(number: u16) -> bool
    ensures { result ≡ among number numbers }
{
    match number {
        STRINGS
        | GENERAL
        | FMMU
        | SYNC_MANAGER
        | FMMU_EXTENDED
        | TX_PDO
        | RX_PDO
        | DISTRIBUTED_CLOCK => true,
        _ => false,
    }
}

// The search from word 0x0040 on.
fn search(image: &[u8], chunk: Chunk, number: u16) -> Ending
    ensures said { said_found result.found ≡ searched image.now number }
    ensures last { result.word ≡ last_header image.now number }
{
    let mut word = SII_FIRST_CATEGORY_START;
    let mut empties: u32 = 0;
    // A `loop` and no `for`: each header says where the next one stands.
    loop {
        match header(image, chunk, number, word, empties) {
            Step::Done(f) => {
                return Ending { word, found: f };
            }
            Step::Next(w, e) => {
                word = w;
                empties = e;
            }
        }
    }
}

// The header at word, before which there are so many empty ones.
#[tactic(auto, unfolding(crate::specs::Category::stepped))]
fn header(image: &[u8], chunk: Chunk, number: u16, word: u32, empties: u32) -> Step
    requires { (word ≤ word_most) × (empties < empty_most) }
    ensures { said_step result ≡ stepped image.now number word empties }
{
    let category_type = word_of(image, chunk, 2 * word);
    let len_words = word_of(image, chunk, 2 * (word + LENGTH_WORD));
    decide(
        category_type,
        len_words,
        number,
        word + HEADER_WORDS,
        count(len_words, empties),
    )
}

// The count of empty headers with one of this length.
#[tactic(auto, unfolding(crate::specs::Category::counted))]
fn count(len_words: u16, empties: u32) -> u32
    requires { empties < empty_most }
    ensures { result ≡ counted len_words empties }
{
    if len_words == 0 { empties + 1 } else { empties }
}

// What a header leads to whose body stands at word body, and with which there are e empty ones.
#[tactic(auto, unfolding(crate::specs::Category::decided))]
fn decide(category_type: u16, len_words: u16, number: u16, body: u32, e: u32) -> Step
    requires { body ≤ word_most + header_words }
    ensures { said_step result ≡ decided category_type len_words number body e }
{
    if WORD_MOST < body {
        return Step::Done(Ok(None));
    }
    if EMPTY_MOST <= e {
        return Step::Done(Ok(None)); // even if it is of the number sought
    }
    if category_type == number {
        return Step::Done(Range::new(body as u16, len_words).map(Some));
    }
    if category_type == END {
        return Step::Done(Ok(None));
    }
    let next = body + u32::from(len_words);
    if WORD_MOST < next {
        Step::Done(Err(Refusal::Address))
    } else {
        Step::Next(next, e)
    }
}
