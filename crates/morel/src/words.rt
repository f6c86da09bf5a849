// The program's words: read as bytes, since a file's name need not be text, and a word as a number. They are kept in rooms of fixed sizes.
use std::env::FillError;
use std::rt::Env;

// The most bytes of a word that names no file: those of a number, leading zeros included. A longer one says nothing, and counts as an empty one.
const WORD_MOST: usize = 32;

// The most bytes of a file's name. A word that is longer names no file, and counts as an empty one.
pub(crate) const PATH_MOST: usize = 4096;

// The most words of a command that are kept: one more than the longest command has, so that more words are no command's either.
const WORDS_MOST: usize = 5;

// An argument: which it is, and its bytes.
#[derive(Clone, Copy)]
pub(crate) struct Word {
    pub(crate) number: usize,
    room: [u8; WORD_MOST],
    length: usize,
}

impl Word {
    // The argument of this number, where there is one.
    pub(crate) fn read(rt: &impl Env, number: usize) -> Option<Word> {
        let mut room = [0u8; WORD_MOST];
        let length = match rt.arg(number, &mut room) {
            Ok(length) => length,
            Err(FillError::TooLong) => 0,
            Err(FillError::NotPresent) => return None,
        };
        Some(Word {
            number,
            room,
            length,
        })
    }

    pub(crate) fn bytes(&self) -> &[u8] {
        self.room.get(..self.length).unwrap_or(&self.room)
    }
}

// The words of a command.
#[derive(Clone, Copy)]
pub(crate) struct Words {
    list: [Word; WORDS_MOST],
    count: usize,
}

impl Words {
    pub(crate) fn new() -> Words {
        let none = Word {
            number: 0,
            room: [0; WORD_MOST],
            length: 0,
        };
        Words {
            list: [none; WORDS_MOST],
            count: 0,
        }
    }

    // A word behind the others; one for which there is no room is not kept.
    pub(crate) fn push(&mut self, word: Word) {
        if self.count < WORDS_MOST {
            self.list[self.count] = word;
            self.count += 1;
        }
    }

    pub(crate) fn as_slice(&self) -> &[Word] {
        self.list.get(..self.count).unwrap_or(&self.list)
    }
}

// The argument of this number as a file's name.
pub(crate) fn path<'a>(rt: &impl Env, number: usize, room: &'a mut [u8]) -> &'a [u8] {
    match rt.arg(number, room) {
        Ok(n) => &room[..n],
        Err(_) => &[],
    }
}

// The number of at most 32 bits that a word spells, in decimal, or in hex after `0x`.
pub(crate) fn parse_number(word: &[u8]) -> Option<u32> {
    match word {
        [b'0', b'x', digits @ ..] if !digits.is_empty() => parse_hex(digits),
        _ => u32::try_from(lines::number(word)?).ok(),
    }
}

// In capitals or not. No sign is a digit, as it would be to `from_str_radix`.
fn parse_hex(digits: &[u8]) -> Option<u32> {
    digits.iter().try_fold(0u32, |value, digit| {
        let digit = char::from(*digit).to_digit(16)?;
        value.checked_mul(16)?.checked_add(digit)
    })
}
