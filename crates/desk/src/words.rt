// The words of a line behind the request's name, each read as what its place asks.
use crate::answers::UNREADABLE;
use eeprom::{Chunk, IMAGE_MOST};
use refusal::Refusal;
use std::mem;

// The most BYTES that a word may have: twice those of an image, so that one that is too long is answered by the call itself.
pub(crate) const BYTES_MOST: usize = 2 * IMAGE_MOST;

// Room for the BYTES of a line: no request has more than two such words.
pub(crate) const BYTES_ROOM: usize = 2 * BYTES_MOST;

// The longest line: two words of BYTES, two digits for each, and as many bytes as an image has for the others.
pub(crate) const LINE_MOST: usize = 4 * BYTES_MOST + IMAGE_MOST;

#[derive(Drop)]
pub(crate) struct Words<'a> {
    line: &'a [u8],
    // Where the last word that was read ends.
    end: usize,
    // What is left of the room for BYTES.
    room: &'a mut [u8],
}

impl<'a> Words<'a> {
    // Those behind the line's first, which is the request's name.
    pub(crate) fn behind_name(line: &'a [u8], room: &'a mut [u8]) -> Words<'a> {
        Words {
            line,
            end: lines::word_end(line, 0),
            room,
        }
    }

    fn next(&mut self) -> Result<&'a [u8], Refusal> {
        if self.end >= self.line.len() {
            return Err(UNREADABLE);
        }
        let from = self.end + 1;
        self.end = lines::word_end(self.line, from);
        Ok(lines::word(self.line, from))
    }

    // No further word follows.
    pub(crate) fn end(&self) -> Result<(), Refusal> {
        if self.end < self.line.len() {
            Err(UNREADABLE)
        } else {
            Ok(())
        }
    }

    fn number(&mut self) -> Result<u64, Refusal> {
        lines::number(self.next()?).ok_or(UNREADABLE)
    }

    // A number of 8 bits.
    pub(crate) fn byte(&mut self) -> Result<u8, Refusal> {
        u8::try_from(self.number()?).map_err(|_| UNREADABLE)
    }

    // A number of 16 bits.
    pub(crate) fn short(&mut self) -> Result<u16, Refusal> {
        u16::try_from(self.number()?).map_err(|_| UNREADABLE)
    }

    // A number of 32 bits.
    pub(crate) fn long(&mut self) -> Result<u32, Refusal> {
        u32::try_from(self.number()?).map_err(|_| UNREADABLE)
    }

    // ACTIVE
    pub(crate) fn active(&mut self) -> Result<bool, Refusal> {
        match self.number()? {
            0 => Ok(false),
            1 => Ok(true),
            _ => Err(UNREADABLE),
        }
    }

    // CHUNK
    pub(crate) fn chunk(&mut self) -> Result<Chunk, Refusal> {
        match self.number()? {
            4 => Ok(Chunk::Four),
            8 => Ok(Chunk::Eight),
            _ => Err(UNREADABLE),
        }
    }

    // BYTES, at the front of what is left of the room.
    pub(crate) fn bytes(&mut self) -> Result<&'a mut [u8], Refusal> {
        let word = self.next()?;
        let count = word.len() / 2;
        if count > BYTES_MOST {
            return Err(UNREADABLE);
        }
        let room = mem::take(&mut self.room);
        let (bytes, rest) = room.split_at_mut_checked(count).ok_or(UNREADABLE)?;
        self.room = rest;
        lines::hex(word, bytes).ok_or(UNREADABLE)?;
        Ok(bytes)
    }

    // IMAGE CHUNK
    pub(crate) fn image(&mut self) -> Result<(&'a [u8], Chunk), Refusal> {
        let image: &'a [u8] = self.bytes()?;
        let chunk = self.chunk()?;
        Ok((image, chunk))
    }

    // IMAGE CHUNK and no further word.
    pub(crate) fn last_image(&mut self) -> Result<(&'a [u8], Chunk), Refusal> {
        let image = self.image()?;
        self.end()?;
        Ok(image)
    }
}
