// Standard input by lines.
use crate::room::Room;
use crate::words::LINE_MOST;
use std::io;
use std::io::Read;

// So many bytes of input are asked for at once.
pub(crate) const CHUNK_BYTES: usize = 65536;

// Of a line that is too long, one byte more than it may have is kept.
pub(crate) const KEPT_MOST: usize = LINE_MOST + 1;

// What the input's next bytes make of a line.
pub(crate) enum Taken {
    // The line goes on.
    Part,
    // It is whole.
    Whole,
    // There is no further line.
    Nothing,
}

// The bytes of the input that are at hand.
#[derive(Drop)]
pub(crate) struct AtHand<'a> {
    chunk: &'a mut [u8],
    // Those that are not taken yet.
    from: usize,
    end: usize,
}

impl<'a> AtHand<'a> {
    pub(crate) fn new(chunk: &'a mut [u8]) -> AtHand<'a> {
        AtHand {
            chunk,
            from: 0,
            end: 0,
        }
    }

    fn as_slice(&self) -> &[u8] {
        self.chunk.get(self.from..self.end).unwrap_or(&[])
    }

    pub(crate) fn is_empty(&self) -> bool {
        self.from >= self.end
    }

    // The input's next bytes, or a wait for some; none at its end.
    pub(crate) fn read(&mut self, input: &mut impl Read) -> io::Result<()> {
        self.end = input.read(self.chunk)?;
        self.from = 0;
        Ok(())
    }

    // Takes them up to the line's end, or all of them. A line that the input ends within is whole, unless it is empty.
    pub(crate) fn take(&mut self, line: &mut Room) -> Taken {
        let bytes = self.as_slice();
        if bytes.is_empty() {
            return if line.is_empty() {
                Taken::Nothing
            } else {
                Taken::Whole
            };
        }
        match bytes.iter().position(|b| *b == b'\n') {
            Some(end) => {
                line.say(&bytes[..end]);
                self.from = self.from.saturating_add(end).saturating_add(1);
                Taken::Whole
            }
            None => {
                line.say(bytes);
                self.from = self.end;
                Taken::Part
            }
        }
    }
}
