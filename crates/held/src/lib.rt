// The forms that lend, each thin over its by-value core: `Ports` changed in place, and a range that keeps its image inside it.
// RULES, forms. No call here decides anything: what it answers and leaves is the core's.
#![tactic(auto)]

ghost use Rattle.std.specs.Prelude.{◌≡◌};
ghost use Rattle.ports.specs.Ports.{times_set};
ghost use Rattle.ports.specs.Answers.{said_port};
ghost use Rattle.ports.specs.Assigning.{assigned_said, assigned_ports};
ghost use Rattle.eeprom.specs.Range.{standing, new_said, byte_said, write_said, write_range, write_image};
ghost use Rattle.held.specs.Range.{alone, stands, range_on, range_mut_on, after, skip_of, byte_of, read_of, read_into, exact_of, after_exact, exact_into, write_of, written};
ghost use Rattle.held.specs.Answers.{said_outcome, said_byte_read, said_counted};

use eeprom::{Chunk, Pos, Range, Standing};
use ports::{Assigned, Ports};
use refusal::Refusal;
use step::range_step;

mod step;

// A range of a lent image: where it stands, and where it ends, in bytes. The Rust's keeps a provider instead of the image.
// Position and end are fields of their own, and no `Range`: RULES, forms say so, and the laws of a range that is lent (proofs/Lent) name them.
#[derive(Clone, Copy)]
pub struct EepromRange<'a> {
    pub image: &'a [u8],
    pub byte_pos: Pos,
    pub end: Pos,
}

// The same of an image that is lent to be written.
#[derive(Drop)]
pub struct EepromRangeMut<'a> {
    pub image: &'a mut [u8],
    pub byte_pos: Pos,
    pub end: Pos,
}

// A range that was asked for; refused, it is a closed one, on which every later call is 14.
// The answer is no `Result` with the range in it, since a refused `new` hands out a range too: `refused_closed` speaks of it.
#[derive(Clone, Copy)]
pub struct Opened<'a> {
    pub answer: Result<(), Refusal>,
    pub range: EepromRange<'a>,
}

// The same of an image that is lent to be written.
#[derive(Drop)]
pub struct OpenedMut<'a> {
    pub answer: Result<(), Refusal>,
    pub range: EepromRangeMut<'a>,
}

impl<'a> EepromRange<'a> {
    // The range of the image from a word on, for a number of words. Refuses 1.
    pub fn new(image: &'a [u8], start_word: u16, len_words: u16) -> Opened<'a>
        ensures { (said_outcome result.answer ≡ alone (new_said start_word len_words)) × (result.range ≡ range_on image.entry (new_said start_word len_words)) }
    {
        let s = range_step(start_word, len_words);
        Opened {
            answer: s.answer,
            range: EepromRange {
                image,
                byte_pos: s.byte_pos,
                end: s.end,
            },
        }
    }

    // Moves the position on, to before the end. Refuses 14, then 2.
    #[tactic(auto, unfolding(crate::specs::Range::alone, crate::specs::Range::stands))]
    pub fn skip_ahead_bytes(&mut self, skip: u16) -> Result<(), Refusal>
        ensures { (said_outcome result ≡ alone (skip_of self.old skip)) × (self.new ≡ after self.old (skip_of self.old skip)) }
    {
        let after = self.range().skip_ahead_bytes(skip)?;
        self.byte_pos = after.byte_pos;
        Ok(())
    }

    // The byte at the position. Refuses 14, then 2 at the end and past it, then 1, which is never met.
    #[tactic(auto, unfolding(crate::specs::Range::alone, crate::specs::Range::stands))]
    pub fn read_byte(&mut self, chunk: Chunk) -> Result<u8, Refusal>
        ensures { (said_byte_read result ≡ alone (byte_of self.old)) × (self.new ≡ after self.old (byte_of self.old)) }
    {
        let (byte, after) = self.range().read_byte(self.image, chunk)?;
        self.byte_pos = after.byte_pos;
        Ok(byte)
    }

    // Reads into buf what there is of the range. Refuses 14.
    #[tactic(auto, unfolding(crate::specs::Range::alone, crate::specs::Range::stands))]
    pub fn read(&mut self, chunk: Chunk, buf: &mut [u8]) -> Result<Pos, Refusal>
        ensures { (said_counted result ≡ alone (read_of self.old buf.old)) × ((self.new ≡ after self.old (read_of self.old buf.old)) × (buf.new ≡ read_into self.old buf.old)) }
    {
        let (count, after) = self.range().read(self.image, chunk, buf)?;
        self.byte_pos = after.byte_pos;
        Ok(count)
    }

    // Reads into the whole of buf; where the range has less, into as much of it. Refuses 14, then 2.
    pub fn read_exact(&mut self, chunk: Chunk, buf: &mut [u8]) -> Result<(), Refusal>
        ensures { (said_outcome result ≡ exact_of self.old buf.old) × ((self.new ≡ after_exact self.old buf.old) × (buf.new ≡ exact_into self.old buf.old)) }
    {
        let s = self.range().read_exact(self.image, chunk, buf);
        self.byte_pos = s.range.byte_pos;
        s.answer
    }

    // Where the range stands and ends, without its image.
    fn range(&self) -> Range
        ensures { result ≡ record { byte_pos = self.now.byte_pos; end = self.now.end } }
    {
        Range {
            byte_pos: self.byte_pos,
            end: self.end,
        }
    }
}

impl<'a> EepromRangeMut<'a> {
    // The range of the image from a word on, for a number of words. Refuses 1.
    pub fn new(image: &'a mut [u8], start_word: u16, len_words: u16) -> OpenedMut<'a>
        ensures { (said_outcome result.answer ≡ alone (new_said start_word len_words)) × (result.range ≡ range_mut_on image.entry (new_said start_word len_words)) }
    {
        let s = range_step(start_word, len_words);
        OpenedMut {
            answer: s.answer,
            range: EepromRangeMut {
                image,
                byte_pos: s.byte_pos,
                end: s.end,
            },
        }
    }

    // Writes the bytes as words, while the position is before the end. Refuses 14, then 1, then 7; these two keep the words already written.
    pub fn write(&mut self, bytes: &[u8]) -> Result<Pos, Refusal>
        ensures { (said_counted result ≡ write_of self.old bytes.now) × (self.new ≡ written self.old bytes.now) }
    {
        let range = Range {
            byte_pos: self.byte_pos,
            end: self.end,
        };
        let s = range.write(self.image, bytes);
        self.byte_pos = s.range.byte_pos;
        s.answer
    }
}

// The byte at a position of the image, and the range after it: one with its image is made here, lent to `read_byte`, and looked at again. Refuses 14, then 2, then 1.
pub fn byte_in(image: &[u8], range: Range, chunk: Chunk) -> Standing<u8>
    ensures { (said_byte_read result.answer ≡ alone (byte_said image.now range.byte_pos range.end)) × (result.range ≡ standing range (stands range.byte_pos (byte_said image.now range.byte_pos range.end))) }
{
    let mut held = EepromRange {
        image,
        byte_pos: range.byte_pos,
        end: range.end,
    };
    let answer = held.read_byte(chunk);
    Standing {
        answer,
        range: Range {
            byte_pos: held.byte_pos,
            ..range
        },
    }
}

// Writes to the image at a position, and says the range after that: one with its image is made here, lent to `write`, and looked at again. Refuses 14, then 1, then 7.
pub fn write_in(image: &mut [u8], range: Range, bytes: &[u8]) -> Standing<Pos>
    ensures { ((said_counted result.answer ≡ write_said image.old range.byte_pos range.end bytes.now) × (result.range ≡ write_range image.old range bytes.now)) × (image.new ≡ write_image image.old range.byte_pos range.end bytes.now) }
{
    let mut held = EepromRangeMut {
        image,
        byte_pos: range.byte_pos,
        end: range.end,
    };
    let answer = held.write(bytes);
    Standing {
        answer,
        range: Range {
            byte_pos: held.byte_pos,
            ..range
        },
    }
}

// Sets the receive times of the caller's record, in the order of places.
pub fn set_receive_times(ports: &mut Ports, time_p0: u32, time_p3: u32, time_p1: u32, time_p2: u32)
    ensures { ports.new ≡ times_set ports.old time_p0 time_p3 time_p1 time_p2 }
{
    *ports = ports.set_receive_times(time_p0, time_p3, time_p1, time_p2);
}

// Links a downstream device in the caller's record, to the next port that has none. Refuses 14 for device 0, then 9.
pub fn assign_next_downstream_port(
    ports: &mut Ports,
    downstream_subdevice_index: u16,
) -> Result<Option<u8>, Refusal>
    ensures { (said_port result ≡ assigned_said ports.old downstream_subdevice_index) × (ports.new ≡ assigned_ports ports.old downstream_subdevice_index) }
{
    let a = ports.assign_next_downstream_port(downstream_subdevice_index);
    *ports = a.ports;
    a.answer
}

// The same for a record by value: it is copied, lent and handed back.
pub fn after_assign(ports: Ports, downstream_subdevice_index: u16) -> Assigned
    ensures { (said_port result.answer ≡ assigned_said ports downstream_subdevice_index) × (result.ports ≡ assigned_ports ports downstream_subdevice_index) }
{
    let mut record = ports;
    let answer = assign_next_downstream_port(&mut record, downstream_subdevice_index);
    Assigned {
        answer,
        ports: record,
    }
}
