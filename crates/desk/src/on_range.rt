// The requests on the checksum and the EEPROM range. A range that has an image keeps it inside.
use crate::answers::{Answered, Answers};
use crate::words::Words;
use eeprom::Range;
use held::EepromRange;
use refusal::Refusal;

pub(crate) fn range_row(range: Range) -> [u64; 2] {
    [u64::from(range.byte_pos), u64::from(range.end)]
}

impl<'a> Words<'a> {
    // R: where the range stands, and where it ends.
    fn range(&mut self) -> Result<Range, Refusal> {
        let byte_pos = self.long()?;
        let end = self.long()?;
        Ok(Range { byte_pos, end })
    }
}

impl<'a> Answers<'a> {
    // R as it is after the call.
    fn range(&mut self, range: Range) {
        self.record(&range_row(range));
    }
}

// R over an image.
fn over<'a>(image: &'a [u8], range: Range) -> EepromRange<'a> {
    let Range { byte_pos, end } = range;
    EepromRange {
        image,
        byte_pos,
        end,
    }
}

// R as it stands over its image.
fn standing(range: EepromRange) -> Range {
    let EepromRange { byte_pos, end, .. } = range;
    Range { byte_pos, end }
}

pub(crate) fn crc(words: &mut Words, answers: &mut Answers) -> Answered {
    let bytes = words.bytes()?;
    words.end()?;
    answers.gives_one(crc::crc(bytes));
    Ok(())
}

// A range by the word at which it starts and its length.
fn made<F: FnOnce(u16, u16) -> Result<Range, Refusal>>(
    words: &mut Words,
    answers: &mut Answers,
    make: F,
) -> Answered
    requires { F.IsAlwaysCallable make }
{
    let start = words.short()?;
    let len = words.short()?;
    words.end()?;
    answers.gives(&range_row(make(start, len)?));
    Ok(())
}

// The length in words.
pub(crate) fn new(words: &mut Words, answers: &mut Answers) -> Answered {
    made(words, answers, |start, len| Range::new(start, len))
}

// The length in bytes.
pub(crate) fn start_at(words: &mut Words, answers: &mut Answers) -> Answered {
    made(words, answers, |start, len| Range::start_at(start, len))
}

// The range alone: no image is asked for.
pub(crate) fn skip(words: &mut Words, answers: &mut Answers) -> Answered {
    let range = words.range()?;
    let count = words.short()?;
    words.end()?;
    let mut range = over(&[], range);
    answers.says_done(range.skip_ahead_bytes(count));
    answers.range(standing(range));
    Ok(())
}

pub(crate) fn byte(words: &mut Words, answers: &mut Answers) -> Answered {
    let (image, chunk) = words.image()?;
    let range = words.range()?;
    words.end()?;
    let read = held::byte_in(image, range, chunk);
    answers.says_one(read.answer);
    answers.range(read.range);
    Ok(())
}

pub(crate) fn read(words: &mut Words, answers: &mut Answers) -> Answered {
    let (image, chunk) = words.image()?;
    let range = words.range()?;
    let buf = words.bytes()?;
    words.end()?;
    let mut range = over(image, range);
    answers.says_one(range.read(chunk, buf));
    answers.range(standing(range));
    answers.lent(buf);
    Ok(())
}

pub(crate) fn exact(words: &mut Words, answers: &mut Answers) -> Answered {
    let (image, chunk) = words.image()?;
    let range = words.range()?;
    let buf = words.bytes()?;
    words.end()?;
    let mut range = over(image, range);
    answers.says_done(range.read_exact(chunk, buf));
    answers.range(standing(range));
    answers.lent(buf);
    Ok(())
}

pub(crate) fn write(words: &mut Words, answers: &mut Answers) -> Answered {
    let image = words.bytes()?;
    let range = words.range()?;
    let bytes = words.bytes()?;
    words.end()?;
    let written = held::write_in(image, range, bytes);
    answers.says_one(written.answer);
    answers.range(written.range);
    answers.lent(image);
    Ok(())
}
