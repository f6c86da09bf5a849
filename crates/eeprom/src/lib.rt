// The lent EEPROM image, read in chunks, and a range of it: a plain record beside the image.
// Follows src/eeprom/mod.rs (`EepromDataProvider`, `EepromRange`) and RULES, range.
#![tactic(auto)]

ghost use Rattle.std.specs.Prelude.{MatchResult, true, false, ◌≡◌, [], ◌∷◌, ◌+◌, ◌-◌, ◌*◌, ◌%◌, ◌≤◌, ◌<◌, length, get_or};
ghost use Rattle.refusal.specs.declared.Refusal.TheVariants as Refusal;
ghost use Rattle.wire.specs.Bytes.{byte_at, le16, le32, span, overlay};
ghost use Rattle.eeprom.specs.Image.{image_most, long_most, far_most, within, in_bounds, fine, width_of, chunk_of};
ghost use Rattle.eeprom.specs.Range.{standing, new_said, start_said, byte_in, byte_said, skip_said, read_said, read_buf, all_said, exact_said, exact_range, exact_buf, words_written, words_laid, write_in, write_said, write_range, write_image};
ghost use Rattle.eeprom.specs.Answers.{said_range, said_byte, said_reading, said_exact, said_writing};

use refusal::Refusal;
use wire::{byte_at, lay, word_at};

// The width of a chunk. It goes beside the image as an argument of its own: `pinned` says by its place that no answer hangs on it (`Wide`).
#[derive(Clone, Copy)]
pub enum Chunk {
    // 4 bytes
    Four,
    // 8 bytes
    Eight,
}

// A position in the image, and a count of bytes of a range.
pub type Pos = u32;

// A range of the image: where it stands, and where it ends, in bytes.
#[derive(Clone, Copy)]
pub struct Range {
    pub byte_pos: Pos,
    pub end: Pos,
}

// An answer, and the range as it then stands: where a call is refused after a part of it, the range stands behind that part.
#[derive(Clone, Copy)]
pub struct Standing<T> {
    pub answer: Result<T, Refusal>,
    pub range: Range,
}

// The most bytes that an image has.
pub const IMAGE_MOST: usize = 131072;

// No position and no end of a range lies beyond them.
const POS_MOST: Pos = IMAGE_MOST as Pos;

// One past the largest number of 16 bits.
const WORD_PAST: u32 = 65536;

// The image has no more bytes than it may.
#[tactic(auto, unfolding(crate::specs::Image::within))]
pub fn image_within(image: &[u8]) -> bool
    ensures { result ≡ within image.now }
{
    image.len() <= IMAGE_MOST
}

// The same as a refusal: 14 where the image has more.
pub fn checked(image: &[u8]) -> Result<(), Refusal>
    ensures { MatchResult result (λ _. within image.now ≡ true) (λ x. (x ≡ Refusal.BadArgument) × (within image.now ≡ false)) }
{
    if image_within(image) {
        Ok(())
    } else {
        Err(Refusal::BadArgument)
    }
}

impl Chunk {
    // How many bytes a chunk has.
    fn width(self) -> usize
        ensures { result ≡ width_of self }
    {
        match self {
            Chunk::Four => 4,
            Chunk::Eight => 8,
        }
    }
}

// Fills buf with the image's bytes from pos on.
#[tactic(auto, using(wire::proofs::Laws::filled_none))]
fn copy_out(image: &[u8], pos: usize, buf: &mut [u8])
    requires { pos + length buf.old ≤ far_most }
    ensures { buf.new ≡ span image.now pos (length buf.old) }
{
    for i in 0..buf.len() {
        buf[i] = byte_at(image, pos + i);
    }
}

// The chunk from a word on: its bytes at the front of eight, the others 0. Past the image a byte reads as 0xFF.
// This and the three readers after it are total: they take an image of any length and refuse nothing. The calls on a range refuse one of more than IMAGE_MOST bytes (14).
pub fn read_chunk(image: &[u8], start_word: u32, chunk: Chunk) -> [u8; 8]
    ensures { result ≡ chunk_of image.now start_word (width_of chunk) }
{
    let mut bytes = [0u8; 8];
    copy_out(
        image,
        2 * (start_word as usize),
        &mut bytes[..chunk.width()],
    );
    bytes
}

// The image's byte at i.
pub fn byte_of(image: &[u8], chunk: Chunk, i: u32) -> u8
    ensures { result ≡ byte_at image.now i }
{
    let bytes = read_chunk(image, i / 2, chunk);
    byte_at(&bytes, (i % 2) as usize)
}

// The 16 bits at the first or the second byte of a word.
fn word_from(image: &[u8], chunk: Chunk, start_word: u32, odd: usize) -> u16
    requires { odd < 2 }
    ensures { result ≡ le16 image.now (2 * start_word + odd) }
{
    let bytes = read_chunk(image, start_word, chunk);
    word_at(&bytes, odd)
}

// The image's 16 bits at i, the low byte first.
pub fn word_of(image: &[u8], chunk: Chunk, i: u32) -> u16
    ensures { result ≡ le16 image.now i }
{
    word_from(image, chunk, i / 2, (i % 2) as usize)
}

// The image's 32 bits at i, the low byte first.
pub fn long_of(image: &[u8], chunk: Chunk, i: u32) -> u32
    ensures { result ≡ le32 image.now i }
{
    let odd = (i % 2) as usize;
    let low = word_from(image, chunk, i / 2, odd);
    let high = word_from(image, chunk, i / 2 + 1, odd);
    u32::from(low) + WORD_PAST * u32::from(high)
}

impl Range {
    // The range from a word on, for a number of words.
    #[tactic(auto, unfolding(crate::specs::Range::new_said))]
    pub fn new(start_word: u16, len_words: u16) -> Result<Range, Refusal>
        ensures { said_range result ≡ new_said start_word len_words }
    {
        let from = 2 * Pos::from(start_word);
        let end = from + 2 * Pos::from(len_words);
        if end <= POS_MOST {
            Ok(Range {
                byte_pos: from,
                end,
            })
        } else {
            Err(Refusal::Address)
        }
    }

    // The range from a word on, for a length in bytes, of which an odd one is dropped.
    #[tactic(auto, unfolding(crate::specs::Range::start_said))]
    pub fn start_at(word_addr: u16, len_bytes: u16) -> Result<Range, Refusal>
        ensures { said_range result ≡ start_said word_addr len_bytes }
    {
        Range::new(word_addr, len_bytes / 2)
    }

    // The range some bytes on, which must be before its end. Refuses 14, then 2.
    #[tactic(auto, unfolding(crate::specs::Range::skip_said, crate::specs::Range::skip_in))]
    pub fn skip_ahead_bytes(self, skip: u16) -> Result<Range, Refusal>
        ensures { said_range result ≡ skip_said self.byte_pos self.end skip }
    {
        if !self.is_in_bounds() {
            return Err(Refusal::BadArgument);
        }
        let to = u64::from(self.byte_pos) + u64::from(skip);
        if to < u64::from(self.end) {
            Ok(self.moved_to(to as Pos))
        } else {
            Err(Refusal::Overrun)
        }
    }

    // The byte at the position, and the range after it. Refuses 14, then 2 at the end and past it, then 1, which is never met.
    #[tactic(auto, unfolding(crate::specs::Range::byte_said))]
    pub fn read_byte(self, image: &[u8], chunk: Chunk) -> Result<(u8, Range), Refusal>
        ensures { said_byte result ≡ byte_said image.now self.byte_pos self.end }
    {
        self.checked(image)?;
        self.byte_in(image, chunk)
    }

    // Reads into buf what there is of the range, and answers how many bytes, and the range after them. Refuses 14.
    #[tactic(auto, unfolding(crate::specs::Range::read_said, crate::specs::Range::read_buf))]
    pub fn read(self, image: &[u8], chunk: Chunk, buf: &mut [u8]) -> Result<(Pos, Range), Refusal>
        ensures said { said_reading result ≡ read_said image.now self.byte_pos self.end (length buf.old) }
        ensures lent { buf.new ≡ read_buf image.now self.byte_pos self.end buf.old }
    {
        self.checked(image)?;
        let n = buf.len().min(self.left());
        read_chunks(image, chunk, self.byte_pos, &mut buf[..n]);
        Ok((n as Pos, self.moved_to(self.byte_pos + (n as Pos))))
    }

    // Reads into the whole of buf; where the range has less, into as much of it. Refuses 14, then 2, which stands at the end.
    pub fn read_exact(self, image: &[u8], chunk: Chunk, buf: &mut [u8]) -> Standing<()>
        ensures said { said_exact result.answer ≡ exact_said image.now self.byte_pos self.end (length buf.old) }
        ensures stands { result.range ≡ exact_range image.now self (length buf.old) }
        ensures lent { buf.new ≡ exact_buf image.now self.byte_pos self.end buf.old }
    {
        let k = buf.len();
        match self.read(image, chunk, buf) {
            Ok((n, after)) => Standing {
                answer: all_of(n as usize, k),
                range: after,
            },
            Err(x) => Standing {
                answer: Err(x),
                range: self,
            },
        }
    }

    // Writes the bytes as words, while the position is before the end, and answers how many bytes, the padding counted.
    // Refuses 14; then, word by word, 1: the next position would pass the limit, and 7: the word is not wholly in the image. These two keep the words already written and stand after them.
    #[tactic(auto, unfolding(crate::specs::Range::write_said, crate::specs::Range::write_pos, crate::specs::Range::write_image))]
    pub fn write(self, image: &mut [u8], bytes: &[u8]) -> Standing<Pos>
        ensures said { said_writing result.answer ≡ write_said image.old self.byte_pos self.end bytes.now }
        ensures stands { result.range ≡ write_range image.old self bytes.now }
        ensures lent { image.new ≡ write_image image.old self.byte_pos self.end bytes.now }
    {
        match self.checked(image) {
            Ok(()) => self.write_words(image, bytes),
            Err(x) => Standing {
                answer: Err(x),
                range: self,
            },
        }
    }

    // Writes words while the position is before the end and bytes remain.
    fn write_words(self, image: &mut [u8], bytes: &[u8]) -> Standing<Pos>
        requires { self.end ≤ image_most }
        ensures said { said_writing result.answer ≡ write_in (length image.old) self.byte_pos self.end (length bytes.now) }
        ensures stands { result.range ≡ standing self (self.byte_pos + 2 * words_written (length image.old) self.byte_pos self.end (length bytes.now)) }
        ensures lent { image.new ≡ words_laid image.old self.byte_pos (words_written (length image.old) self.byte_pos self.end (length bytes.now)) bytes.now }
    {
        let mut at = self.byte_pos;
        let mut n = 0;
        // A `while`: a `for` over the words of the data would end on the range's end by a `break`, and count the position by hand as well, so it is no plainer.
        while at < self.end && n < bytes.len() {
            if POS_MOST < at + 2 {
                return self.stands_at(at, Err(Refusal::Address));
            }
            let start_word = (at / 2) as usize;
            if 2 * start_word + 2 > image.len() {
                return self.stands_at(at, Err(Refusal::NotWritable));
            }
            write_word(image, start_word, bytes[n], or_pad(bytes, n + 1));
            at += 2;
            n += 2;
        }
        self.stands_at(at, Ok(n as Pos))
    }

    // A write's answer, and the range at the position where it then stands.
    fn stands_at(self, byte_pos: Pos, answer: Result<Pos, Refusal>) -> Standing<Pos>
        ensures { result ≡ record { answer = answer; range = standing self byte_pos } }
    {
        Standing {
            answer,
            range: self.moved_to(byte_pos),
        }
    }

    // The range, at another position.
    fn moved_to(self, byte_pos: Pos) -> Range
        ensures { result ≡ standing self byte_pos }
    {
        Range {
            byte_pos,
            end: self.end,
        }
    }

    // Position and end are within the limit, and the end is even.
    #[tactic(auto, unfolding(crate::specs::Image::in_bounds))]
    fn is_in_bounds(self) -> bool
        ensures { result ≡ in_bounds self.byte_pos self.end }
    {
        self.byte_pos <= POS_MOST && self.end % 2 == 0 && self.end <= POS_MOST
    }

    // .. and the image is not too long: else 14.
    #[tactic(auto, unfolding(crate::specs::Image::fine))]
    fn checked(self, image: &[u8]) -> Result<(), Refusal>
        ensures { MatchResult result (λ _. fine image.now self.byte_pos self.end ≡ true) (λ x. (x ≡ Refusal.BadArgument) × (fine image.now self.byte_pos self.end ≡ false)) }
    {
        if image_within(image) && self.is_in_bounds() {
            Ok(())
        } else {
            Err(Refusal::BadArgument)
        }
    }

    // The byte at the position, which must lie before the end (2), and below the largest position (1). No end lies above that, so 1 is never met (`byte_never_1`).
    #[tactic(auto, unfolding(crate::specs::Range::byte_in))]
    fn byte_in(self, image: &[u8], chunk: Chunk) -> Result<(u8, Range), Refusal>
        ensures { said_byte result ≡ byte_in image.now self.byte_pos self.end }
    {
        let pos = self.byte_pos;
        if pos >= self.end {
            return Err(Refusal::Overrun);
        }
        if pos >= POS_MOST {
            return Err(Refusal::Address);
        }
        Ok((byte_of(image, chunk, pos), self.moved_to(pos + 1)))
    }

    // How many bytes are left of the range.
    fn left(self) -> usize
        ensures { result ≡ self.end - self.byte_pos }
    {
        self.end.saturating_sub(self.byte_pos) as usize
    }
}

// Whether n bytes are all of k.
fn all_of(n: usize, k: usize) -> Result<(), Refusal>
    ensures { said_exact result ≡ all_said n k }
{
    if n < k { Err(Refusal::Overrun) } else { Ok(()) }
}

// Lays m bytes of one chunk, the image's from pos on, over buf from at on.
fn lay_chunk(image: &[u8], chunk: Chunk, pos: u32, m: usize, buf: &mut [u8], at: usize)
    requires { (pos % 2 + m ≤ width_of chunk) × (at + m ≤ length buf.old) }
    ensures { buf.new ≡ overlay buf.old at (span image.now pos m) }
{
    let bytes = read_chunk(image, pos / 2, chunk);
    let odd = (pos % 2) as usize;
    lay(buf, at, &bytes[odd..odd + m]);
}

// Fills buf with the image's bytes from pos on, a chunk at a time. A chunk starts at a word.
fn read_chunks(image: &[u8], chunk: Chunk, pos: u32, buf: &mut [u8])
    requires { pos + length buf.old ≤ long_most }
    ensures { buf.new ≡ span image.now pos (length buf.old) }
{
    let wide = chunk.width();
    let mut done = 0;
    // A `while` and no `for`: a first chunk that is met at its word's second byte has one byte less.
    while done < buf.len() {
        let at = pos + (done as u32);
        let m = (wide - (at % 2) as usize).min(buf.len() - done);
        lay_chunk(image, chunk, at, m, buf, done);
        done += m;
    }
}

// The byte at i, or the 0 that pads an odd last one.
fn or_pad(bytes: &[u8], i: usize) -> u8
    ensures { result ≡ get_or bytes.now i 0 }
{
    bytes.get(i).copied().unwrap_or(0)
}

// Writes a word.
fn write_word(image: &mut [u8], start_word: usize, low: u8, high: u8)
    requires { 2 * start_word + 2 ≤ length image.old }
    ensures { image.new ≡ overlay image.old (2 * start_word) (low ∷ high ∷ []) }
{
    lay(image, 2 * start_word, &[low, high]);
}
