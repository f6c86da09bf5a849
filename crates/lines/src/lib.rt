// What the programs share: the words of a line, numbers and bytes as text, read and written. Every call is total on any bytes.
// The form of a line is that of docs/DESK.md.
#![tactic(auto)]

ghost use Rattle.std.specs.Prelude.{◌≡◌, true, ◌≤◌, ◌<◌, length};
ghost use Rattle.io.specs.Digits.{hex_digit_ascii as glyphOf};
ghost use Rattle.wire.specs.Bytes.{laid};
ghost use Rattle.lines.specs.Words.{word_length, word_end, word_at};
ghost use Rattle.lines.specs.Numbers.{said_number, digit_of, below, number_from, number_said, decimal_of};
ghost use Rattle.lines.specs.Pairs.{
  said_hex,
  nibble_of,
  all_hex,
  is_bytes,
  bytes_of,
  hex_said,
  hex_room,
  pair_of,
  pairs_of,
  hex_text,
};
ghost use Rattle.lines.specs.Places.{after};

// How many bytes stand before the first space; all, if there is none.
fn word_length(line: &[u8]) -> usize
    ensures { result ≡ word_length line.now }
{
    line.iter().position(|b| *b == b' ').unwrap_or(line.len())
}

// The end of the word that starts at from.
pub fn word_end(line: &[u8], from: usize) -> usize
    ensures { result ≡ word_end line.now from }
{
    match line.get(from..) {
        Some(rest) => from + word_length(rest),
        None => from,
    }
}

// The word that starts at from; an empty one past the line's end.
#[tactic(auto, using(crate::proofs::Laws::word_got))]
pub fn word(line: &[u8], from: usize) -> &[u8]
    ensures { result.now ≡ word_at line.now from }
{
    line.get(from..word_end(line, from)).unwrap_or(&[])
}

// The value of a decimal digit.
#[tactic(auto, using(crate::proofs::Laws::digits), unfolding(crate::specs::Numbers::digit_of))]
fn digit(b: u8) -> Option<u8>
    ensures { result ≡ below 10 (digit_of b) }
{
    match b {
        b'0'..=b'9' => Some(b - b'0'),
        _ => None,
    }
}

// The largest number that a line may hold.
const NUMBER_MOST: u64 = 4294967295;

// What a word's digits say; no digit at all says 0.
fn run(word: &[u8]) -> Option<u64>
    ensures { said_number result ≡ number_from 0 word.now }
{
    let mut v: u64 = 0;
    for b in word {
        v = 10 * v + u64::from(digit(*b)?);
        if NUMBER_MOST < v {
            return None;
        }
    }
    Some(v)
}

// The number that a word spells in decimal, leading zeros allowed.
#[tactic(auto, unfolding(crate::specs::Numbers::number_said))]
pub fn number(word: &[u8]) -> Option<u64>
    ensures { said_number result ≡ number_said word.now }
{
    if word.is_empty() { None } else { run(word) }
}

// The value of a hex digit in lower case.
#[tactic(auto, using(crate::proofs::Laws::digits), unfolding(crate::specs::Pairs::nibble_of))]
fn nibble(b: u8) -> Option<u8>
    ensures { result ≡ below 16 (nibble_of b) }
{
    match b {
        b'0'..=b'9' => Some(b - b'0'),
        b'a'..=b'f' => Some(b - b'a' + 10),
        _ => None,
    }
}

// The value of a byte that is one. By arithmetic and no `match`: of bytes of any kind no branch can tell beforehand whether a digit or a letter comes next.
#[tactic(auto, using(crate::proofs::Laws::nibble_sum))]
fn nibble_value(b: u8) -> u8
    requires { nibble_of b ≤ 15 }
    ensures { result ≡ nibble_of b }
{
    b % 16 + 9 * (b / 64)
}

// Whether a word has hex digits only.
fn all_hex(word: &[u8]) -> bool
    ensures { result ≡ all_hex word.now }
{
    word.iter().all(|b| nibble(*b).is_some())
}

// Whether a word is BYTES.
#[tactic(auto, unfolding(crate::specs::Pairs::is_bytes))]
fn is_bytes(word: &[u8]) -> bool
    ensures { result ≡ is_bytes word.now }
{
    match word {
        [] => false,
        [only] => *only == b'-',
        _ => word.len() % 2 == 0 && all_hex(word),
    }
}

// Each pair's byte at the room's front. By places: nothing is known of what a loop wrote through `iter_mut` under `zip`.
fn put_bytes(word: &[u8], room: &mut [u8], n: usize)
    requires { (is_bytes word.now ≡ true) × (n ≡ length (bytes_of word.now)) × (n ≤ length room.old) }
    ensures { room.new ≡ laid room.old 0 (bytes_of word.now) }
{
    for j in 0..n {
        room[j] = 16 * nibble_value(word[2 * j]) + nibble_value(word[2 * j + 1]);
    }
}

// The bytes that a word spells, laid at the room's front; if it is no BYTES, or they have no room, the room stays.
pub fn hex(word: &[u8], room: &mut [u8]) -> Option<usize>
    ensures result_value { said_hex result ≡ hex_said word.now room.old }
    ensures room_after { room.new ≡ hex_room word.now room.old }
{
    if is_bytes(word) {
        let n = word.len() / 2;
        if n <= room.len() {
            put_bytes(word, room, n);
            return Some(n);
        }
    }
    None
}

// The place after n bytes from k on.
#[tactic(auto, unfolding(crate::specs::Places::after))]
fn next(len: usize, k: usize, n: usize) -> usize
    ensures { result ≡ after len k n }
{
    k + n.min(len.saturating_sub(k))
}

// Lays a text over out from k on, as much of it as has room, and answers the next place.
pub fn say(out: &mut [u8], k: usize, text: &[u8]) -> usize
    ensures value { result ≡ after (length out.old) k (length text.now) }
    ensures out_after { out.new ≡ laid out.old k text.now }
{
    let len = out.len();
    wire::lay(out, k, text);
    next(len, k, text.len())
}

// The same, of a number in decimal.
#[tactic(auto, using(crate::proofs::Laws::decimal_fewest))]
pub fn decimal(out: &mut [u8], k: usize, n: u64) -> usize
    ensures value { result ≡ after (length out.old) k (length (decimal_of n)) }
    ensures out_after { out.new ≡ laid out.old k (decimal_of n) }
{
    let mut digits = [0u8; 20];
    let count = io::decimal(n, &mut digits);
    say(out, k, &digits[..count])
}

// The hex digit of a value below 16.
#[tactic(auto, using(crate::proofs::Laws::digits))]
fn glyph(d: u8) -> u8
    requires { d < 16 }
    ensures { result ≡ glyphOf d }
{
    if d < 10 { 48 + d } else { 87 + d }
}

// A byte's two digits.
fn pair(out: &mut [u8], k: usize, b: u8) -> usize
    ensures value { result ≡ after (length out.old) k 2 }
    ensures out_after { out.new ≡ laid out.old k (pair_of b) }
{
    let text = [glyph(b / 16), glyph(b % 16)];
    say(out, k, &text)
}

// The two digits of each byte.
fn pairs(out: &mut [u8], k: usize, bytes: &[u8]) -> usize
    ensures value { result ≡ after (length out.old) k (length (pairs_of bytes.now)) }
    ensures out_after { out.new ≡ laid out.old k (pairs_of bytes.now) }
{
    let mut p = k;
    for b in bytes {
        p = pair(out, p, *b);
    }
    p
}

// The same, of bytes as pairs of hex digits; `-` for none.
#[tactic(auto, using(crate::proofs::Laws::text_none, crate::proofs::Laws::text_some))]
pub fn hex_out(out: &mut [u8], k: usize, bytes: &[u8]) -> usize
    ensures value { result ≡ after (length out.old) k (length (hex_text bytes.now)) }
    ensures out_after { out.new ≡ laid out.old k (hex_text bytes.now) }
{
    if bytes.is_empty() {
        say(out, k, b"-")
    } else {
        pairs(out, k, bytes)
    }
}
