// Bytes: total reads of 8, 16 and 32 bits, low byte first, and bytes laid over a slice as far as it has room.
// What stands past a slice's end reads as 0xFF, as it does of the EEPROM image (RULES, range).
#![tactic(auto)]

ghost use Rattle.std.specs.Prelude.{◌≡◌, min, length, drop, replicate};
ghost use Rattle.wire.specs.Bytes.{byte_at, le16, le32, laid, bit};

// What a byte reads as where there is none.
const NO_BYTE: u8 = 255;

// The byte at i.
#[tactic(auto, unfolding(crate::specs::Bytes::byte_at))]
pub fn byte_at(s: &[u8], i: usize) -> u8
    ensures { result ≡ byte_at s.now i }
{
    s.get(i).copied().unwrap_or(NO_BYTE)
}

// The 16 bits at i.
#[tactic(auto, using(crate::proofs::Laws::byte_dropped))]
pub fn word_at(s: &[u8], i: usize) -> u16
    ensures { result ≡ le16 s.now i }
{
    let rest = after(s, i);
    u16::from_le_bytes([byte_at(rest, 0), byte_at(rest, 1)])
}

// The 32 bits at i.
#[tactic(auto, using(crate::proofs::Laws::byte_dropped))]
pub fn long_at(s: &[u8], i: usize) -> u32
    ensures { result ≡ le32 s.now i }
{
    let rest = after(s, i);
    u32::from_le_bytes([
        byte_at(rest, 0),
        byte_at(rest, 1),
        byte_at(rest, 2),
        byte_at(rest, 3),
    ])
}

// What stands from i on: past the end nothing does.
fn after(s: &[u8], i: usize) -> &[u8]
    ensures { result.now ≡ drop i s.now }
{
    s.get(i..).unwrap_or(&[])
}

// A test as a number: 1 where it holds, else 0.
pub fn flag(b: bool) -> u64
    ensures { result ≡ bit b }
{
    u64::from(b)
}

// The smaller of two.
pub fn lesser(a: usize, b: usize) -> usize
    ensures { result ≡ min a b }
{
    a.min(b)
}

// Lays src over dst from at on: as much of it as dst has room for.
#[tactic(auto, using(crate::proofs::Laws::laying))]
pub fn lay<T: Copy>(dst: &mut [T], at: usize, src: &[T])
    ensures { dst.new ≡ laid dst.old at src.now }
{
    if at < dst.len() {
        let n = src.len().min(dst.len() - at);
        copy_in(&mut dst[at..at + n], &src[..n]);
    }
}

// Copies src over all of dst, which is as long. By places and no `copy_from_slice`, since that asks a program in C for `memmove`.
fn copy_in<T: Copy>(dst: &mut [T], src: &[T])
    requires { length dst.old ≡ length src.now }
    ensures { dst.new ≡ src.now }
{
    for (i, x) in src.iter().enumerate() {
        dst[i] = *x;
    }
}

// Every byte of the slice takes this value.
pub fn fill(s: &mut [u8], value: u8)
    ensures { s.new ≡ replicate (length s.old) value }
{
    s.fill(value);
}
