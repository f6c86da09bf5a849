// The text of a device's ports, word by word into a lent buffer.
ghost use Rattle.std.specs.Prelude.{◌≡◌, ◌+◌, ◌≤◌, length};
ghost use Rattle.wire.specs.Bytes.{laid, overlay};
ghost use Rattle.ports.specs.Display.{opening, word_of, word_most, words, text_of, text_most};
ghost use Rattle.ports.specs.Ports.{port_count};

use crate::Ports;
use crate::active::count;
use wire::lay;

// The bytes of `ports [ `.
const OPENING_BYTES: usize = 8;

// By how many an active port's word is shorter.
const SHORTER: usize = 2;

// The bytes of the text with no active port.
const TEXT_MOST: usize = 37;

// How long the text is: an active port's word is two bytes shorter.
#[tactic(auto, using(crate::proofs::Words::length_text))]
pub(crate) fn text_len(p: Ports) -> usize
    ensures { result ≡ length (text_of p) }
{
    TEXT_MOST - SHORTER * count(p)
}

// The word of an active port, or of another.
#[tactic(auto, unfolding(crate::specs::Display::word_of))]
fn word_of(active: bool) -> &'static [u8]
    ensures word { result.now ≡ word_of active }
    ensures most { length result.now ≤ word_most }
{
    if active { b"open " } else { b"closed " }
}

// Lays a port's word over the buffer; the place behind it.
fn put_word(buf: &mut [u8], at: usize, active: bool) -> usize
    requires { at ≤ text_most }
    ensures value { (result ≡ at + length (word_of active)) × (result ≤ at + word_most) }
    ensures buf_after { buf.new ≡ laid buf.old at (word_of active) }
{
    let word = word_of(active);
    lay(buf, at, word);
    at + word.len()
}

// Lays the words over the buffer behind the opening; the place behind them.
fn put_words(p: Ports, buf: &mut [u8]) -> usize
    requires { length opening + length (words p port_count) ≤ length buf.old }
    ensures value { result ≡ length opening + length (words p port_count) }
    ensures buf_after { buf.new ≡ overlay buf.old (length opening) (words p port_count) }
{
    let mut at = OPENING_BYTES;
    for q in p.0 {
        at = put_word(buf, at, q.active);
    }
    at
}

// Lays the text over the front of a buffer that is long enough.
#[tactic(auto, using(crate::proofs::Words::text_room, crate::proofs::Words::text_laid))]
pub(crate) fn put_text(p: Ports, buf: &mut [u8])
    requires { length (text_of p) ≤ length buf.old }
    ensures { buf.new ≡ overlay buf.old 0 (text_of p) }
{
    lay(buf, 0, b"ports [ ");
    let at = put_words(p, buf);
    lay(buf, at, b"]");
}
