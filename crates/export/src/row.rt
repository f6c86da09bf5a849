// How an answer is told to another language: a code comes back, and the values go over the front of a lent row, as many as have room.
// What can be told is a type with `Told`; the calls are told by `tell` and `tell_if_any`, whatever they give.
ghost use Rattle.std.specs.Prelude.{◌≡◌, ℕ, List, [], ◌≤◌, length};
ghost use mathlib.Core.List.{flat_map};
ghost use Rattle.refusal.specs.Said.{said, said_if_any, said_of, number_value, no_values};
ghost use Rattle.wire.specs.Bytes.{laid};
ghost use Rattle.eeprom.specs.Answers.{range_values};
ghost use Rattle.category.specs.Answers.{bit_values};
ghost use Rattle.sii.specs.Fixed.{identity_values, mailbox_values};
ghost use Rattle.sii.specs.General.{general_values};
ghost use Rattle.pdu.specs.Pdu.{pdus_most};
ghost use Rattle.pdu.specs.Answers.{pdu_values};
ghost use Rattle.created_frame.specs.Answers.{state_values, handle_values, rest_values};
ghost use Rattle.export.specs.Told.{code_of, row_over, before_most, each_most};

use created_frame::{Builder, PduResponseHandle, handle_row, state_row};
use eeprom::Range;
use pdu::{PduFields, pdu_row};
use refusal::Refusal;
use sii::{DefaultMailbox, SiiGeneral, SubDeviceIdentity, general_row, identity_row, mailbox_row};

// The code of an answer that gives values. Codes are numbers, as C has no Result: a refusal's code is its number.
pub(crate) const GIVES: u8 = 0;

// The code of an answer that is absent, which leaves its row alone: a number for C too, above those of the refusals.
pub(crate) const ABSENT: u8 = 255;

// How many numbers a builder's state takes of the row.
pub(crate) const STATE_NUMBERS: usize = 3;

// What an answer gives, as numbers.
pub(crate) trait Told: Copy {
    ghost values: { Self → List ℕ };

    // The numbers over the row from at on, as many as have room.
    fn put(self, row: &mut [u64], at: usize)
        ensures { row.new ≡ laid row.old at (values self) };
}

impl Told for () {
    ghost values = { no_values };

    fn put(self, row: &mut [u64], at: usize) {
        wire::lay(row, at, &[]);
    }
}

impl Told for u16 {
    ghost values = { number_value };

    fn put(self, row: &mut [u64], at: usize) {
        wire::lay(row, at, &[u64::from(self)]);
    }
}

impl Told for u32 {
    ghost values = { number_value };

    fn put(self, row: &mut [u64], at: usize) {
        wire::lay(row, at, &[u64::from(self)]);
    }
}

impl Told for bool {
    ghost values = { bit_values };

    fn put(self, row: &mut [u64], at: usize) {
        let one_if_so = u64::from(self);
        wire::lay(row, at, &[one_if_so]);
    }
}

impl Told for Range {
    ghost values = { range_values };

    fn put(self, row: &mut [u64], at: usize) {
        wire::lay(row, at, &[u64::from(self.byte_pos), u64::from(self.end)]);
    }
}

impl Told for SubDeviceIdentity {
    ghost values = { identity_values };

    fn put(self, row: &mut [u64], at: usize) {
        wire::lay(row, at, &identity_row(self));
    }
}

impl Told for DefaultMailbox {
    ghost values = { mailbox_values };

    fn put(self, row: &mut [u64], at: usize) {
        wire::lay(row, at, &mailbox_row(self));
    }
}

impl Told for SiiGeneral {
    ghost values = { general_values };

    fn put(self, row: &mut [u64], at: usize) {
        wire::lay(row, at, &general_row(self));
    }
}

impl Told for Builder {
    ghost values = { state_values };

    fn put(self, row: &mut [u64], at: usize) {
        wire::lay(row, at, &state_row(self));
    }
}

impl Told for PduResponseHandle {
    ghost values = { handle_values };

    fn put(self, row: &mut [u64], at: usize) {
        wire::lay(row, at, &handle_row(self));
    }
}

impl Told for PduFields {
    ghost values = { pdu_values };

    fn put(self, row: &mut [u64], at: usize) {
        wire::lay(row, at, &pdu_row(self));
    }
}

impl Told for (usize, PduResponseHandle) {
    ghost values = { rest_values };

    fn put(self, row: &mut [u64], at: usize) {
        let (taken, pdu) = self;
        let [start, size, index, command] = handle_row(pdu);
        wire::lay(row, at, &[taken as u64, start, size, index, command]);
    }
}

// Some of one kind, of N numbers each, over the row from at on, one behind the other.
pub(crate) fn put_all<T: Told, const N: usize>(row: &mut [u64], at: usize, xs: &[T])
    requires wide { (x : T) → length (T.values x) ≡ N }
    requires small { (at ≤ before_most) × (N ≤ each_most) × (length xs.now ≤ pdus_most) }
    ensures { row.new ≡ laid row.old at (flat_map T.values xs.now) }
{
    let mut place = at;
    for x in xs {
        x.put(row, place);
        place += N;
    }
}

// Tells what is given, or the refusal.
#[tactic(auto, unfolding(crate::specs::Told::row_over))]
pub(crate) fn tell<T: Told>(row: &mut [u64], answer: Result<T, Refusal>) -> u8
    ensures code { result ≡ code_of (said T.values answer) }
    ensures lent { row.new ≡ row_over row.old (said T.values answer) }
{
    match answer {
        Ok(x) => {
            x.put(row, 0);
            GIVES
        }
        Err(x) => refused(row, x),
    }
}

// .. of an answer that may be absent.
#[tactic(auto, using(wire::proofs::Laws::laid_none), unfolding(crate::specs::Told::row_over))]
pub(crate) fn tell_if_any<T: Told>(row: &mut [u64], answer: Result<Option<T>, Refusal>) -> u8
    ensures code { result ≡ code_of (said_if_any T.values answer) }
    ensures lent { row.new ≡ row_over row.old (said_if_any T.values answer) }
{
    match answer {
        Ok(Some(found)) => {
            found.put(row, 0);
            GIVES
        }
        Ok(None) => ABSENT,
        Err(x) => refused(row, x),
    }
}

// The code alone.
pub(crate) fn code_of<T: Copy>(answer: Result<T, Refusal>) -> u8
    ensures { (values : T → List ℕ) → result ≡ code_of (said values answer) }
{
    match answer {
        Ok(_) => GIVES,
        Err(x) => refusal::number(x),
    }
}

// The answer is a refusal.
#[tactic(auto, unfolding(crate::specs::Told::row_over))]
fn refused(row: &mut [u64], x: Refusal) -> u8
    ensures code { result ≡ code_of (said_of x) }
    ensures lent { row.new ≡ row_over row.old (said_of x) }
{
    let v = refusal::values(x);
    wire::lay(row, 0, &v.items[..v.count]);
    refusal::number(x)
}
