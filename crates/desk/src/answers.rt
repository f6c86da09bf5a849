// The text of answers.
use crate::room::Room;
use crate::words::{BYTES_MOST, LINE_MOST};
use refusal::Refusal;
use std::io;

// A line that can't be read.
pub(crate) const UNREADABLE: Refusal = Refusal::BadArgument;

// A request is answered, or it is refused and has said nothing: its line can't be read, or its call refuses and nothing else is said.
pub(crate) type Answered = Result<(), Refusal>;

// An item of a list that an answer gives.
pub(crate) trait Item: Copy {
    // Its numbers.
    fn say(self, answers: &mut Answers);
}

// Where more bytes of answers wait than these, they are written out at once.
const WAITING_MOST: usize = LINE_MOST / 2;

// More bytes than an answer has beside the digits of the slice that it gives back: 98 numbers at most, those of a spreading over 32 areas, each of 20
// digits and a space at most.
const BEFORE_SLICE_MOST: usize = 4096;

// The longest answer. One that gives no slice back is shorter: that of a frame of 170 PDUs has 1,531 numbers.
const ANSWER_MOST: usize = BEFORE_SLICE_MOST + 2 * BYTES_MOST;

// What may wait, and an answer behind it.
pub(crate) const TEXT_MOST: usize = WAITING_MOST + ANSWER_MOST;

// The answers that wait to be written out, a line each.
#[derive(Drop)]
pub(crate) struct Answers<'a> {
    text: Room<'a>,
}

impl<'a> Answers<'a> {
    pub(crate) fn new(room: &'a mut [u8]) -> Answers<'a> {
        Answers {
            text: Room::new(room),
        }
    }

    // Writes them out.
    pub(crate) fn write_out<R: Print>(&mut self, rt: &R) -> io::Result<()> {
        if !self.text.is_empty() {
            rt.write_all(self.text.as_slice())?;
            self.text.clear();
        }
        Ok(())
    }

    // Writes them out, if there are too many to wait.
    pub(crate) fn write_out_many<R: Print>(&mut self, rt: &R) -> io::Result<()> {
        if self.text.len() > WAITING_MOST {
            self.write_out(rt)?;
        }
        Ok(())
    }

    // A number, a space before it.
    fn say_number(&mut self, n: u64) {
        self.text.say(b" ");
        self.text.say_decimal(n);
    }

    pub(crate) fn end_line(&mut self) {
        self.text.say(b"\n");
    }

    // More numbers of an answer or a record.
    pub(crate) fn numbers(&mut self, numbers: &[u64]) {
        for n in numbers {
            self.say_number(*n);
        }
    }

    pub(crate) fn gives(&mut self, values: &[u64]) {
        self.text.say(b"gives");
        self.numbers(values);
    }

    pub(crate) fn gives_one<T: Into<u64>>(&mut self, value: T) {
        self.gives(&[value.into()]);
    }

    pub(crate) fn gives_if_any<T: Into<u64>>(&mut self, value: Option<T>) {
        match value {
            Some(value) => self.gives_one(value),
            None => self.absent(),
        }
    }

    // A list's count, and the numbers of each of its items. It takes no slice of as many: that a list has no more items than places is a law
    // of its crate and no type's, and calls that cut the slice did not prove without a proof file each.
    pub(crate) fn gives_list<T: Item>(&mut self, items: &[T], count: usize) {
        self.gives(&[count as u64]);
        for item in items.iter().take(count) {
            item.say(self);
        }
    }

    pub(crate) fn absent(&mut self) {
        self.text.say(b"absent");
    }

    pub(crate) fn refuses(&mut self, x: Refusal) {
        self.text.say(b"refuses");
        self.say_number(u64::from(refusal::number(x)));
        let values = refusal::values(x);
        for n in values.items.iter().take(values.count) {
            self.say_number(*n);
        }
    }

    // What a call says that gives these values.
    pub(crate) fn says<const N: usize>(&mut self, answer: Result<[u64; N], Refusal>) {
        match answer {
            Ok(values) => self.gives(&values),
            Err(x) => self.refuses(x),
        }
    }

    // .. that gives one value.
    pub(crate) fn says_one<T: Into<u64>>(&mut self, answer: Result<T, Refusal>) {
        match answer {
            Ok(value) => self.gives_one(value),
            Err(x) => self.refuses(x),
        }
    }

    // .. that gives one value or none.
    pub(crate) fn says_if_any<T: Into<u64>>(&mut self, answer: Result<Option<T>, Refusal>) {
        match answer {
            Ok(value) => self.gives_if_any(value),
            Err(x) => self.refuses(x),
        }
    }

    // .. that says only that it is done.
    pub(crate) fn says_done(&mut self, answer: Result<(), Refusal>) {
        match answer {
            Ok(()) => self.gives(&[]),
            Err(x) => self.refuses(x),
        }
    }

    // A record as it is after the call.
    pub(crate) fn record(&mut self, numbers: &[u64]) {
        self.text.say(b" @");
        self.numbers(numbers);
    }

    // A lent slice as it is after the call.
    pub(crate) fn lent(&mut self, bytes: &[u8]) {
        self.text.say(b" | ");
        self.text.say_hex(bytes);
    }
}
