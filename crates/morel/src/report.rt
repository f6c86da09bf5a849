// The lines of a command on standard output, one fact a line: a label up to a fixed column, then what it says.
// A write that fails stops nothing: the command is done and its status told even if nobody reads its lines.
use crate::shown::Refused;
use crate::status::Status;
use arrayvec::ArrayString;
use refusal::Refusal;
use std::fmt::{Display, Write};

// The column where what a label says begins. No label is longer.
const COLUMN: usize = 28;

// The runtime that prints the lines, whether what they say rests on bytes past the end of an image, and the worst that they told.
#[derive(Drop)]
pub(crate) struct Report<'a, R> {
    rt: &'a R,
    cut: bool,
    status: Status,
}

impl<'a, R: Print> Report<'a, R> {
    pub(crate) fn new(rt: &'a R) -> Report<'a, R> {
        Report {
            rt,
            cut: false,
            status: Status::Answered,
        }
    }

    pub(crate) fn rt(&self) -> &'a R {
        self.rt
    }

    pub(crate) fn status(&self) -> Status {
        self.status
    }

    // From here on each line is marked as cut, or none is.
    pub(crate) fn mark(&mut self, cut: bool) {
        self.cut = cut;
    }

    // Something was refused or is wrong.
    pub(crate) fn wrong(&mut self) {
        self.status = self.status.max(Status::Wrong);
    }

    // A line with no label and no mark.
    pub(crate) fn note(&self, text: impl Display + Drop) {
        let _ = println!(self.rt; "{text}");
    }

    pub(crate) fn line(&mut self, label: impl Display + Drop, value: impl Display + Drop) {
        let mut name = ArrayString::<COLUMN>::new();
        let _ = write!(name, "{label}");
        let mark = if self.cut { " (cut)" } else { "" };
        let _ = println!(self.rt; "{name:<COLUMN$}{value}{mark}");
        if self.cut {
            self.wrong();
        }
    }

    // A line of item `i` of a list.
    pub(crate) fn item(&mut self, list: &str, i: usize, field: &str, value: impl Display + Drop) {
        self.line(format_args!("{list} {i} {field}"), value);
    }

    // A file or words that can't be used.
    pub(crate) fn error(&mut self, text: &str) {
        self.line("error", text);
        self.status = Status::Unusable;
    }

    // A refusal in the place of what a label says.
    pub(crate) fn refused(&mut self, label: impl Display + Drop, refusal: Refusal) {
        self.line(label, Refused(refusal));
        self.wrong();
    }

    // A record of one line.
    pub(crate) fn single<T: Display + Drop>(
        &mut self,
        label: &str,
        cut: bool,
        answer: Result<T, Refusal>,
    ) {
        if let Some(value) = self.record(label, cut, answer) {
            self.line(label, value);
        }
    }

    // Begins a record, whose lines are marked where it is cut, and gives what was answered. A refusal has its line here.
    // Mark and answer stay two parameters: a struct of both would be made at each call to be taken apart here.
    pub(crate) fn record<T>(
        &mut self,
        label: impl Display + Drop,
        cut: bool,
        answer: Result<T, Refusal>,
    ) -> Option<T> {
        self.mark(cut);
        match answer {
            Ok(record) => Some(record),
            Err(refusal) => {
                self.refused(label, refusal);
                None
            }
        }
    }
}
