// How the program ends. Where its first word asks for its status, it writes it to a descriptor that its caller opened.
use crate::words::Word;
use std::fs::OpenOptions;
use std::io;
use std::io::Write;
use std::rt::{Env, Files};

// Where the status goes: to descriptor 3, by its name.
const STATUS_FILE: &str = "/dev/fd/3";

// What happened, from the best to the worst.
#[derive(Clone, Copy, PartialEq, Eq, PartialOrd, Ord)]
pub(crate) enum Status {
    // All that was asked for was answered.
    Answered,
    // Something was refused or is wrong, or was read past the end of an image.
    Wrong,
    // A file that cannot be read or written, or words that are no command's.
    Unusable,
}

// Whether the first word asks for the status.
pub(crate) fn is_asked(rt: &impl Env) -> bool {
    Word::read(rt, 1).is_some_and(|word| word.bytes() == b"--status".as_slice())
}

// The status as a digit and a line's end. Where the descriptor is not open, nothing happens.
pub(crate) fn tell(rt: &impl Files, status: Status) {
    let _ = write(rt, status);
}

// At the end of what the descriptor's file has. It is opened to be read too, since to open a pipe that nobody reads for writing alone would wait.
fn write(rt: &impl Files, status: Status) -> io::Result<()> {
    let mut file = OpenOptions::new()
        .read(true)
        .append(true)
        .open(rt, STATUS_FILE)?;
    file.write_all(match status {
        Status::Answered => b"0\n",
        Status::Wrong => b"1\n",
        Status::Unusable => b"2\n",
    })
}
