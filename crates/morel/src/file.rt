// A command's file: opened by its name, and read whole into a lent room.
ghost use Rattle.std.specs.Prelude.{◌≤◌, IfOk, length};

use std::fs::OpenOptions;
use std::io;
use std::io::{ErrorKind, Read};
use std::rt::Files;

// The system's number for bytes that are no text: a file is opened by a name in UTF-8 alone.
const EILSEQ: i32 = 84;

// Why a file's bytes are not there.
#[derive(Clone, Copy)]
pub(crate) enum FileError {
    // It can't be opened or read.
    Unreadable,
    // It has more bytes than it may.
    TooLarge,
}

// Opens the file, or says on standard error, in the system's words, why it is not there to be read or written.
pub(crate) fn open<R: Files + Eprint + AllocGlobal>(
    rt: &R,
    how: &OpenOptions,
    path: &[u8],
) -> Option<R::File> {
    match named(rt, how, path) {
        Ok(file) => Some(file),
        Err(e) => {
            let _ = why_not(rt, path, e);
            None
        }
    }
}

fn named<R: Files>(rt: &R, how: &OpenOptions, path: &[u8]) -> io::Result<R::File> {
    let name = str::from_utf8(path).map_err(|_| io::Error::from_raw_os_error(EILSEQ))?;
    how.open(rt, name)
}

fn why_not(rt: &(impl Eprint + AllocGlobal), path: &[u8], e: io::Error) -> io::Result<()> {
    let name = String::from_utf8_lossy(rt.alloc(), path)?;
    let text = format!(in rt.alloc(); "{e}")?;
    let words = without_number(text.as_str());
    eprintln!(rt; "{name}: {words}")
}

// An error's own text is the system's words and then its number, in brackets.
fn without_number(text: &str) -> &str {
    text.split_once(" (os error ")
        .map_or(text, |(words, _)| words)
}

// Reads the file to the front of a room for as many bytes as it may have, and answers how many it has. One more is asked for behind them: where it
// comes, the file is too large.
pub(crate) fn read<R: Files + Eprint + AllocGlobal>(
    rt: &R,
    path: &[u8],
    room: &mut [u8],
) -> Result<usize, FileError>
    ensures { IfOk result (λ n. n ≤ length room.new) }
{
    let mut file = open(rt, OpenOptions::new().read(true), path).ok_or(FileError::Unreadable)?;
    let n = fill(&mut file, room).map_err(|_| FileError::Unreadable)?;
    match read_some(&mut file, &mut [0u8; 1]) {
        Ok(0) => Ok(n),
        Ok(_) => Err(FileError::TooLarge),
        Err(_) => Err(FileError::Unreadable),
    }
}

// Reads until the room is full or the file ends, and answers how many bytes came.
fn fill(file: &mut impl Read, room: &mut [u8]) -> io::Result<usize>
    ensures { IfOk result (λ n. n ≤ length room.new) }
{
    let mut n = 0;
    while n < room.len() {
        match read_some(file, &mut room[n..])? {
            0 => break,
            got => n += got,
        }
    }
    Ok(n)
}

// What one read gives. One that a signal interrupts is begun again.
fn read_some(file: &mut impl Read, room: &mut [u8]) -> io::Result<usize>
    ensures { IfOk result (λ n. n ≤ length room.new) }
{
    for _ in 0..u64::MAX {
        match file.read(room) {
            Err(e) if e.kind() == ErrorKind::Interrupted => {}
            answer => return answer,
        }
    }
    Err(io::Error::from(ErrorKind::Interrupted))
}
