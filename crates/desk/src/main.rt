// The desk: requests in, answers out, a line each, in the form of docs/DESK.md. Every line gets an answer, whatever its bytes are.
#![tactic(auto)]

mod answers;
mod input;
mod on_frames;
mod on_lists;
mod on_ports;
mod on_range;
mod on_received;
mod on_setup;
mod on_sii;
mod on_spread;
mod on_strings;
mod requests;
mod room;
mod words;

use crate::answers::{Answers, TEXT_MOST};
use crate::input::{AtHand, CHUNK_BYTES, KEPT_MOST, Taken};
use crate::room::Room;
use crate::words::BYTES_ROOM;
use std::io;
use std::io::Input;

// Rooms of fixed sizes, into which the longest line, its BYTES and its answer fit: the desk asks for no memory.
fn main(rt: HostRuntime) -> io::Result<()> {
    let mut chunk: [u8; CHUNK_BYTES] = zeros();
    let mut line: [u8; KEPT_MOST] = zeros();
    let mut bytes: [u8; BYTES_ROOM] = zeros();
    let mut text: [u8; TEXT_MOST] = zeros();
    serve(&rt, &mut chunk, &mut line, &mut bytes, &mut text)
}

// A room of any size. It is a function of its own, since a proof that goes through so many zeros one by one runs out of stack.
fn zeros<const N: usize>() -> [u8; N] {
    [0; N]
}

// A proved loop has to end, and nothing says that the input does: the turns are a number that no run uses up.
fn serve<R: Input + Print>(
    rt: &R,
    chunk: &mut [u8],
    line: &mut [u8],
    bytes: &mut [u8],
    text: &mut [u8],
) -> io::Result<()> {
    let mut input = AtHand::new(chunk);
    let mut line = Room::new(line);
    let mut answers = Answers::new(text);
    for _ in 0..u64::MAX {
        if input.is_empty() {
            // There may be a wait for the input's next bytes: all answers go out before.
            answers.write_out(rt)?;
            input.read(&mut rt.reader())?;
        }
        match input.take(&mut line) {
            Taken::Part => {}
            Taken::Whole => {
                requests::answer(line.as_slice(), bytes, &mut answers);
                line.clear();
                answers.write_out_many(rt)?;
            }
            Taken::Nothing => break,
        }
    }
    Ok(())
}
