// The fitter's tool: prints what an EEPROM image or a frame holds, sets an alias, shows how an image is cut over frames.
// docs/MOREL.md has its lines. Every command gets an answer, whatever the files' bytes are.
#![tactic(auto)]

mod alias;
mod command;
mod cut;
mod file;
mod frame;
mod image;
mod records;
mod report;
mod shown;
mod spreading;
mod status;
mod texts;
mod words;

use crate::command::Command;
use crate::report::Report;
use crate::status::Status;
use crate::words::{Word, Words};
use std::fs::File;
use std::rt::{Env, Files};

const USAGE: &str = "no such command, or not its words
usage: morel COMMAND [then COMMAND ..]
  sii FILE                 print what an EEPROM image holds
  frame FILE               print a frame's PDUs
  alias FILE N [force]     write the alias N and the checksum into an EEPROM image; `force`: even if its checksum is wrong
  spread SIZE AREAS FILE   cut a process image over AREAS frames of SIZE bytes
Numbers are decimal, or hex after 0x. Commands joined by the word `then` run one after the other; one that fails stops no other.";

// The commands between the words `then`, in their order, an empty line between two. The worst that happened to one is the status.
fn main(rt: HostRuntime) {
    let is_asked = status::is_asked(&rt);
    let first: usize = if is_asked { 2 } else { 1 };
    let mut worst = Status::Answered;
    let mut words = Words::new();
    for number in first..usize::MAX {
        match Word::read(&rt, number) {
            Some(word) if word.bytes() == b"then".as_slice() => {
                worst = worst.max(run(&rt, words.as_slice()));
                let _ = println!(rt);
                words = Words::new();
            }
            Some(word) => words.push(word),
            None => break,
        }
    }
    worst = worst.max(run(&rt, words.as_slice()));
    if is_asked {
        status::tell(&rt, worst);
    }
}

// Does what the words say.
fn run<R: Files<File = File> + Env + Print + Eprint + AllocGlobal>(
    rt: &R,
    words: &[Word],
) -> Status {
    let mut report = Report::new(rt);
    match Command::parsed(words) {
        Some(command) => command.run(&mut report),
        None => report.error(USAGE),
    }
    report.status()
}
