// A command: what its words say, and what it does with its file.
ghost use Rattle.std.specs.Prelude.{◌≤◌};
ghost use Rattle.eeprom.specs.Image.{image_most};

use crate::file::FileError;
use crate::report::Report;
use crate::shown::Plain;
use crate::words::{PATH_MOST, Word, parse_number};
use crate::{alias, file, frame, image, spreading, words};
use eeprom::IMAGE_MOST;
use pdu::{AREA_MOST, FRAME_HEADER_BYTES};
use std::fs::File;
use std::rt::{Env, Files};

// The most bytes of a frame: its header, and the most that its 11 bits count.
const FRAME_MOST: usize = FRAME_HEADER_BYTES + AREA_MOST;

#[derive(Clone, Copy)]
pub(crate) struct Command<'a> {
    name: &'a str,
    // Which argument names the file.
    file: usize,
    action: Action,
}

// What is done with the file. A number is `None` where its word spells none of so many bits.
#[derive(Clone, Copy)]
enum Action {
    Sii,
    Frame,
    Alias {
        number: Option<u16>,
        force: bool,
    },
    Spread {
        size: Option<u32>,
        areas: Option<u32>,
    },
}

impl Action {
    // The most bytes of the file.
    fn most(self) -> usize
        ensures { result ≤ image_most }
    {
        match self {
            Action::Frame => FRAME_MOST,
            _ => IMAGE_MOST,
        }
    }
}

impl<'a> Command<'a> {
    // The command that these words say.
    pub(crate) fn parsed(words: &'a [Word]) -> Option<Command<'a>> {
        let (first, words) = words.split_first()?;
        let name = str::from_utf8(first.bytes()).ok()?;
        let (file, action) = match (name, words) {
            ("sii", [file]) => (file, Action::Sii),
            ("frame", [file]) => (file, Action::Frame),
            ("alias", [file, number]) => (file, aliased(number.bytes(), false)),
            ("alias", [file, number, force]) if force.bytes() == b"force".as_slice() => {
                (file, aliased(number.bytes(), true))
            }
            ("spread", [size, areas, file]) => (
                file,
                Action::Spread {
                    size: parse_number(size.bytes()),
                    areas: parse_number(areas.bytes()),
                },
            ),
            _ => return None,
        };
        Some(Command {
            name,
            file: file.number,
            action,
        })
    }

    // Reads the file, and does what is to be done with it. Not inlined, so that words that are no command's take no stack for a file. The rooms stand
    // first: what stands before them would have them zeroed twice.
    #[inline(never)]
    pub(crate) fn run<R: Files<File = File> + Env + Print + Eprint + AllocGlobal>(
        self,
        report: &mut Report<'_, R>,
    ) {
        let mut path_room = [0u8; PATH_MOST];
        let mut image = [0u8; IMAGE_MOST];
        let path = words::path(report.rt(), self.file, &mut path_room);
        report.line("command", self.name);
        report.line("file", Plain(path));
        let most = self.action.most();
        let room = &mut image[..most];
        match file::read(report.rt(), path, room) {
            Ok(n) => {
                report.line("file bytes", n);
                self.act(report, path, &mut room[..n]);
            }
            Err(FileError::Unreadable) => report.error("the file cannot be read"),
            Err(FileError::TooLarge) => {
                report.error("the file is too large");
                report.line("bytes at most", most);
            }
        }
    }

    fn act<R: Files<File = File> + Print + Eprint + AllocGlobal>(
        self,
        report: &mut Report<'_, R>,
        path: &[u8],
        bytes: &mut [u8],
    ) {
        match self.action {
            Action::Sii => image::print(report, bytes),
            Action::Frame => frame::print(report, bytes),
            Action::Alias { number, force } => alias::set(report, path, bytes, number, force),
            Action::Spread { size, areas } => spreading::cut(report, bytes, size, areas),
        }
    }
}

fn aliased(word: &[u8], force: bool) -> Action {
    let number = parse_number(word).and_then(|number| u16::try_from(number).ok());
    Action::Alias { number, force }
}
