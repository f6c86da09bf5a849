// `morel alias`: writes the station alias and the checksum into an image's file, if its checksum is right.
use crate::file::open;
use crate::image::checksum_right;
use crate::report::Report;
use crate::shown::Hex;
use std::fs::{File, OpenOptions};
use std::os::unix::fs::FileExt;
use std::rt::Files;

// The image's front, in which alias and checksum stand.
type Front = [u8; 16];

// Of an image that is shorter no alias can be set.
fn front_of(image: &[u8]) -> Front {
    image.first_chunk().copied().unwrap_or([0; 16])
}

// Nothing is written where the number is none of 16 bits, nor where setting the alias is refused.
pub(crate) fn set<R: Files<File = File> + Print + Eprint + AllocGlobal>(
    report: &mut Report<'_, R>,
    path: &[u8],
    image: &mut [u8],
    number: Option<u16>,
    force: bool,
) {
    let Some(alias) = number else {
        report.error("N is no number from 0 to 65535");
        return;
    };
    let is_right = checksum_right(image);
    let before = front_of(image);
    if let Err(refusal) = sii::set_station_alias(image, alias) {
        report.refused("alias", refusal);
        return;
    }
    if !may_write(report, is_right, force) {
        return;
    }
    let after = front_of(image);
    if written(report.rt(), path, &after) {
        changes(report, &before, &after);
        report.line("alias written", alias);
    } else {
        report.error("the file cannot be written");
    }
}

// Says whether the checksum was right. A file that has a wrong one may be no image at all: it is left alone unless the caller insists.
fn may_write(report: &mut Report<'_, impl Print>, is_right: bool, force: bool) -> bool {
    report.line("checksum before", if is_right { "right" } else { "wrong" });
    let may = is_right || force;
    if !may {
        report.line(
            "alias",
            "not written: the checksum is wrong; add the word force to write it anyway",
        );
        report.wrong();
    }
    may
}

// Whether these bytes stand at the front of the file, which is neither made nor cut. They go there by one call: alias and checksum change together.
fn written<R: Files<File = File> + Eprint + AllocGlobal>(
    rt: &R,
    path: &[u8],
    bytes: &Front,
) -> bool {
    match open(rt, OpenOptions::new().read(true).write(true), path) {
        Some(file) => matches!(file.write_at(bytes, 0), Ok(16)),
        None => false,
    }
}

// The bytes that changed: the place of each, what stood there and what stands there.
fn changes(report: &mut Report<'_, impl Print>, before: &Front, after: &Front) {
    for (place, (old, new)) in before.iter().zip(after.iter()).enumerate() {
        if old != new {
            report.item("byte", place, "before", Hex::from(*old));
            report.item("byte", place, "after", Hex::from(*new));
        }
    }
}
