// The strings of an image: the device's name and description, and all strings of the category.
use crate::cut::category_cut;
use crate::report::Report;
use crate::shown::Plain;
use category::STRINGS;
use eeprom::{Chunk, Range};
use refusal::Refusal;
use std::fmt::Display;

// Name and description rest on General too.
pub(crate) fn print(report: &mut Report<'_, impl Print>, image: &[u8], general_cut: bool) {
    let cut = category_cut(image, STRINGS);
    report.mark(general_cut || cut);
    string(
        report,
        "device name",
        |room| strings::device_name(image, Chunk::Eight, room),
    );
    string(
        report,
        "device description",
        |room| strings::device_description(image, Chunk::Eight, room),
    );
    let Some(found) = report.record(
        "strings",
        cut,
        category::category(image, Chunk::Eight, STRINGS),
    ) else {
        return;
    };
    match found {
        Some(range) => all(report, image, range),
        None => report.line("strings", "absent"),
    }
}

// The strings up to the number that the category's first byte gives.
fn all(report: &mut Report<'_, impl Print>, image: &[u8], range: Range) {
    let count = count(image, range);
    report.line("strings", count);
    for i in 1..=count {
        string(
            report,
            format_args!("string {i}"),
            |room| strings::find_string(image, Chunk::Eight, i, room),
        );
    }
}

// The category's first byte; an empty category has none, and no string.
fn count(image: &[u8], range: Range) -> u8 {
    if range.byte_pos == range.end {
        0
    } else {
        eeprom::byte_of(image, Chunk::Eight, range.byte_pos)
    }
}

// A string's line. The crate below allocates nothing: it lays the string into a lent room and answers its length, which is at most 255.
fn string<F: FnOnce(&mut [u8]) -> Result<Option<u16>, Refusal>>(
    report: &mut Report<'_, impl Print>,
    label: impl Display + Drop,
    find: F,
)
    requires { F.IsAlwaysCallable find }
{
    let mut room = [0u8; 255];
    match find(&mut room) {
        Ok(Some(length)) => report.line(
            label,
            Plain(room.get(..usize::from(length)).unwrap_or(&room)),
        ),
        Ok(None) => report.line(label, "absent"),
        Err(refusal) => report.refused(label, refusal),
    }
}
