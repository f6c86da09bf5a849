// `morel spread`: how a process image is cut over fresh areas, and the frames. Logical writes, from address 0 on.
ghost use Rattle.std.specs.Prelude.{◌*◌, ◌≤◌};
ghost use Rattle.pdu.specs.Pdu.{area_most};
ghost use Rattle.spread.specs.Row.{areas_most};

use crate::frame::COMMANDS;
use crate::report::Report;
use crate::shown::{Bytes, Hex, Named};
use created_frame::Builder;
use pdu::{AREA_MOST, PDU_OVERHEAD_BYTES};

// The PDUs' command, by the number that `spread` takes, and the address of the first.
const LWR: u8 = 11;

const ADDRESS: u32 = 0;

// The most areas that a row may have, and the most bytes.
const AREAS_MOST: usize = 32;

const ROW_MOST: usize = AREAS_MOST * AREA_MOST;

// An area that no PDU is in.
const FRESH: Builder = Builder {
    used: 0,
    count: 0,
    last: 0,
};

pub(crate) fn cut(
    report: &mut Report<'_, impl Print>,
    image: &[u8],
    size: Option<u32>,
    areas: Option<u32>,
) {
    let Some(size) = size else {
        report.error("SIZE is no number of 32 bits");
        return;
    };
    let Some(areas) = areas else {
        report.error("AREAS is no number of 32 bits");
        return;
    };
    report.line("area bytes", size);
    report.line("areas", areas);
    report.line("pdu command", Named(LWR, &COMMANDS));
    report.line("pdu address", Hex::from(ADDRESS));
    spread_over(report, image, size as usize, areas as usize);
}

// The bytes of a row of areas. None where the bounds are passed: spreading over no area is refused as it is over such a row.
fn row_bytes(size: usize, areas: usize) -> usize
    ensures { result ≤ areas_most * area_most }
{
    if AREA_MOST < size || AREAS_MOST < areas {
        0
    } else {
        size * areas
    }
}

// Not inlined, so that the row takes no stack from the other commands. Its room stands first: what stands before it would have it zeroed twice.
#[inline(never)]
fn spread_over(report: &mut Report<'_, impl Print>, image: &[u8], size: usize, areas: usize) {
    let mut room = [0u8; ROW_MOST];
    let row = &mut room[..row_bytes(size, areas)];
    let spreading = spread::spread(row, size, FRESH, 0, LWR, ADDRESS, image);
    let Some(last) = report.record("last area", false, spreading.answer) else {
        return;
    };
    report.line("last area", last);
    let mut from = 0usize;
    // A size of 0 is refused.
    let pieces = row.chunks(size.max(1));
    for (place, (state, area)) in spreading.states.iter().zip(pieces).take(last).enumerate() {
        piece(report, place, from, area.get(..state.used).unwrap_or(area));
        from = from.saturating_add(carried(state.used));
    }
}

// How many bytes of the image an area carries that has so many bytes used.
fn carried(used: usize) -> usize {
    used.saturating_sub(PDU_OVERHEAD_BYTES)
}

// An area's piece of the image, and its frame: header and PDUs. Areas count from 1, the indices of their PDUs from 0.
fn piece(report: &mut Report<'_, impl Print>, place: usize, from: usize, pdus: &[u8]) {
    let number = place.saturating_add(1);
    report.item("area", number, "pdu index", place);
    report.item("area", number, "image from", from);
    report.item("area", number, "image bytes", carried(pdus.len()));
    let label = format_args!("area {number} frame");
    match pdu::frame_header(pdus.len()) {
        Ok(header) => report.line(label, format_args!("{}{}", Bytes(&header), Bytes(pdus))),
        Err(refusal) => report.refused(label, refusal),
    }
}
