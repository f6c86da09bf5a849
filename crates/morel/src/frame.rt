// `morel frame`: the PDUs of a frame.
use crate::report::Report;
use crate::shown::{Bytes, Hex, Named, YesOrNo};
use pdu::PduFields;

pub(crate) const COMMANDS: [&str; 15] = [
    "NOP", "APRD", "APWR", "APRW", "FPRD", "FPWR", "FPRW", "BRD", "BWR", "BRW", "LRD", "LWR",
    "LRW", "ARMW", "FRMW",
];

// Not inlined, so that the PDUs' fields take no stack from the other commands.
#[inline(never)]
pub(crate) fn print(report: &mut Report<'_, impl Print>, frame: &[u8]) {
    if let Some(read) = report.record("pdus", false, frame_reader::read_frame(frame)) {
        report.line("pdus", read.count);
        for (i, pdu) in read.pdus.iter().take(read.count).enumerate() {
            fields(report, i, pdu);
            payload(report, i, bytes(frame, pdu));
        }
    }
}

fn fields(report: &mut Report<'_, impl Print>, i: usize, pdu: &PduFields) {
    report.item("pdu", i, "command", Named(pdu.command, &COMMANDS));
    report.item("pdu", i, "index", pdu.index);
    report.item("pdu", i, "address", Hex::from(pdu.address));
    report.item("pdu", i, "bytes", pdu.len);
    report.item("pdu", i, "circulating", YesOrNo(pdu.circulated));
    report.item("pdu", i, "more follows", YesOrNo(pdu.more_follows));
    report.item("pdu", i, "irq", Hex::from(pdu.irq));
    report.item("pdu", i, "working counter", pdu.counter);
}

fn payload(report: &mut Report<'_, impl Print>, i: usize, bytes: &[u8]) {
    if bytes.is_empty() {
        report.item("pdu", i, "payload", "-");
    } else {
        report.item("pdu", i, "payload", Bytes(bytes));
    }
}

// A PDU's payload, which lies whole in its frame.
fn bytes<'a>(frame: &'a [u8], pdu: &PduFields) -> &'a [u8] {
    let rest = frame.get(pdu.place..).unwrap_or(&[]);
    rest.get(..usize::from(pdu.len)).unwrap_or(rest)
}
