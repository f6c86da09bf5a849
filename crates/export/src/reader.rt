// The frame reader: the row takes how many PDUs the frame has, and nine numbers of each.
ghost use Rattle.std.specs.Prelude.{◌≡◌, ◌+◌, ◌*◌, ◌≤◌, length, take};
ghost use mathlib.Core.List.{flat_map};
ghost use Rattle.wire.specs.Bytes.{laid};
ghost use Rattle.pdu.specs.Pdu.{pdus_most};
ghost use Rattle.pdu.specs.Answers.{pdu_values};
ghost use Rattle.pdu.specs.Read.{read_of, pdus_of};
ghost use Rattle.frame_reader.specs.Answers.{said_frame, read_said};
ghost use Rattle.export.specs.Told.{code_of, pdus_over};

use crate::row::{GIVES, put_all};
use frame_reader::read_frame;
use pdu::PduFields;

// How many numbers a PDU takes of the row.
const PDU_NUMBERS: usize = 9;

// The PDUs of a frame: how many, and of each its command, index, address, length, circulated, more-follows, IRQ, payload's place and working counter.
// Where the bytes are no frame it is refusal 12, and no PDUs.
pub fn morel_read_frame(frame: &[u8], out: &mut [u64]) -> u8
    ensures code { result ≡ code_of (read_said (read_of frame.now)) }
    ensures lent { out.new ≡ pdus_over out.old (pdus_of (read_of frame.now)) }
{
    match read_frame(frame) {
        Ok(r) => {
            put_pdus(out, &r.pdus[..r.count]);
            GIVES
        }
        Err(x) => {
            put_pdus(out, &[]);
            refusal::number(x)
        }
    }
}

// How many PDUs, and the numbers of each.
fn put_pdus(out: &mut [u64], pdus: &[PduFields])
    requires { length pdus.now ≤ pdus_most }
    ensures { out.new ≡ pdus_over out.old pdus.now }
{
    wire::lay(out, 0, &[pdus.len() as u64]);
    put_all::<PduFields, PDU_NUMBERS>(out, 1, pdus);
}
