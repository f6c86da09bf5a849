// The frame reader: the row takes how many PDUs the frame has, and nine numbers of each.
ghost use Rattle.std.specs.Prelude.{◌≡◌};
ghost use Rattle.pdu.specs.Read.{read_of, pdus_of};
ghost use Rattle.frame_reader.specs.Answers.{read_said};
ghost use Rattle.export.specs.Told.{code_of, pdus_over};

// The PDUs of a frame: how many, and of each its command, index, address, length, circulated, more-follows, IRQ, payload's place and working counter.
// Where the bytes are no frame it is refusal 12, and no PDUs.
#[unsafe(no_mangle)]
pub extern "C" fn morel_read_frame(frame: &[u8], out: &mut [u64]) -> u8
    ensures code { result ≡ code_of (read_said (read_of frame.now)) }
    ensures lent { out.new ≡ pdus_over out.old (pdus_of (read_of frame.now)) }
{
    export::reader::morel_read_frame(frame, out)
}
