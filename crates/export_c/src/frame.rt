// The frame builder and the frame header. A builder's state goes in as numbers and comes back in the row.
ghost use Rattle.std.specs.Prelude.{◌≡◌, length};
ghost use Rattle.pdu.specs.Answers.{header_left};
ghost use Rattle.created_frame.specs.Frame.{opened, after_open, pushed, pushed_builder, pushed_next, after_push, rest_pushed, rest_builder, rest_next, after_rest, can_push};
ghost use Rattle.export.specs.Told.{code_of, row_over, state_of, state_over, bytes_over, header_told};

// Zeroes the area; the row takes the state of an empty one: used, count, last.
#[unsafe(no_mangle)]
pub extern "C" fn morel_open(area: &mut [u8], out: &mut [u64]) -> u8
    ensures code { result ≡ code_of (opened (length area.old)) }
    ensures bytes { area.new ≡ after_open area.old }
    ensures lent { out.new ≡ row_over out.old (opened (length area.old)) }
{
    export::frame::morel_open(area, out)
}

// Pushes a PDU of these bytes, its payload as long as the larger of their count and `over`.
// The row takes the state after it and the next index, and behind them the PDU's place, size, index and command.
#[unsafe(no_mangle)]
pub extern "C" fn morel_push_pdu(
    area: &mut [u8],
    used: usize,
    count: usize,
    last: usize,
    index: u8,
    command: u8,
    address: u32,
    bytes: &[u8],
    over: usize,
    out: &mut [u64],
) -> u8
    ensures code { result ≡ code_of (pushed (length area.old) (state_of used count last) index command (length bytes.now) over) }
    ensures bytes { area.new ≡ after_push area.old (state_of used count last) index command address bytes.now over }
    ensures lent { out.new ≡ state_over out.old
        (pushed_builder (length area.old) (state_of used count last) command (length bytes.now) over)
        (pushed_next (length area.old) (state_of used count last) index command (length bytes.now) over)
        (pushed (length area.old) (state_of used count last) index command (length bytes.now) over) }
{
    export::frame::morel_push_pdu(
        area, used, count, last, index, command, address, bytes, over, out,
    )
}

// Pushes a PDU of the first of these bytes, as many as have room. The row takes the state after it and the next index,
// and behind them how many went in and the PDU's place, size, index and command.
#[unsafe(no_mangle)]
pub extern "C" fn morel_push_pdu_slice_rest(
    area: &mut [u8],
    used: usize,
    count: usize,
    last: usize,
    index: u8,
    command: u8,
    address: u32,
    bytes: &[u8],
    out: &mut [u64],
) -> u8
    ensures code { result ≡ code_of (rest_pushed (length area.old) (state_of used count last) index command (length bytes.now)) }
    ensures bytes { area.new ≡ after_rest area.old (state_of used count last) index command address bytes.now }
    ensures lent { out.new ≡ state_over out.old
        (rest_builder (length area.old) (state_of used count last) command (length bytes.now))
        (rest_next (length area.old) (state_of used count last) index command (length bytes.now))
        (rest_pushed (length area.old) (state_of used count last) index command (length bytes.now)) }
{
    export::frame::morel_push_pdu_slice_rest(
        area, used, count, last, index, command, address, bytes, out,
    )
}

// Whether a PDU of len payload bytes has room: 1 or 0.
#[unsafe(no_mangle)]
pub extern "C" fn morel_can_push_pdu_payload(
    size: usize,
    used: usize,
    count: usize,
    last: usize,
    len: usize,
    out: &mut [u64],
) -> u8
    ensures code { result ≡ code_of (can_push size (state_of used count last) len) }
    ensures lent { out.new ≡ row_over out.old (can_push size (state_of used count last) len) }
{
    export::frame::morel_can_push_pdu_payload(size, used, count, last, len, out)
}

// The two bytes of the header of a frame whose PDUs take this many bytes, at the front of `bytes`; fewer than two are refused. A refusal leaves them.
#[unsafe(no_mangle)]
pub extern "C" fn morel_frame_header(used: usize, bytes: &mut [u8]) -> u8
    ensures code { result ≡ code_of (header_told used (length bytes.old)) }
    ensures lent { bytes.new ≡ bytes_over bytes.old (header_told used (length bytes.old)) (header_left used) }
{
    export::frame::morel_frame_header(used, bytes)
}
