// Spreading a process image over a row of areas. The row takes the next index, how many areas have a state, and three numbers of each.
ghost use Rattle.std.specs.Prelude.{◌≡◌};
ghost use Rattle.spread.specs.Row.{spread_of};
ghost use Rattle.export.specs.Told.{code_of, state_of, run_over};

// The image goes over the areas of the row, each of `size` bytes, as logical PDUs of this command from this address on.
// The first area has the state (used, count, last); the answer's number is that of the last area that has a PDU of the image, 0 for no image.
#[unsafe(no_mangle)]
pub extern "C" fn morel_spread(
    areas: &mut [u8],
    size: usize,
    used: usize,
    count: usize,
    last: usize,
    index: u8,
    command: u8,
    address: u32,
    image: &[u8],
    out: &mut [u64],
) -> u8
    ensures code { result ≡ code_of (spread_of areas.old size (state_of used count last) index command address image.now).said }
    ensures bytes { areas.new ≡ (spread_of areas.old size (state_of used count last) index command address image.now).run.areas }
    ensures lent { out.new ≡ run_over out.old (spread_of areas.old size (state_of used count last) index command address image.now).run }
{
    export::spreading::morel_spread(
        areas, size, used, count, last, index, command, address, image, out,
    )
}
