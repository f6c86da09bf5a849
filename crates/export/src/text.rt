// Strings of an EEPROM image into a lent room: the row takes the text's length, or of refusal 4 the room and the stored length.
ghost use Rattle.std.specs.Prelude.{◌≡◌, length};
ghost use Rattle.strings.specs.Strings.{string_said, length_said, room_behind};
ghost use Rattle.strings.specs.Names.{name_said, description_said};
ghost use Rattle.export.specs.Told.{code_of, row_over};

use crate::row::tell_if_any;
use eeprom::Chunk;

// The string of an index.
pub fn morel_find_string(image: &[u8], index: u8, room: &mut [u8], out: &mut [u64]) -> u8
    ensures code { result ≡ code_of (length_said (string_said image.now index (length room.old))) }
    ensures text { room.new ≡ room_behind (string_said image.now index (length room.old)) room.old }
    ensures lent { out.new ≡ row_over out.old (length_said (string_said image.now index (length room.old))) }
{
    tell_if_any(out, strings::find_string(image, Chunk::Eight, index, room))
}

// The device's name; absent without General.
pub fn morel_device_name(image: &[u8], room: &mut [u8], out: &mut [u64]) -> u8
    ensures code { result ≡ code_of (length_said (name_said image.now (length room.old))) }
    ensures text { room.new ≡ room_behind (name_said image.now (length room.old)) room.old }
    ensures lent { out.new ≡ row_over out.old (length_said (name_said image.now (length room.old))) }
{
    tell_if_any(out, strings::device_name(image, Chunk::Eight, room))
}

// The device's description; without General it is refusal 3.
pub fn morel_device_description(image: &[u8], room: &mut [u8], out: &mut [u64]) -> u8
    ensures code { result ≡ code_of (length_said (description_said image.now (length room.old))) }
    ensures text { room.new ≡ room_behind (description_said image.now (length room.old)) room.old }
    ensures lent { out.new ≡ row_over out.old (length_said (description_said image.now (length room.old))) }
{
    tell_if_any(out, strings::device_description(image, Chunk::Eight, room))
}
