// The read-outs of an EEPROM image: the fixed area, categories and General. The values of each are those of its answer on paper.
ghost use Rattle.std.specs.Prelude.{◌≡◌};
ghost use Rattle.crc.specs.Crc.{crc_of};
ghost use Rattle.category.specs.Category.{category_said};
ghost use Rattle.category.specs.Inside.{inside_said};
ghost use Rattle.sii.specs.Fixed.{alias_said, set_said, set_image, identity_said, mailbox_said, size_said};
ghost use Rattle.sii.specs.General.{general_said};
ghost use Rattle.export.specs.Told.{code_of, row_over};

use crate::row::{code_of, tell, tell_if_any};
use eeprom::Chunk;

// The CRC-8 of the bytes.
pub fn morel_crc(bytes: &[u8]) -> u8
    ensures { result ≡ crc_of bytes.now }
{
    crc::crc(bytes)
}

// The configured station alias.
pub fn morel_station_alias(image: &[u8], out: &mut [u64]) -> u8
    ensures code { result ≡ code_of (alias_said image.now) }
    ensures lent { out.new ≡ row_over out.old (alias_said image.now) }
{
    tell(out, sii::station_alias(image, Chunk::Eight))
}

// Sets the configured station alias and the checksum; a refusal leaves the image as it is.
pub fn morel_set_station_alias(image: &mut [u8], alias: u16) -> u8
    ensures code { result ≡ code_of (set_said image.old) }
    ensures lent { image.new ≡ set_image image.old alias }
{
    code_of(sii::set_station_alias(image, alias))
}

// Vendor, product, revision and serial number.
pub fn morel_identity(image: &[u8], out: &mut [u64]) -> u8
    ensures code { result ≡ code_of (identity_said image.now) }
    ensures lent { out.new ≡ row_over out.old (identity_said image.now) }
{
    tell(out, sii::identity(image, Chunk::Eight))
}

// The standard mailbox.
pub fn morel_mailbox_config(image: &[u8], out: &mut [u64]) -> u8
    ensures code { result ≡ code_of (mailbox_said image.now) }
    ensures lent { out.new ≡ row_over out.old (mailbox_said image.now) }
{
    tell(out, sii::mailbox_config(image, Chunk::Eight))
}

// The size of the EEPROM in bytes.
pub fn morel_size(image: &[u8], out: &mut [u64]) -> u8
    ensures code { result ≡ code_of (size_said image.now) }
    ensures lent { out.new ≡ row_over out.old (size_said image.now) }
{
    tell(out, sii::size(image, Chunk::Eight))
}

// Where the category of this number starts and ends, in bytes.
pub fn morel_category(image: &[u8], number: u16, out: &mut [u64]) -> u8
    ensures code { result ≡ code_of (category_said image.now number) }
    ensures lent { out.new ≡ row_over out.old (category_said image.now number) }
{
    tell_if_any(out, category::category(image, Chunk::Eight, number))
}

// Whether all that the search for the category of this number looks at, and the category that it finds, lie in the image: 1 or 0.
pub fn morel_category_inside(image: &[u8], number: u16, out: &mut [u64]) -> u8
    ensures code { result ≡ code_of (inside_said image.now number) }
    ensures lent { out.new ≡ row_over out.old (inside_said image.now number) }
{
    tell(out, category::category_inside(image, Chunk::Eight, number))
}

// The category General; not found is refusal 3.
pub fn morel_general(image: &[u8], out: &mut [u64]) -> u8
    ensures code { result ≡ code_of (general_said image.now) }
    ensures lent { out.new ≡ row_over out.old (general_said image.now) }
{
    tell(out, sii::general(image, Chunk::Eight))
}
