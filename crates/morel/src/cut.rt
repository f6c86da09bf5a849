// An image that is cut: what lies past its end reads as 0xFF, and what was read there is marked.
use crate::report::Report;
use category::category_inside;
use eeprom::Chunk;

// The end of the size word, and that of the fixed area, in bytes.
pub(crate) const SIZE_END: usize = 126;

pub(crate) const FIXED_END: usize = 128;

// How many bytes the image should have: the EEPROM's by its size word, and where it lacks that word, those of the fixed area.
fn whole_bytes(image: &[u8]) -> usize {
    if image.len() < SIZE_END {
        return FIXED_END;
    }
    sii::size(image, Chunk::Eight).map_or(FIXED_END, |size| size as usize)
}

// The line of an image that has fewer.
pub(crate) fn print(report: &Report<'_, impl Print>, image: &[u8]) {
    let most = whole_bytes(image);
    let missing = most.saturating_sub(image.len());
    if 0 < missing {
        report.note(format_args!(
            "image cut: {missing} of {most} bytes are missing and read as 0xff"
        ));
    }
}

// Whether a byte that the search for a category looks at, or one of the category, is not in the image. A search that is refused in an image that is
// cut may have read a length past its end.
pub(crate) fn category_cut(image: &[u8], number: u16) -> bool {
    match category_inside(image, Chunk::Eight, number) {
        Ok(inside) => !inside,
        Err(_) => image.len() < whole_bytes(image),
    }
}
