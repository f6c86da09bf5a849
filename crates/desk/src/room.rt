// Bytes at the front of a lent room: a line that comes in, answers that wait to go out. The room is lent, since one that a function gives back is copied
// on the stack where a build does not optimize.

#[derive(Drop)]
pub(crate) struct Room<'a> {
    bytes: &'a mut [u8],
    // So many of them count.
    length: usize,
}

impl<'a> Room<'a> {
    pub(crate) fn new(bytes: &'a mut [u8]) -> Room<'a> {
        Room { bytes, length: 0 }
    }

    pub(crate) fn as_slice(&self) -> &[u8] {
        self.bytes.get(..self.length).unwrap_or(&[])
    }

    pub(crate) fn len(&self) -> usize {
        self.length
    }

    pub(crate) fn is_empty(&self) -> bool {
        self.length == 0
    }

    pub(crate) fn clear(&mut self) {
        self.length = 0;
    }

    // More bytes, as many as there is room for: of a line that is too long not all, of answers all.
    pub(crate) fn say(&mut self, bytes: &[u8]) {
        self.length = lines::say(self.bytes, self.length, bytes);
    }

    // .. a number in decimal.
    pub(crate) fn say_decimal(&mut self, n: u64) {
        self.length = lines::decimal(self.bytes, self.length, n);
    }

    // .. bytes as pairs of hex digits.
    pub(crate) fn say_hex(&mut self, bytes: &[u8]) {
        self.length = lines::hex_out(self.bytes, self.length, bytes);
    }
}
