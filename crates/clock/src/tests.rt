// `lists::read_records` as a crate above `lists` calls it: it is lent places, and how many is known only while the program runs.
// No list of the house goes through it, so no request of the desk reaches it. All values are worked out by hand, from RULES, lists.
use category::SYNC_MANAGER;
use eeprom::Chunk;
use lists::{SyncManager, read_records};
use refusal::Refusal;

// Where the first category of an image stands.
const CATEGORIES: usize = 128;

// The category of three sync managers: its number, its length in words, and each record's start, length, control, status, enable and usage.
const THREE: [u8; 28] = [
    41, 0, 12, 0, // the header
    0x00, 0x10, 0x80, 0, 0x26, 0, 1, 1, // at 0x1000
    0x80, 0x10, 0x80, 0, 0x22, 0, 1, 2, // at 0x1080
    0x00, 0x11, 8, 0, 0x24, 0, 1, 3, // at 0x1100
];

// The enable byte of the third: its usage alone stands behind it.
const THIRD_ENABLE: usize = CATEGORIES + THREE.len() - 2;

// The places there are, two more than records.
const PLACES: usize = 5;

// The start that a lent place holds, which none of the three has.
const UNUSED: u16 = 7;

// An image with the three, the third of which has this enable byte.
fn three(enable: u8) -> [u8; CATEGORIES + THREE.len()] {
    let mut image = [0; CATEGORIES + THREE.len()];
    image[CATEGORIES..].copy_from_slice(&THREE);
    image[THIRD_ENABLE] = enable;
    image
}

// What is answered, and the start that each of the places holds then, where so many of them are lent.
fn reads(image: &[u8], lent: usize) -> (Result<usize, Refusal>, [u16; PLACES]) {
    let unused = SyncManager {
        start_addr: UNUSED,
        ..SyncManager::default()
    };
    let mut places = [unused; PLACES];
    let part = &mut places[..lent.min(PLACES)];
    let answer = read_records::<SyncManager>(image, Chunk::Four, SYNC_MANAGER, part);
    (answer, places.map(|p| p.start_addr))
}

#[test]
fn records_over_lent_places(rt: HostRuntime) {
    let none = [UNUSED; PLACES];
    let one = [0x1000, UNUSED, UNUSED, UNUSED, UNUSED];
    let two = [0x1000, 0x1080, UNUSED, UNUSED, UNUSED];
    let all = [0x1000, 0x1080, 0x1100, UNUSED, UNUSED];
    assert_eq!(rt; reads(&three(1), PLACES), (Ok(3), all));
    assert_eq!(rt; reads(&three(1), 3), (Ok(3), all));
    // one place fewer than there are records, and none
    assert_eq!(rt; reads(&three(1), 2), (Err(Refusal::Capacity), two));
    assert_eq!(rt; reads(&three(1), 0), (Err(Refusal::Capacity), none));
    // an undefined bit of the third's enable byte: 5 before 6
    assert_eq!(rt; reads(&three(0x10), PLACES), (Err(Refusal::Decode), two));
    assert_eq!(rt; reads(&three(0x10), 2), (Err(Refusal::Decode), two));
    assert_eq!(rt; reads(&three(0x10), 1), (Err(Refusal::Capacity), one));
    // no such category
    assert_eq!(rt; reads(&[0; CATEGORIES], PLACES), (Ok(0), none));
}
