// What is read out of the SII's fixed area and of its category General, and setting the station alias.
// Follows subdevice/eeprom.rs and eeprom/types.rs; RULES, read-out. specs/Layout.antt says where each field lies.
#![tactic(auto)]

pub mod layout;

ghost use Rattle.std.specs.Prelude.{◌≡◌, [], ◌∷◌, ◌+◌, ◌/◌, ◌%◌, ◌≤◌, length};
ghost use Rattle.refusal.specs.Said.{said_of};
ghost use Rattle.sii.specs.Layout.{word, place_most, port_status_last, physical_port, physical_memory_address};
ghost use Rattle.sii.specs.Fixed.{alias_said, identity_of, identity_values, identity_said, mailbox_of, mailbox_values, mailbox_said, has_mailbox, size_said, checksum_end, with_alias, with_checksum, set_said, set_image};
ghost use Rattle.sii.specs.General.{listed, general_of, general_values, general_admits, general_in, general_found, general_said, ports_of, port_values, word_in, general_word, ports_said, address_said};
ghost use Rattle.sii.specs.Answers.{said_alias, said_set, said_size, said_identity, said_mailbox, said_found, said_general, said_word, said_ports};

use crate::layout::{
    ADDRESS_OF_TYPES, CHECKSUM, CHECKSUM_END, COE_BELOW, COE_DETAILS, CONFIGURED_STATION_ALIAS,
    CURRENT_ON_EBUS, EOE_DETAILS, FLAGS_BELOW, FOE_DETAILS, GENERAL_BYTES, GENERAL_FLAGS,
    GROUP_IDX, IMG_IDX, MAILBOX_PROTOCOL, MEMORY_SIZE, NAME_IDX, ORDER_IDX,
    PHYSICAL_MEMORY_ADDRESS, PHYSICAL_PORT, PORT_STATUS_LAST, PORTS_OF_TYPES, PRODUCT_CODE,
    PROTOCOLS_BELOW, RECEIVE_MAILBOX_OFFSET, RECEIVE_MAILBOX_SIZE, REVISION_NUMBER,
    SEND_MAILBOX_OFFSET, SEND_MAILBOX_SIZE, SERIAL_NUMBER, UNIT_BYTES, VENDOR_ID, WORD_BYTES,
};
use category::{GENERAL, category};
use crc::crc;
use eeprom::{Chunk, Range, byte_of, checked, long_of, word_of};
use refusal::Refusal;
use wire::{flag, lay};

#[derive(Clone, Copy)]
pub struct SubDeviceIdentity {
    pub vendor_id: u32,
    pub product_id: u32,
    pub revision: u32,
    pub serial: u32,
}

// The standard mailbox: where the SubDevice receives and sends, and the protocols that it knows, a bit each.
#[derive(Clone, Copy)]
pub struct DefaultMailbox {
    pub subdevice_receive_offset: u16,
    pub subdevice_receive_size: u16,
    pub subdevice_send_offset: u16,
    pub subdevice_send_size: u16,
    pub supported_protocols: u8,
}

// The category General.
#[derive(Clone, Copy)]
pub struct SiiGeneral {
    pub group_string_idx: u8,
    pub image_string_idx: u8,
    pub order_string_idx: u8,
    pub name_string_idx: u8,
    pub coe_details: u8,
    pub foe_enabled: bool,
    pub eoe_enabled: bool,
    pub flags: u8,
    // The 16 bits of a signed number of mA.
    pub ebus_current: u16,
    pub ports: PhysicalPorts,
    pub physical_memory_addr: u16,
}

// The kinds of the ports: not used (0), MII, reserved, EBus, fast hot connect.
// They stay numbers: `ports_row` and `general_row` take any, and an enum would ask more of their callers.
#[derive(Clone, Copy)]
pub struct PhysicalPorts {
    pub port0: u8,
    pub port1: u8,
    pub port2: u8,
    pub port3: u8,
}

// ---- the fixed area: an image that is too long is refused with 14, before all else

// The configured station alias.
#[tactic(auto, unfolding(crate::specs::Fixed::lent, crate::specs::Fixed::alias_said))]
pub fn station_alias(image: &[u8], chunk: Chunk) -> Result<u16, Refusal>
    ensures { said_alias result ≡ alias_said image.now }
{
    checked(image)?;
    Ok(word_of(image, chunk, CONFIGURED_STATION_ALIAS))
}

// Sets the configured station alias and the checksum. An image with no room for them is refused with 7; a refusal changes nothing.
#[tactic(auto, unfolding(crate::specs::Fixed::lent, crate::specs::Fixed::set_said, crate::specs::Fixed::set_image))]
pub fn set_station_alias(image: &mut [u8], alias: u16) -> Result<(), Refusal>
    ensures said { said_set result ≡ set_said image.old }
    ensures lent { image.new ≡ set_image image.old alias }
{
    checked(image)?;
    if image.len() < CHECKSUM_END {
        return Err(Refusal::NotWritable);
    }
    put_alias(image, alias);
    put_checksum(image);
    Ok(())
}

fn put_alias(image: &mut [u8], alias: u16)
    requires { checksum_end ≤ length image.old }
    ensures { image.new ≡ with_alias image.old alias }
{
    lay(
        image,
        CONFIGURED_STATION_ALIAS as usize,
        &alias.to_le_bytes(),
    );
}

fn put_checksum(image: &mut [u8])
    requires { checksum_end ≤ length image.old }
    ensures { image.new ≡ with_checksum image.old }
{
    let bytes = [crc(&image[..CHECKSUM]), 0];
    lay(image, CHECKSUM, &bytes);
}

// Vendor, product, revision and serial number.
#[tactic(auto, unfolding(crate::specs::Fixed::lent, crate::specs::Fixed::identity_said))]
pub fn identity(image: &[u8], chunk: Chunk) -> Result<SubDeviceIdentity, Refusal>
    ensures { said_identity result ≡ identity_said image.now }
{
    checked(image)?;
    Ok(identity_in(image, chunk))
}

#[tactic(auto, unfolding(crate::specs::Fixed::identity_of))]
fn identity_in(image: &[u8], chunk: Chunk) -> SubDeviceIdentity
    ensures { result ≡ identity_of image.now }
{
    SubDeviceIdentity {
        vendor_id: long_of(image, chunk, VENDOR_ID),
        product_id: long_of(image, chunk, PRODUCT_CODE),
        revision: long_of(image, chunk, REVISION_NUMBER),
        serial: long_of(image, chunk, SERIAL_NUMBER),
    }
}

// The standard mailbox; an undefined bit of its protocols is refused with 5.
#[tactic(auto, unfolding(crate::specs::Fixed::lent, crate::specs::Fixed::mailbox_said))]
pub fn mailbox_config(image: &[u8], chunk: Chunk) -> Result<DefaultMailbox, Refusal>
    ensures { said_mailbox result ≡ mailbox_said image.now }
{
    checked(image)?;
    let mailbox = mailbox_in(image, chunk);
    if mailbox.supported_protocols < PROTOCOLS_BELOW {
        Ok(mailbox)
    } else {
        Err(Refusal::Decode)
    }
}

#[tactic(auto, unfolding(crate::specs::Fixed::mailbox_of))]
fn mailbox_in(image: &[u8], chunk: Chunk) -> DefaultMailbox
    ensures { result ≡ mailbox_of image.now }
{
    DefaultMailbox {
        subdevice_receive_offset: word_of(image, chunk, RECEIVE_MAILBOX_OFFSET),
        subdevice_receive_size: word_of(image, chunk, RECEIVE_MAILBOX_SIZE),
        subdevice_send_offset: word_of(image, chunk, SEND_MAILBOX_OFFSET),
        subdevice_send_size: word_of(image, chunk, SEND_MAILBOX_SIZE),
        supported_protocols: byte_of(image, chunk, MAILBOX_PROTOCOL),
    }
}

// Whether there is a mailbox, as the Rust tells it: one side's size is enough where it is the sending one.
#[tactic(auto, unfolding(crate::specs::Fixed::has_mailbox))]
pub fn has_mailbox(m: DefaultMailbox) -> bool
    ensures { result ≡ has_mailbox m }
{
    0 < m.subdevice_send_size || (0 < m.supported_protocols && 0 < m.subdevice_receive_size)
}

// The size of the EEPROM in bytes, in full.
#[tactic(auto, unfolding(crate::specs::Fixed::lent, crate::specs::Fixed::size_said))]
pub fn size(image: &[u8], chunk: Chunk) -> Result<u32, Refusal>
    ensures { said_size result ≡ size_said image.now }
{
    checked(image)?;
    let units = word_of(image, chunk, MEMORY_SIZE);
    Ok((u32::from(units) + 1) * UNIT_BYTES)
}

// ---- General

// General; not found is refusal 3.
#[tactic(auto, unfolding(crate::specs::General::general_said, crate::specs::General::needed))]
pub fn general(image: &[u8], chunk: Chunk) -> Result<SiiGeneral, Refusal>
    ensures { said_general result ≡ general_said image.now }
{
    find_general(image, chunk)?.ok_or(Refusal::NoCategory)
}

// General; not found is absent. Refuses what `category` refuses, a category too short for it with 2, and an undefined bit with 5.
#[tactic(auto, using(category::proofs::First::found_within), unfolding(crate::specs::General::general_found, refusal::specs::Said::on2))]
pub fn find_general(image: &[u8], chunk: Chunk) -> Result<Option<SiiGeneral>, Refusal>
    ensures { said_found result ≡ general_found image.now }
{
    match category(image, chunk, GENERAL)? {
        Some(g) => Ok(Some(general_in(image, chunk, g)?)),
        None => Ok(None),
    }
}

// General of the category that was found.
#[tactic(auto, unfolding(crate::specs::General::general_in))]
fn general_in(image: &[u8], chunk: Chunk, g: Range) -> Result<SiiGeneral, Refusal>
    requires { g.byte_pos ≤ place_most }
    ensures { said_general result ≡ general_in image.now g.byte_pos g.end }
{
    if g.end < g.byte_pos + GENERAL_BYTES {
        return Err(Refusal::Overrun);
    }
    let general = general_at(image, chunk, g.byte_pos);
    if admitted(general) {
        Ok(general)
    } else {
        Err(Refusal::Decode)
    }
}

// No undefined bit stands in the CoE details, nor in the flags.
#[tactic(auto, unfolding(crate::specs::General::general_admits))]
fn admitted(general: SiiGeneral) -> bool
    ensures { result ≡ general_admits general }
{
    general.coe_details < COE_BELOW && general.flags < FLAGS_BELOW
}

#[tactic(auto, unfolding(crate::specs::General::listed))]
fn port_status(n: u16) -> u8
    ensures { result ≡ listed port_status_last n }
{
    if n <= PORT_STATUS_LAST { n as u8 } else { 0 }
}

#[tactic(auto, unfolding(crate::specs::General::general_of))]
fn general_at(image: &[u8], chunk: Chunk, at: u32) -> SiiGeneral
    requires { at ≤ place_most }
    ensures { result ≡ general_of image.now at }
{
    let foe = byte_of(image, chunk, at + FOE_DETAILS);
    let eoe = byte_of(image, chunk, at + EOE_DETAILS);
    SiiGeneral {
        group_string_idx: byte_of(image, chunk, at + GROUP_IDX),
        image_string_idx: byte_of(image, chunk, at + IMG_IDX),
        order_string_idx: byte_of(image, chunk, at + ORDER_IDX),
        name_string_idx: byte_of(image, chunk, at + NAME_IDX),
        coe_details: byte_of(image, chunk, at + COE_DETAILS),
        foe_enabled: 0 < foe,
        eoe_enabled: 0 < eoe,
        flags: byte_of(image, chunk, at + GENERAL_FLAGS),
        ebus_current: word_of(image, chunk, at + CURRENT_ON_EBUS),
        ports: port_kinds(word_of(image, chunk, at + PORTS_OF_TYPES)),
        physical_memory_addr: word_of(image, chunk, at + ADDRESS_OF_TYPES),
    }
}

// ---- General's ports and physical memory address by ETG2010's places: a category that ends before them is refused with 2

// The kinds of the ports; General not found is refusal 3.
#[tactic(auto, unfolding(crate::specs::General::ports_said, crate::specs::General::kinds_of))]
pub fn physical_ports(image: &[u8], chunk: Chunk) -> Result<PhysicalPorts, Refusal>
    ensures { said_ports result ≡ ports_said image.now }
{
    Ok(port_kinds(general_word(image, chunk, PHYSICAL_PORT)?))
}

// The address of the ESC's memory where the device's identification stands; General not found is refusal 3.
#[tactic(auto, unfolding(crate::specs::General::address_said))]
pub fn physical_memory_address(image: &[u8], chunk: Chunk) -> Result<u16, Refusal>
    ensures { said_word result ≡ address_said image.now }
{
    general_word(image, chunk, PHYSICAL_MEMORY_ADDRESS)
}

// The number of 16 bits that stands k bytes behind General's first.
#[tactic(auto, using(category::proofs::First::found_within), unfolding(crate::specs::General::general_word, crate::specs::General::needed, refusal::specs::Said::on2))]
fn general_word(image: &[u8], chunk: Chunk, k: u32) -> Result<u16, Refusal>
    requires { k ≤ place_most }
    ensures { said_word result ≡ general_word image.now (word k) }
{
    let g = category(image, chunk, GENERAL)?.ok_or(Refusal::NoCategory)?;
    word_in(image, chunk, g, k)
}

// .. of the category that was found.
#[tactic(auto, unfolding(crate::specs::General::word_in))]
fn word_in(image: &[u8], chunk: Chunk, g: Range, k: u32) -> Result<u16, Refusal>
    requires { (g.byte_pos ≤ place_most) × (k ≤ place_most) }
    ensures { said_word result ≡ word_in image.now (word k) g.byte_pos g.end }
{
    let place = g.byte_pos + k;
    if place + WORD_BYTES <= g.end {
        Ok(word_of(image, chunk, place))
    } else {
        Err(Refusal::Overrun)
    }
}

// Four bits a port, port 0 in the lowest.
fn port_kinds(word: u16) -> PhysicalPorts
    ensures { result ≡ ports_of word }
{
    PhysicalPorts {
        port0: port_status(word % 16),
        port1: port_status(word / 16 % 16),
        port2: port_status(word / 256 % 16),
        port3: port_status(word / 4096 % 16),
    }
}

// ---- each record as the numbers that an answer gives, in their order: functions by their names and no `From`, since each is a public call with a row in `pinned`

pub fn identity_row(d: SubDeviceIdentity) -> [u64; 4]
    ensures { result ≡ identity_values d }
{
    [
        u64::from(d.vendor_id),
        u64::from(d.product_id),
        u64::from(d.revision),
        u64::from(d.serial),
    ]
}

pub fn mailbox_row(m: DefaultMailbox) -> [u64; 5]
    ensures { result ≡ mailbox_values m }
{
    [
        u64::from(m.subdevice_receive_offset),
        u64::from(m.subdevice_receive_size),
        u64::from(m.subdevice_send_offset),
        u64::from(m.subdevice_send_size),
        u64::from(m.supported_protocols),
    ]
}

pub fn ports_row(p: PhysicalPorts) -> [u64; 4]
    ensures { result ≡ port_values p }
{
    [
        u64::from(p.port0),
        u64::from(p.port1),
        u64::from(p.port2),
        u64::from(p.port3),
    ]
}

pub fn general_row(g: SiiGeneral) -> [u64; 14]
    ensures { result ≡ general_values g }
{
    [
        u64::from(g.group_string_idx),
        u64::from(g.image_string_idx),
        u64::from(g.order_string_idx),
        u64::from(g.name_string_idx),
        u64::from(g.coe_details),
        flag(g.foe_enabled),
        flag(g.eoe_enabled),
        u64::from(g.flags),
        u64::from(g.ebus_current),
        u64::from(g.ports.port0),
        u64::from(g.ports.port1),
        u64::from(g.ports.port2),
        u64::from(g.ports.port3),
        u64::from(g.physical_memory_addr),
    ]
}
