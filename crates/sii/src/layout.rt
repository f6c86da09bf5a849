// Where the fields of the SII's fixed area and of its category General lie, in bytes, and what a type admits: specs/Layout.antt, under the same names.

// ---- the fixed area

pub const CONFIGURED_STATION_ALIAS: u32 = 8;

pub const CHECKSUM: usize = 14;

// The first byte behind the checksum.
pub const CHECKSUM_END: usize = 16;

pub const VENDOR_ID: u32 = 16;

pub const PRODUCT_CODE: u32 = 20;

pub const REVISION_NUMBER: u32 = 24;

pub const SERIAL_NUMBER: u32 = 28;

pub const RECEIVE_MAILBOX_OFFSET: u32 = 48;

pub const RECEIVE_MAILBOX_SIZE: u32 = 50;

pub const SEND_MAILBOX_OFFSET: u32 = 52;

pub const SEND_MAILBOX_SIZE: u32 = 54;

pub const MAILBOX_PROTOCOL: u32 = 56;

pub const PROTOCOLS_BELOW: u8 = 64;

pub const MEMORY_SIZE: u32 = 124;

// The bytes of a unit that the memory's size counts.
pub const UNIT_BYTES: u32 = 128;

// ---- General

pub const GENERAL_BYTES: u32 = 18;

pub const GROUP_IDX: u32 = 0;

pub const IMG_IDX: u32 = 1;

pub const ORDER_IDX: u32 = 2;

pub const NAME_IDX: u32 = 3;

pub const COE_DETAILS: u32 = 5;

pub const COE_BELOW: u8 = 64;

pub const FOE_DETAILS: u32 = 6;

pub const EOE_DETAILS: u32 = 7;

pub const GENERAL_FLAGS: u32 = 11;

pub const FLAGS_BELOW: u8 = 32;

pub const CURRENT_ON_EBUS: u32 = 12;

// By types.rs.
pub const PORTS_OF_TYPES: u32 = 14;

pub const ADDRESS_OF_TYPES: u32 = 16;

// By ETG2010.
pub const PHYSICAL_PORT: u32 = 16;

pub const PHYSICAL_MEMORY_ADDRESS: u32 = 18;

// The last listed kind of a port.
pub const PORT_STATUS_LAST: u16 = 4;

// The bytes of a field of 16 bits.
pub const WORD_BYTES: u32 = 2;
