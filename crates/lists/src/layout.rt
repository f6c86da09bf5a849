// Where the fields lie of the records that the SII's lists are made of, in bytes, and how many are listed: specs/Layout.antt, under the same names.
// A record's first field stands where the record does.

// ---- sync managers

pub(crate) const SM_BYTES: u32 = 8;

pub(crate) const SM_MOST: usize = 8;

pub(crate) const SM_LENGTH: u32 = 2;

pub(crate) const CONTROL_REGISTER: u32 = 4;

// The values of the control register's flags.
pub(crate) const ECAT_EVENT: u8 = 16;

pub(crate) const DLS_USER_EVENT: u8 = 32;

pub(crate) const WATCHDOG: u8 = 64;

pub(crate) const MAILBOX_MODE: u8 = 2;

pub(crate) const DIRECTION_LAST: u8 = 1;

pub(crate) const ENABLE_SYNC_M: u32 = 6;

pub(crate) const ENABLE_BELOW: u8 = 16;

pub(crate) const SYNC_M_TYPE: u32 = 7;

pub(crate) const SYNC_M_TYPE_LAST: u8 = 4;

// The usages of a sync manager.
pub(crate) const MAILBOX_WRITE: u8 = 1;

pub(crate) const MAILBOX_READ: u8 = 2;

pub(crate) const PROCESS_DATA_WRITE: u8 = 3;

pub(crate) const PROCESS_DATA_READ: u8 = 4;

// ---- FMMUs

pub(crate) const FMMU_MOST: usize = 16;

pub(crate) const FMMU_BYTES: u32 = 1;

pub(crate) const FMMU_USAGE_LAST: u8 = 3;

pub(crate) const FMMU_UNUSED: u8 = 255;

pub(crate) const EX_BYTES: u32 = 3;

pub(crate) const EX_SYNC_M: u32 = 1;

// ---- PDOs

pub(crate) const PDO_MOST: usize = 64;

pub(crate) const PDO_BYTES: u32 = 8;

pub(crate) const N_ENTRY: u32 = 2;

pub(crate) const PDO_SYNC_M: u32 = 3;

pub(crate) const ENTRY_BYTES: u32 = 8;

pub(crate) const BIT_LENGTH: u32 = 5;
