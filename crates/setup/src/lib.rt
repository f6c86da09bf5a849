// The words of the SII's fixed area that ethercrab does not read: PDI control, bootstrap mailbox, version, and the checksum beside what it should be.
// Follows `SiiCoding` of eeprom/types.rs (ETG2010 Table 2, ETG1000.6 Table 16); specs/Layout.antt says where each field lies.
#![tactic(auto)]

ghost use Rattle.std.specs.Prelude.{◌≡◌, [], ◌∷◌};
ghost use Rattle.refusal.specs.Said.{said_of};
ghost use Rattle.crc.specs.Crc.{crc_of};
ghost use Rattle.setup.specs.Setup.{pdi_of, pdi_values, pdi_said, bootstrap_of, bootstrap_values, bootstrap_said, version_said, summed, checksum_values, checksum_said};
ghost use Rattle.setup.specs.Answers.{said_pdi, said_bootstrap, said_version, said_checksum};

use crc::crc;
use eeprom::{Chunk, byte_of, checked, word_of};
use refusal::Refusal;
use sii::layout::CHECKSUM;

// Where the fields lie, in bytes: specs/Layout.antt, under the same names.
const PDI_CONTROL: u32 = 0;

const PDI_CONFIGURATION: u32 = 2;

const SYNC_IMPULSE_LENGTH: u32 = 4;

const PDI_CONFIGURATION2: u32 = 6;

const BOOTSTRAP_RECEIVE_MAILBOX_OFFSET: u32 = 40;

const BOOTSTRAP_RECEIVE_MAILBOX_SIZE: u32 = 42;

const BOOTSTRAP_SEND_MAILBOX_OFFSET: u32 = 44;

const BOOTSTRAP_SEND_MAILBOX_SIZE: u32 = 46;

const SII_VERSION: u32 = 126;

// What the registers of the PDI and of the sync signals start with.
#[derive(Clone, Copy)]
pub struct PdiControl {
    pub pdi_control: u16,
    pub pdi_configuration: u16,
    // In units of 10 ns.
    pub sync_impulse_length: u16,
    pub pdi_configuration2: u16,
}

// The mailbox of the state Bootstrap: where the SubDevice receives and sends.
#[derive(Clone, Copy)]
pub struct BootstrapMailbox {
    pub subdevice_receive_offset: u16,
    pub subdevice_receive_size: u16,
    pub subdevice_send_offset: u16,
    pub subdevice_send_size: u16,
}

// The checksum that is stored, and the one that the bytes before it have. They are equal where the stored one is right.
#[derive(Clone, Copy)]
pub struct Checksums {
    pub stored: u8,
    pub computed: u8,
}

// ---- an image that is too long is refused with 14, and nothing else is

// The PDI's control and configuration.
#[tactic(auto, unfolding(sii::specs::Fixed::lent, crate::specs::Setup::pdi_said))]
pub fn pdi_control(image: &[u8], chunk: Chunk) -> Result<PdiControl, Refusal>
    ensures { said_pdi result ≡ pdi_said image.now }
{
    checked(image)?;
    Ok(pdi_in(image, chunk))
}

#[tactic(auto, unfolding(crate::specs::Setup::pdi_of))]
fn pdi_in(image: &[u8], chunk: Chunk) -> PdiControl
    ensures { result ≡ pdi_of image.now }
{
    PdiControl {
        pdi_control: word_of(image, chunk, PDI_CONTROL),
        pdi_configuration: word_of(image, chunk, PDI_CONFIGURATION),
        sync_impulse_length: word_of(image, chunk, SYNC_IMPULSE_LENGTH),
        pdi_configuration2: word_of(image, chunk, PDI_CONFIGURATION2),
    }
}

// The bootstrap mailbox.
#[tactic(auto, unfolding(sii::specs::Fixed::lent, crate::specs::Setup::bootstrap_said))]
pub fn bootstrap_mailbox(image: &[u8], chunk: Chunk) -> Result<BootstrapMailbox, Refusal>
    ensures { said_bootstrap result ≡ bootstrap_said image.now }
{
    checked(image)?;
    Ok(bootstrap_in(image, chunk))
}

#[tactic(auto, unfolding(crate::specs::Setup::bootstrap_of))]
fn bootstrap_in(image: &[u8], chunk: Chunk) -> BootstrapMailbox
    ensures { result ≡ bootstrap_of image.now }
{
    BootstrapMailbox {
        subdevice_receive_offset: word_of(image, chunk, BOOTSTRAP_RECEIVE_MAILBOX_OFFSET),
        subdevice_receive_size: word_of(image, chunk, BOOTSTRAP_RECEIVE_MAILBOX_SIZE),
        subdevice_send_offset: word_of(image, chunk, BOOTSTRAP_SEND_MAILBOX_OFFSET),
        subdevice_send_size: word_of(image, chunk, BOOTSTRAP_SEND_MAILBOX_SIZE),
    }
}

// The version of the SII.
#[tactic(auto, unfolding(sii::specs::Fixed::lent, crate::specs::Setup::version_said))]
pub fn version(image: &[u8], chunk: Chunk) -> Result<u16, Refusal>
    ensures { said_version result ≡ version_said image.now }
{
    checked(image)?;
    Ok(word_of(image, chunk, SII_VERSION))
}

// The stored checksum, and that of the words before it.
#[tactic(auto, unfolding(sii::specs::Fixed::lent, crate::specs::Setup::checksum_said))]
pub fn checksum(image: &[u8], chunk: Chunk) -> Result<Checksums, Refusal>
    ensures { said_checksum result ≡ checksum_said image.now }
{
    checked(image)?;
    Ok(Checksums {
        stored: byte_of(image, chunk, CHECKSUM as u32),
        computed: crc(&bytes_summed(image, chunk)),
    })
}

// The bytes that the checksum goes over.
#[tactic(auto, using(wire::proofs::Laws::filled_none))]
fn bytes_summed(image: &[u8], chunk: Chunk) -> [u8; CHECKSUM]
    ensures { result ≡ summed image.now }
{
    let mut bytes = [0; CHECKSUM];
    // No `array::from_fn`: tried, and not proved. The law of such arrays (`Made`) is in `ports`, on which this crate does not rest.
    for i in 0..CHECKSUM {
        bytes[i] = byte_of(image, chunk, i as u32);
    }
    bytes
}

// ---- each record as the numbers that an answer gives, in their order: functions by their names and no `From`, since each is a public call with a row in `pinned`

pub fn pdi_row(p: PdiControl) -> [u64; 4]
    ensures { result ≡ pdi_values p }
{
    [
        u64::from(p.pdi_control),
        u64::from(p.pdi_configuration),
        u64::from(p.sync_impulse_length),
        u64::from(p.pdi_configuration2),
    ]
}

pub fn bootstrap_row(m: BootstrapMailbox) -> [u64; 4]
    ensures { result ≡ bootstrap_values m }
{
    [
        u64::from(m.subdevice_receive_offset),
        u64::from(m.subdevice_receive_size),
        u64::from(m.subdevice_send_offset),
        u64::from(m.subdevice_send_size),
    ]
}

pub fn checksum_row(c: Checksums) -> [u64; 2]
    ensures { result ≡ checksum_values c }
{
    [u64::from(c.stored), u64::from(c.computed)]
}
