// `morel sii`: what an EEPROM image holds, its fixed area and General here. What does not lie whole in the image is marked as cut.
// Report and image stay two parameters: they share nothing, and a struct of both would only put `self.` before each use.
use crate::cut::{FIXED_END, SIZE_END, category_cut};
use crate::report::Report;
use crate::shown::{Flags, Hex, Named, YesOrNo};
use crate::{cut, records, texts};
use eeprom::Chunk;
use setup::Checksums;
use sii::PhysicalPorts;

// Where what is read of the fixed area ends, in bytes.
const PDI_END: usize = 8;

const ALIAS_END: usize = 10;

const CHECKSUM_BYTE_END: usize = 15;

const IDENTITY_END: usize = 32;

const BOOTSTRAP_END: usize = 48;

const MAILBOX_END: usize = 57;

// The names of the bits and of the kinds that a record's fields have.
const PROTOCOLS: [&str; 6] = ["AoE", "EoE", "CoE", "FoE", "SoE", "VoE"];

const COE_DETAILS: [&str; 6] = [
    "sdo",
    "sdo-info",
    "pdo-assign",
    "pdo-config",
    "startup-upload",
    "complete-access",
];

const GENERAL_FLAGS: [&str; 5] = [
    "enable-safe-op",
    "enable-not-lrw",
    "mailbox-dll",
    "ident-al-status",
    "ident-phy-m",
];

const PORTS: [&str; 5] = ["Unused", "Mii", "Reserved", "Ebus", "FastHotConnect"];

pub(crate) fn print(report: &mut Report<'_, impl Print>, image: &[u8]) {
    cut::print(report, image);
    fixed(report, image);
    let general_cut = category_cut(image, category::GENERAL);
    general(report, image, general_cut);
    physical(report, image, general_cut);
    texts::print(report, image, general_cut);
    records::print(report, image);
}

fn fixed(report: &mut Report<'_, impl Print>, image: &[u8]) {
    let size = sii::size(image, Chunk::Eight);
    report.single("sii bytes", image.len() < SIZE_END, size);
    let version = setup::version(image, Chunk::Eight);
    report.single("sii version", image.len() < FIXED_END, version);
    checksum(report, image);
    let alias = sii::station_alias(image, Chunk::Eight);
    report.single("alias", image.len() < ALIAS_END, alias);
    pdi(report, image);
    identity(report, image);
    bootstrap(report, image);
    mailbox(report, image);
}

// A checksum that is wrong is nothing that was refused, and yet the image is not as it should be.
fn checksum(report: &mut Report<'_, impl Print>, image: &[u8]) {
    let answer = setup::checksum(image, Chunk::Eight);
    if let Some(sums) = report.record("checksum", image.len() < CHECKSUM_BYTE_END, answer) {
        if is_right(sums) {
            report.line("checksum", "right");
        } else {
            report.line("checksum", "wrong");
            report.wrong();
        }
        report.line("checksum stored", Hex::from(sums.stored));
        report.line("checksum computed", Hex::from(sums.computed));
    }
}

// Whether the stored checksum is that of the bytes before it.
fn is_right(sums: Checksums) -> bool {
    sums.stored == sums.computed
}

// .. of an image; one whose checksum is refused has no right one.
pub(crate) fn checksum_right(image: &[u8]) -> bool {
    setup::checksum(image, Chunk::Eight).is_ok_and(is_right)
}

fn pdi(report: &mut Report<'_, impl Print>, image: &[u8]) {
    let answer = setup::pdi_control(image, Chunk::Eight);
    if let Some(pdi) = report.record("pdi control", image.len() < PDI_END, answer) {
        report.line("pdi control", Hex::from(pdi.pdi_control));
        report.line("pdi configuration", Hex::from(pdi.pdi_configuration));
        report.line("sync impulse length", pdi.sync_impulse_length);
        report.line("pdi configuration 2", Hex::from(pdi.pdi_configuration2));
    }
}

fn identity(report: &mut Report<'_, impl Print>, image: &[u8]) {
    let answer = sii::identity(image, Chunk::Eight);
    if let Some(identity) = report.record("identity", image.len() < IDENTITY_END, answer) {
        report.line("vendor", Hex::from(identity.vendor_id));
        report.line("product", Hex::from(identity.product_id));
        report.line("revision", Hex::from(identity.revision));
        report.line("serial", Hex::from(identity.serial));
    }
}

fn bootstrap(report: &mut Report<'_, impl Print>, image: &[u8]) {
    let answer = setup::bootstrap_mailbox(image, Chunk::Eight);
    if let Some(boot) = report.record("bootstrap", image.len() < BOOTSTRAP_END, answer) {
        let receive_offset = Hex::from(boot.subdevice_receive_offset);
        report.line("bootstrap receive offset", receive_offset);
        report.line("bootstrap receive size", boot.subdevice_receive_size);
        let send_offset = Hex::from(boot.subdevice_send_offset);
        report.line("bootstrap send offset", send_offset);
        report.line("bootstrap send size", boot.subdevice_send_size);
    }
}

fn mailbox(report: &mut Report<'_, impl Print>, image: &[u8]) {
    let answer = sii::mailbox_config(image, Chunk::Eight);
    if let Some(mailbox) = report.record("mailbox", image.len() < MAILBOX_END, answer) {
        let receive_offset = Hex::from(mailbox.subdevice_receive_offset);
        report.line("mailbox receive offset", receive_offset);
        report.line("mailbox receive size", mailbox.subdevice_receive_size);
        let send_offset = Hex::from(mailbox.subdevice_send_offset);
        report.line("mailbox send offset", send_offset);
        report.line("mailbox send size", mailbox.subdevice_send_size);
        let protocols = Flags(mailbox.supported_protocols, &PROTOCOLS);
        report.line("mailbox protocols", protocols);
    }
}

fn general(report: &mut Report<'_, impl Print>, image: &[u8], cut: bool) {
    let answer = sii::general(image, Chunk::Eight);
    if let Some(general) = report.record("general", cut, answer) {
        report.line("general group string", general.group_string_idx);
        report.line("general image string", general.image_string_idx);
        report.line("general order string", general.order_string_idx);
        report.line("general name string", general.name_string_idx);
        let coe_details = Flags(general.coe_details, &COE_DETAILS);
        report.line("general coe details", coe_details);
        report.line("general foe", YesOrNo(general.foe_enabled));
        report.line("general eoe", YesOrNo(general.eoe_enabled));
        report.line("general flags", Flags(general.flags, &GENERAL_FLAGS));
        report.line("general ebus current", general.ebus_current.cast_signed());
        ports(report, "general port", general.ports);
        let address = Hex::from(general.physical_memory_addr);
        report.line("general physical address", address);
    }
}

// Ports and address of General by ETG2010's places; ethercrab reads them two bytes before.
fn physical(report: &mut Report<'_, impl Print>, image: &[u8], cut: bool) {
    let answer = sii::physical_ports(image, Chunk::Eight);
    if let Some(kinds) = report.record("physical ports", cut, answer) {
        ports(report, "physical port", kinds);
    }
    let address = sii::physical_memory_address(image, Chunk::Eight).map(Hex::from);
    report.single("physical memory address", cut, address);
}

fn ports(report: &mut Report<'_, impl Print>, name: &str, ports: PhysicalPorts) {
    let kinds = [ports.port0, ports.port1, ports.port2, ports.port3];
    for (i, kind) in kinds.iter().enumerate() {
        report.line(format_args!("{name} {i}"), Named(*kind, &PORTS));
    }
}
