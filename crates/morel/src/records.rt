// The lists of an image: sync managers, FMMUs, PDOs, modes of the distributed clock. A list's first line has its count, or the refusal that it gives.
use crate::cut::category_cut;
use crate::report::Report;
use crate::shown::{Flags, Hex, Named, YesOrNo};
use category::{DISTRIBUTED_CLOCK, FMMU, FMMU_EXTENDED, RX_PDO, SYNC_MANAGER, TX_PDO};
use clock::DistributedClock;
use eeprom::Chunk;
use lists::{Pdo, PdoList, SyncManager};
use refusal::Refusal;

// The names of the bits and of the kinds that an item's fields have.
const MODES: [&str; 3] = ["Normal", "-", "Mailbox"];

const DIRECTIONS: [&str; 2] = ["MasterRead", "MasterWrite"];

const ENABLE: [&str; 4] = ["enable", "is-fixed", "is-virtual", "op-only"];

const MANAGER_USAGES: [&str; 5] = [
    "Unknown",
    "MailboxWrite",
    "MailboxRead",
    "ProcessDataWrite",
    "ProcessDataRead",
];

const FMMU_USAGES: [&str; 4] = ["Unused", "Outputs", "Inputs", "SyncManagerStatus"];

pub(crate) fn print(report: &mut Report<'_, impl Print>, image: &[u8]) {
    sync_managers(report, image);
    fmmus(report, image);
    extended_fmmus(report, image);
    let sent = lists::maindevice_read_pdos(image, Chunk::Eight);
    pdos(report, "tx pdo", category_cut(image, TX_PDO), sent);
    let received = lists::maindevice_write_pdos(image, Chunk::Eight);
    pdos(report, "rx pdo", category_cut(image, RX_PDO), received);
    clock_modes(report, image);
}

fn sync_managers(report: &mut Report<'_, impl Print>, image: &[u8]) {
    let cut = category_cut(image, SYNC_MANAGER);
    let answer = lists::sync_managers(image, Chunk::Eight);
    if let Some(list) = report.record("sync managers", cut, answer) {
        report.line("sync managers", list.count);
        for (i, manager) in list.items.iter().take(list.count).enumerate() {
            sync_manager(report, i, manager);
        }
    }
}

fn sync_manager(report: &mut Report<'_, impl Print>, i: usize, manager: &SyncManager) {
    let list = "sync manager";
    report.item(list, i, "start", Hex::from(manager.start_addr));
    report.item(list, i, "bytes", manager.length_bytes);
    report.item(list, i, "mode", Named(manager.operation_mode, &MODES));
    report.item(list, i, "direction", Named(manager.direction, &DIRECTIONS));
    report.item(list, i, "ecat event", YesOrNo(manager.ecat_event_enable));
    report.item(list, i, "dls event", YesOrNo(manager.dls_user_event_enable));
    report.item(list, i, "watchdog", YesOrNo(manager.watchdog_enable));
    report.item(list, i, "enable", Flags(manager.enable, &ENABLE));
    report.item(list, i, "usage", Named(manager.usage_type, &MANAGER_USAGES));
}

fn fmmus(report: &mut Report<'_, impl Print>, image: &[u8]) {
    let cut = category_cut(image, FMMU);
    let answer = lists::fmmus(image, Chunk::Eight);
    if let Some(list) = report.record("fmmus", cut, answer) {
        report.line("fmmus", list.count);
        for (i, usage) in list.items.iter().take(list.count).enumerate() {
            report.item("fmmu", i, "usage", Named(*usage, &FMMU_USAGES));
        }
    }
}

fn extended_fmmus(report: &mut Report<'_, impl Print>, image: &[u8]) {
    let cut = category_cut(image, FMMU_EXTENDED);
    let answer = lists::fmmu_mappings(image, Chunk::Eight);
    if let Some(list) = report.record("extended fmmus", cut, answer) {
        report.line("extended fmmus", list.count);
        for (i, manager) in list.items.iter().take(list.count).enumerate() {
            report.item("fmmu", i, "sync manager", manager);
        }
    }
}

fn pdos(
    report: &mut Report<'_, impl Print>,
    name: &str,
    cut: bool,
    answer: Result<PdoList, Refusal>,
) {
    if let Some(list) = report.record(format_args!("{name}s"), cut, answer) {
        report.line(format_args!("{name}s"), list.count);
        for (i, pdo) in list.items.iter().take(list.count).enumerate() {
            one_pdo(report, name, i, pdo);
        }
    }
}

fn one_pdo(report: &mut Report<'_, impl Print>, name: &str, i: usize, pdo: &Pdo) {
    report.item(name, i, "index", Hex::from(pdo.index));
    report.item(name, i, "entries", pdo.num_entries);
    report.item(name, i, "sync manager", pdo.sync_manager);
    report.item(name, i, "bits", pdo.bit_len);
}

fn clock_modes(report: &mut Report<'_, impl Print>, image: &[u8]) {
    let cut = category_cut(image, DISTRIBUTED_CLOCK);
    let answer = clock::distributed_clocks(image, Chunk::Eight);
    if let Some(list) = report.record("clock modes", cut, answer) {
        report.line("clock modes", list.count);
        for (i, mode) in list.items.iter().take(list.count).enumerate() {
            clock_mode(report, i, mode);
        }
    }
}

fn clock_mode(report: &mut Report<'_, impl Print>, i: usize, mode: &DistributedClock) {
    let list = "clock mode";
    report.item(list, i, "cycle time", mode.cycle_time0);
    report.item(list, i, "shift time 0", mode.shift_time0);
    report.item(list, i, "shift time 1", mode.shift_time1);
    report.item(
        list,
        i,
        "sync1 factor",
        mode.sync1_cycle_factor.cast_signed(),
    );
    report.item(list, i, "activate", Hex::from(mode.assign_activate));
    report.item(
        list,
        i,
        "sync0 factor",
        mode.sync0_cycle_factor.cast_signed(),
    );
    report.item(list, i, "name", mode.name_string_idx);
    report.item(list, i, "description", mode.description_string_idx);
}
