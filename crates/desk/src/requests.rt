// A line's answer: its request by name.
use crate::answers::{Answered, Answers, UNREADABLE};
use crate::words::{LINE_MOST, Words};
use crate::{
    on_frames, on_lists, on_ports, on_range, on_received, on_setup, on_sii, on_spread, on_strings,
};

// The answer to a line, behind those that wait. The BYTES of its words go into the room.
pub(crate) fn answer(line: &[u8], room: &mut [u8], answers: &mut Answers) {
    match asked(line, room, answers) {
        Ok(()) => {}
        Err(x) => answers.refuses(x),
    }
    answers.end_line();
}

// A line that is too long can't be read.
fn asked(line: &[u8], room: &mut [u8], answers: &mut Answers) -> Answered {
    if line.len() > LINE_MOST {
        return Err(UNREADABLE);
    }
    let mut words = Words::behind_name(line, room);
    by_name(lines::word(line, 0), &mut words, answers)
}

// The requests, in the order of docs/DESK.md.
fn by_name(name: &[u8], words: &mut Words, answers: &mut Answers) -> Answered {
    match name {
        b"crc" => on_range::crc(words, answers),
        b"new" => on_range::new(words, answers),
        b"startat" => on_range::start_at(words, answers),
        b"skip" => on_range::skip(words, answers),
        b"byte" => on_range::byte(words, answers),
        b"read" => on_range::read(words, answers),
        b"exact" => on_range::exact(words, answers),
        b"write" => on_range::write(words, answers),
        b"category" => on_sii::category(words, answers),
        b"inside" => on_sii::inside(words, answers),
        b"alias" => on_sii::alias(words, answers),
        b"size" => on_sii::size(words, answers),
        b"setalias" => on_sii::set_alias(words, answers),
        b"identity" => on_sii::identity(words, answers),
        b"mailbox" => on_sii::mailbox(words, answers),
        b"hasmail" => on_sii::is_with_mailbox(words, answers),
        b"general" => on_sii::general(words, answers),
        b"physport" => on_sii::physical_ports(words, answers),
        b"physaddr" => on_sii::physical_address(words, answers),
        b"sms" => on_lists::sync_managers(words, answers),
        b"usages" => on_lists::usages(words, answers),
        b"fmmus" => on_lists::fmmus(words, answers),
        b"fmmuex" => on_lists::fmmu_mappings(words, answers),
        b"pdos" => on_lists::pdos(words, answers),
        b"pdi" => on_setup::pdi(words, answers),
        b"bootmail" => on_setup::bootstrap(words, answers),
        b"version" => on_setup::version(words, answers),
        b"checksum" => on_setup::checksum(words, answers),
        b"clocks" => on_setup::clocks(words, answers),
        b"string" => on_strings::string(words, answers),
        b"name" => on_strings::name(words, answers),
        b"desc" => on_strings::description(words, answers),
        b"entry" => on_ports::entry(words, answers),
        b"last" => on_ports::last(words, answers),
        b"topology" => on_ports::topology(words, answers),
        b"total" => on_ports::total(words, answers),
        b"timeto" => on_ports::time_to(words, answers),
        b"between" => on_ports::between(words, answers),
        b"totalfrom" => on_ports::total_from(words, answers),
        b"linked" => on_ports::linked(words, answers),
        b"assign" => on_ports::assign(words, answers),
        b"times" => on_ports::times(words, answers),
        b"display" => on_ports::display(words, answers),
        b"open" => on_frames::open(words, answers),
        b"push" => on_frames::push(words, answers),
        b"handle" => on_frames::handle(words, answers),
        b"rest" => on_frames::rest(words, answers),
        b"canpush" => on_frames::can_push(words, answers),
        b"header" => on_frames::header(words, answers),
        b"frame" => on_frames::frame(words, answers),
        b"received" => on_received::received(words, answers),
        b"spread" => on_spread::spread(words, answers),
        _ => Err(UNREADABLE),
    }
}
