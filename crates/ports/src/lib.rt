// A device's ports: which are active, when each saw the frame, which device hangs on each; and the delays between them.
// Follows ethercrab's src/subdevice/ports.rs, by value; RULES, ports.
// Places 0, 1, 2, 3 hold ports 0, 3, 1, 2, the order in which a frame passes them. The place decides, whatever `number` a record holds.
#![tactic(auto)]

ghost use Rattle.std.specs.Prelude.{◌≡◌, Ok};
ghost use Rattle.refusal.specs.Said.{said, number_value};
ghost use Rattle.ports.specs.Ports.{fresh, times_set};
ghost use Rattle.ports.specs.Answers.{said_port, said_time, said_topology, said_text, entry_said, last_said, linked_said, topology_said};
ghost use Rattle.ports.specs.Delays.{total_said, total_from_said, time_to_said, intermediate_said};
ghost use Rattle.ports.specs.Assigning.{assigned_said, assigned_ports};
ghost use Rattle.ports.specs.Display.{display_said, display_buf};

use active::{count, entry_place, last_place, linked_place};
use assign::place_to_link;
use delay::{delay, gaps_before, narrowed, total_since, total_time};
use place::{fresh_port, linked_at, number_at, place_of};
use refusal::Refusal;
use text::{put_text, text_len};

mod active;
mod assign;
mod delay;
mod place;
mod text;

// One port of a device.
#[derive(Clone, Copy)]
pub struct Port {
    pub active: bool,
    // When the port saw the frame, by the device's clock, in nanoseconds.
    pub dc_receive_time: u32,
    // The EtherCAT port number, as `new` gives it.
    pub number: u8,
    pub downstream_to: Option<u16>,
}

// The ports 0, 3, 1, 2, in this order.
#[derive(Clone, Copy)]
pub struct Ports(pub [Port; 4]);

// How a device stands in the segment, by its count of active ports.
#[derive(Clone, Copy)]
pub enum Topology {
    // 1 active port: the last of its branch.
    LineEnd,
    // 2: one upstream, one downstream.
    Passthrough,
    // 3.
    Fork,
    // 4.
    Cross,
}

// The port that was linked, and the record after that.
#[derive(Clone, Copy)]
pub struct Assigned {
    pub answer: Result<Option<u8>, Refusal>,
    pub ports: Ports,
}

impl Ports {
    // The ports of a device, of which these are active; no times and no links.
    #[tactic(auto, unfolding(crate::specs::Ports::fresh))]
    pub fn new(active0: bool, active3: bool, active1: bool, active2: bool) -> Self
        ensures { result ≡ fresh active0 active3 active1 active2 }
    {
        Ports([
            fresh_port(active0, 0),
            fresh_port(active3, 3),
            fresh_port(active1, 1),
            fresh_port(active2, 2),
        ])
    }

    // The record with these receive times, in the order of places.
    #[tactic(auto, unfolding(crate::specs::Ports::times_set))]
    pub fn set_receive_times(
        mut self,
        time_p0: u32,
        time_p3: u32,
        time_p1: u32,
        time_p2: u32,
    ) -> Self
        ensures { result ≡ times_set self time_p0 time_p3 time_p1 time_p2 }
    {
        self.0[0].dc_receive_time = time_p0;
        self.0[1].dc_receive_time = time_p3;
        self.0[2].dc_receive_time = time_p1;
        self.0[3].dc_receive_time = time_p2;
        self
    }

    // The port that sees the frame first. Refuses 9 where no port is active.
    #[tactic(auto, unfolding(crate::specs::Answers::entry_said))]
    pub fn entry_port(self) -> Result<u8, Refusal>
        ensures { said number_value result ≡ entry_said self }
    {
        let k = entry_place(self).ok_or(Refusal::NoPort)?;
        Ok(number_at(k))
    }

    // The active port at the highest place, or none.
    #[tactic(auto, unfolding(crate::specs::Answers::last_said))]
    pub fn last_port(self) -> Option<u8>
        ensures { said_port (Ok result) ≡ last_said self }
    {
        last_place(self).map(number_at)
    }

    // How the device stands in the segment. Refuses 9 where no port is active.
    #[tactic(auto, unfolding(crate::specs::Answers::topology_said))]
    pub fn topology(self) -> Result<Topology, Refusal>
        ensures { said_topology result ≡ topology_said self }
    {
        match count(self) {
            0 => Err(Refusal::NoPort),
            1 => Ok(Topology::LineEnd),
            2 => Ok(Topology::Passthrough),
            3 => Ok(Topology::Fork),
            _ => Ok(Topology::Cross),
        }
    }

    // How long a frame takes through all active ports; none if 0 or none is active.
    #[tactic(auto, unfolding(crate::specs::Delays::total_said))]
    pub fn total_propagation_time(self) -> Option<u32>
        ensures { said_time (Ok result) ≡ total_said self }
    {
        delay(total_time(self))
    }

    // The longest time from the named entry port to an active port, on a clock that may turn over between; none if 0. Refuses 10, then 9 if it is inactive.
    #[tactic(auto, unfolding(crate::specs::Delays::total_from_said))]
    pub fn total_propagation_time_from(self, entry: u8) -> Result<Option<u32>, Refusal>
        ensures { said_time result ≡ total_from_said self entry }
    {
        let k = place_of(entry)?;
        if !self.0[k].active {
            return Err(Refusal::NoPort);
        }
        Ok(delay(total_since(self, k)))
    }

    // How long a frame takes through the active ports from the entry to this one; none if 0. Refuses 10, then 9.
    #[tactic(auto, using(crate::proofs::Laws::totals), unfolding(crate::specs::Delays::time_to_said))]
    pub fn propagation_time_to(self, port: u8) -> Result<Option<u32>, Refusal>
        ensures { said_time result ≡ time_to_said self port }
    {
        let to = place_of(port)?;
        let from = entry_place(self).ok_or(Refusal::NoPort)?;
        Ok(delay(total_time(narrowed(self, from, to))))
    }

    // The sum of the delays between neighbouring active ports before this one. Refuses 10, then 11 if it exceeds 32 bits.
    #[tactic(auto, unfolding(crate::specs::Delays::intermediate_said, crate::specs::Delays::sum_said))]
    pub fn intermediate_propagation_time_to(self, port: u8) -> Result<u32, Refusal>
        ensures { said number_value result ≡ intermediate_said self port }
    {
        let sum = gaps_before(self, place_of(port)?);
        u32::try_from(sum).map_err(|_| Refusal::Sum)
    }

    // Links a downstream device to the first active port after the entry, round, that has none; never to the entry. Refuses 14 for device 0, then 9.
    #[tactic(auto, using(crate::proofs::Linking::assigns_port), unfolding(crate::specs::Assigning::assigned_ports))]
    pub fn assign_next_downstream_port(self, downstream_subdevice_index: u16) -> Assigned
        ensures { (said_port result.answer ≡ assigned_said self downstream_subdevice_index) × (result.ports ≡ assigned_ports self downstream_subdevice_index) }
    {
        match place_to_link(self, downstream_subdevice_index) {
            Ok(Some(k)) => {
                Assigned {
                    answer: Ok(Some(number_at(k))),
                    ports: linked_at(self, k, downstream_subdevice_index),
                }
            }
            Ok(None) => {
                Assigned {
                    answer: Ok(None),
                    ports: self,
                }
            }
            Err(x) => {
                Assigned {
                    answer: Err(x),
                    ports: self,
                }
            }
        }
    }

    // The first active port that is linked to this device, or none. Refuses 14 for device 0.
    #[tactic(auto, unfolding(crate::specs::Answers::linked_said))]
    pub fn port_assigned_to(self, subdevice: u16) -> Result<Option<u8>, Refusal>
        ensures { said_port result ≡ linked_said self subdevice }
    {
        if subdevice == 0 {
            return Err(Refusal::BadArgument);
        }
        Ok(linked_place(self, subdevice).map(number_at))
    }

    // The text `ports [ open closed open closed ]`, a word for each place, into the front of the buffer. Refuses 14 if it is too short.
    #[tactic(auto, unfolding(crate::specs::Display::display_said, crate::specs::Display::display_buf))]
    pub fn display(self, buf: &mut [u8]) -> Result<usize, Refusal>
        ensures result_value { said_text result ≡ display_said self buf.old }
        ensures buf_after { buf.new ≡ display_buf self buf.old }
    {
        let n = text_len(self);
        if buf.len() < n {
            return Err(Refusal::BadArgument);
        }
        put_text(self, buf);
        Ok(n)
    }
}
