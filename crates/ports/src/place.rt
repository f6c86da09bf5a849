// One place of the record: which port it holds, and the record with one field of it changed.
ghost use Rattle.std.specs.Prelude.{◌≡◌, ◌<◌, ◌≤◌, MatchResult};
ghost use Rattle.refusal.specs.declared.Refusal.TheVariants.{BadPort};
ghost use Rattle.ports.specs.Ports.{port_count, nowhere, number_at, place_of, fresh_port, link_set};

use crate::{Port, Ports};
use refusal::Refusal;

// How many places there are. A place is a plain number below this and no type of its own: the definitions count with it (`between`, `assignable`).
pub(crate) const PLACE_COUNT: usize = 4;

// The number of the port at each place.
const NUMBERS: [u8; 4] = [0, 3, 1, 2];

// The place of the port with each number.
const PLACES: [usize; 4] = [0, 2, 3, 1];

// The number of the port at a place.
pub(crate) fn number_at(k: usize) -> u8
    requires { k < nowhere }
    ensures { result ≡ number_at k }
{
    NUMBERS[k]
}

// The place of the port with a number. Refuses 10.
pub(crate) fn place_of(n: u8) -> Result<usize, Refusal>
    ensures { MatchResult result (λ k. (n < port_count) × (k ≡ place_of n) × (k < nowhere)) (λ e. (port_count ≤ n) × (e ≡ BadPort)) }
{
    PLACES.get(usize::from(n)).copied().ok_or(Refusal::BadPort)
}

// A port with this number and no time and no link.
pub(crate) fn fresh_port(active: bool, number: u8) -> Port
    ensures { result ≡ fresh_port active number }
{
    Port {
        active,
        dc_receive_time: 0,
        number,
        downstream_to: None,
    }
}

// The record in which the port at a place is linked to this device.
#[tactic(auto, unfolding(crate::specs::Ports::link_set))]
pub(crate) fn linked_at(mut p: Ports, k: usize, device: u16) -> Ports
    requires { k < nowhere }
    ensures { result ≡ link_set p k device }
{
    p.0[k].downstream_to = Some(device);
    p
}
