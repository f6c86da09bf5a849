// The list of active ports, gone through place by place: the entry, the last, the count, the one with a link.
ghost use Rattle.std.specs.Prelude.{◌≡◌, ◌<◌, ◌≤◌, length, IfSome, unwrap_or};
ghost use Rattle.ports.specs.Ports.{port_count, nowhere, linked_at, first_that, last_of, active_ports, entry};

use crate::Ports;

// The entry's place: of the active ports, that with the smallest time, the first where they are equal. None where no port is active.
pub(crate) fn entry_place(p: Ports) -> Option<usize>
    ensures place { unwrap_or result nowhere ≡ entry p }
    ensures inside { IfSome result (λ k. k < nowhere) }
{
    p.0.iter()
        .enumerate()
        .filter(|(_, q)| q.active)
        .min_by_key(|(_, q)| q.dc_receive_time)
        .map(|(k, _)| k)
}

// The highest active place.
#[tactic(auto, using(crate::proofs::Listed::last_found))]
pub(crate) fn last_place(p: Ports) -> Option<usize>
    ensures place { unwrap_or result nowhere ≡ last_of (active_ports p) }
    ensures inside { IfSome result (λ k. k < nowhere) }
{
    p.0.iter().rposition(|q| q.active)
}

// The first active place that is linked to this device.
#[tactic(auto, using(crate::proofs::Listed::first_active_found))]
pub(crate) fn linked_place(p: Ports, device: u16) -> Option<usize>
    ensures place { unwrap_or result nowhere ≡ first_that (linked_at p device) (active_ports p) }
    ensures inside { IfSome result (λ k. k < nowhere) }
{
    p.0.iter()
        .position(|q| q.active && q.downstream_to == Some(device))
}

// How many ports are active.
#[tactic(auto, using(crate::proofs::Listed::count_listed))]
pub(crate) fn count(p: Ports) -> usize
    ensures { (result ≡ length (active_ports p)) × (result ≤ port_count) }
{
    p.0.iter().filter(|q| q.active).count()
}
