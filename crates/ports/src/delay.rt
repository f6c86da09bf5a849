// Delays from the receive times of the active ports: over all of them, since a named entry, from the entry to a port, between neighbours.
ghost use Rattle.std.specs.Prelude.{◌≡◌, ◌+◌, ◌<◌, ◌≤◌, map, Ok};
ghost use Rattle.ports.specs.Ports.{nowhere, time_at, port_at, active_ports, timed, only_if, only};
ghost use Rattle.ports.specs.Answers.{said_time};
ghost use Rattle.ports.specs.Delays.{largest, total, delay_said, elapsed, total_from, counted_from, gap, gaps, between, sum_most};

use crate::active::entry_place;
use crate::{Port, Ports};
use std::array;

// A delay; one of 0 is absent.
#[tactic(auto, unfolding(crate::specs::Delays::delay_said))]
pub(crate) fn delay(t: u32) -> Option<u32>
    ensures { said_time (Ok result) ≡ delay_said t }
{
    if t == 0 { None } else { Some(t) }
}

// The largest time of an active port, 0 if there is none.
fn largest_time(p: Ports) -> u32
    ensures { result ≡ largest (map (time_at p) (active_ports p)) }
{
    p.0.iter()
        .filter(|q| q.active)
        .map(|q| q.dc_receive_time)
        .max()
        .unwrap_or(0)
}

// The largest less the smallest time of the active ports: the smallest is the entry's.
#[tactic(auto, using(crate::proofs::Laws::totals))]
pub(crate) fn total_time(p: Ports) -> u32
    ensures { result ≡ total p }
{
    match entry_place(p) {
        None => 0,
        Some(e) => largest_time(p).saturating_sub(p.0[e].dc_receive_time),
    }
}

// The port with the time that has elapsed at it since e, on a clock that may turn over.
#[tactic(auto, unfolding(crate::specs::Delays::elapsed))]
fn since(q: Port, e: u32) -> Port
    ensures { result ≡ timed q (elapsed e q.dc_receive_time) }
{
    Port {
        dc_receive_time: q.dc_receive_time.wrapping_sub(e),
        ..q
    }
}

// The record whose times are those elapsed since e.
fn counted_from(p: Ports, e: u32) -> Ports
    ensures { result ≡ counted_from p e }
{
    Ports(p.0.map(|q| since(q, e)))
}

// The largest time that has elapsed at an active port since the place k.
#[tactic(auto, using(crate::proofs::From::counted))]
pub(crate) fn total_since(p: Ports, k: usize) -> u32
    requires { k < nowhere }
    ensures { result ≡ total_from p k }
{
    largest_time(counted_from(p, p.0[k].dc_receive_time))
}

// The port at a place, active only if the place lies from one to another.
fn kept(p: Ports, from: usize, to: usize, k: usize) -> Port
    requires { k < nowhere }
    ensures { result ≡ only_if (port_at p k) (between from to k) }
{
    Port {
        active: p.0[k].active && (from..=to).contains(&k),
        ..p.0[k]
    }
}

// The record in which only places from one to another are active.
pub(crate) fn narrowed(p: Ports, from: usize, to: usize) -> Ports
    ensures { result ≡ only (between from to) p }
{
    Ports(array::from_fn(|k| kept(p, from, to, k)))
}

// What the neighbouring places k and k + 1 add: the later less the earlier time, if both are active.
#[tactic(auto, unfolding(crate::specs::Delays::gap))]
fn gap_at(p: Ports, k: usize) -> u64
    requires { k + 1 < nowhere }
    ensures { (result ≡ gap p k) × (result ≤ sum_most) }
{
    let here = p.0[k];
    let next = p.0[k + 1];
    if here.active && next.active {
        u64::from(next.dc_receive_time.saturating_sub(here.dc_receive_time))
    } else {
        0
    }
}

// The sum over the pairs whose first lies before the place k.
#[tactic(auto, unfolding(crate::specs::Delays::gaps))]
pub(crate) fn gaps_before(p: Ports, k: usize) -> u64
    requires { k < nowhere }
    ensures { result ≡ gaps p k }
{
    let mut sum = 0;
    for j in 0..k {
        sum += gap_at(p, j);
    }
    sum
}
