// The assigning rule: the places after the entry's, in order and round, are asked one by one.
ghost use Rattle.std.specs.Prelude.{◌≡◌, ◌<◌, IfSome, MatchResult, unwrap_or};
ghost use Rattle.refusal.specs.Said.{absent, said_of};
ghost use Rattle.ports.specs.Ports.{nowhere, entry};
ghost use Rattle.ports.specs.Answers.{port_said};
ghost use Rattle.ports.specs.Assigning.{open_at, assignable, assigned_said};

use crate::Ports;
use crate::active::entry_place;
use crate::place::PLACE_COUNT;
use refusal::Refusal;

// Whether the port at a place is active and has no link.
fn is_open(p: Ports, k: usize) -> bool
    requires { k < nowhere }
    ensures { result ≡ open_at p k }
{
    p.0[k].active && p.0[k].downstream_to.is_none()
}

// The place of the rule, where the entry's is e: the first open one behind it, round.
fn next_assignable_place(p: Ports, e: usize) -> Option<usize>
    requires { (e ≡ entry p) × (e < nowhere) }
    ensures place { unwrap_or result nowhere ≡ assignable p }
    ensures inside { IfSome result (λ k. k < nowhere) }
{
    (1..PLACE_COUNT)
        .map(|i| (e + i) % PLACE_COUNT)
        .find(|k| is_open(p, *k))
}

// The place that this downstream device is linked to. Refuses 14 for device 0, then 9 where no port is active.
#[tactic(auto, unfolding(crate::specs::Assigning::assigned_said))]
pub(crate) fn place_to_link(p: Ports, device: u16) -> Result<Option<usize>, Refusal>
    ensures { MatchResult result (λ r. (assigned_said p device ≡ port_said (unwrap_or r nowhere) absent) × IfSome r (λ k. k < nowhere)) (λ x. said_of x ≡ assigned_said p device) }
{
    if device == 0 {
        return Err(Refusal::BadArgument);
    }
    let e = entry_place(p).ok_or(Refusal::NoPort)?;
    Ok(next_assignable_place(p, e))
}
