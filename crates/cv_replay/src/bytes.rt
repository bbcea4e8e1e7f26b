ghost use Rattle.std.specs.Prelude.{◌≡◌, ◌<◌, ◌≤◌, Option, IfOk};
ghost use Rattle.cv_replay.specs.Changed.{last_noted, or_before};
ghost use Rattle.cv_replay.specs.ReplayOf.{byte, since};
ghost use Rattle.cv_replay.specs.Said.{changed_before, value_before};
ghost use Rattle.cv_replay.specs.Script.{IsScript, steps_by_script};
ghost use Rattle.cv_replay.specs.Standing.{AreCopies, IsAt, IsWalk, plan_of, replay_of, turn_of};

use crate::copies::Copies;
use crate::script::Script;
use crate::stand::Stand;
use crate::walk::Walk;
use cv_base::NoMemory;
use std::alloc::Global;

/// The last turn below that of a walk before which the byte at an address has another value than before
/// the next. It goes from one copy to the next, from the last one back, up to the first stretch with a
/// change.
pub(crate) fn byte_changed(
    alloc: Global,
    script: &Script,
    now: &Walk,
    copies: &Copies,
    address: u32,
) -> Result<Option<u32>, NoMemory>
    requires script { IsScript (plan_of now.now) script.now }
    requires at { IsWalk script.now now.now }
    requires copies { AreCopies (plan_of now.now) script.now copies.now }
    ensures { IfOk result (λ found. found ≡ since (byte address) (replay_of script.now now.now)) }
{
    let mut end = now.turn();
    for copy in copies.later.iter().rev() {
        if copy.turn() < end {
            let found = changed_from(alloc, script, &copy.stand, address, end)?;
            if found.is_some() {
                return Ok(found);
            }
            end = copy.turn();
        }
    }
    changed_from(alloc, script, &copies.first.stand, address, end)
}

/// The last such turn from that of a stand on and below another.
fn changed_from(
    alloc: Global,
    script: &Script,
    from: &Stand,
    address: u32,
    to: u32,
) -> Result<Option<u32>, NoMemory>
    requires script { IsScript from.now.flight.plan script.now }
    requires at { IsAt script.now from.now }
    requires from { turn_of from.now ≤ to }
    requires to { to < script.now.entry.turns }
    ensures { IfOk result (λ found. let value = value_before (byte address) (steps_by_script from.now.flight.plan script.now) in changed_before value to ≡ or_before found (changed_before value (turn_of from.now))) }
{
    let mut stand = from.copied(alloc)?;
    let mut found = None;
    let mut value = stand.machine(script).byte(address);
    for turn in from.turn()..to {
        stand.forward(script)?;
        let next = stand.machine(script).byte(address);
        found = noted(found, value, next, turn);
        value = next;
    }
    Ok(found)
}

/// The last change with one more turn, before which and before the next there are these values.
fn noted(last: Option<u32>, before: u8, after: u8, turn: u32) -> Option<u32>
    ensures { result ≡ last_noted before after turn last }
{
    if before == after { last } else { Some(turn) }
}
