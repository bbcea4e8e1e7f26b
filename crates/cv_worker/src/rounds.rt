//! A round, whose instances run side by side.
ghost use Rattle.std.specs.List.{AllByRecursion, list_any};
ghost use Rattle.std.specs.Prelude.{◌≡◌, false, true, length, OnErr, OnOk};
ghost use Rattle.cv_desk.specs.Openings.{SettingOf};
ghost use Rattle.cv_worker.specs.Instances.{HasMetEnd, InstanceOf, IsOfSetting, IsReady};

use crate::instance::Instance;
use cv_base::{NoMemory, Plan};
use cv_desk::Office;
use cv_edge::Gate;
use cv_office::Named;
use std::alloc::Global;
use std::sync::Wait;
use std::thread;
use std::thread::Threads;

/// Runs the instances side by side, each in a thread of its own where one can be made, until the round
/// has no run left or memory is refused: Ok exactly where it was refused to none. Then each pass has
/// posted all that it drew, and has met the end of the round.
pub fn round<N: Named + Send + Sync, R: Threads + Wait + Sync, G: Gate>(
    rt: &R,
    alloc: Global,
    plan: &Plan,
    round: u32,
    office: &Office<N>,
    instances: &mut [Instance<N>],
    gate: &G,
) -> Result<(), NoMemory>
    requires ready { AllByRecursion (IsReady plan.now round) instances.old }
    ensures count { length instances.new ≡ length instances.old }
    ensures ok { OnOk result (list_any (λ (i : InstanceOf). i.refused) instances.new ≡ false) }
    ensures refused { OnErr result (list_any (λ (i : InstanceOf). i.refused) instances.new ≡ true) }
    ensures end { OnOk result ((s : SettingOf) → AllByRecursion (IsOfSetting s) instances.old → AllByRecursion (HasMetEnd s) instances.new) }
{
    run_all(rt, alloc, plan, round, office, instances, gate);
    if any_refused(instances) {
        return Err(NoMemory);
    }
    Ok(())
}

/// Whether memory was refused to one of the instances.
fn any_refused<N: Named>(instances: &[Instance<N>]) -> bool
    ensures { result ≡ list_any (λ (i : InstanceOf). i.refused) instances.now }
{
    instances.iter().any(|instance| instance.refused())
}

/// Runs the instances side by side.
fn run_all<N: Named + Send + Sync, R: Threads + Wait + Sync, G: Gate>(
    rt: &R,
    alloc: Global,
    plan: &Plan,
    round: u32,
    office: &Office<N>,
    instances: &mut [Instance<N>],
    gate: &G,
)
    requires ready { AllByRecursion (IsReady plan.now round) instances.old }
    ensures count { length instances.new ≡ length instances.old }
    ensures end { (s : SettingOf) → AllByRecursion (IsOfSetting s) instances.old → AllByRecursion (λ (i : InstanceOf). i.refused ≡ false → HasMetEnd s i) instances.new }
{
    let threads = instances.len().max(1);
    thread::for_each_mut(
        rt,
        instances,
        threads,
        &|_, instance: &mut Instance<N>|
            requires { IsReady plan.now round instance.old }
            ensures { instance.new.refused ≡ false → (s : SettingOf) → IsOfSetting s instance.old → HasMetEnd s instance.new }
        { instance.run_all(rt, alloc, plan, round, office, gate) },
    );
}
