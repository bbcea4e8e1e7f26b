ghost use Rattle.std.specs.Prelude.{◌≡◌, IfOk};
ghost use Rattle.cv_exec.specs.RunEnds.{core_sites, end_sites};

use cv_base::{End, Items, NoMemory};
use cv_shadow::Core;
use std::alloc::Global;

/// Where a run that ended so in this core failed, and the calls around it; none where it did not
/// fail.
pub(crate) fn sites_of(alloc: Global, end: End, core: &Core) -> Result<Items<u32>, NoMemory>
    ensures { IfOk result (λ sites. sites ≡ end_sites end core.now) }
{
    match end {
        End::Failure { .. } => call_sites(alloc, core),
        End::Exit { .. } | End::Budget => Ok(Items::make(alloc)),
    }
}

/// The pc and the call addresses of the top frames, four in all at most.
fn call_sites(alloc: Global, core: &Core) -> Result<Items<u32>, NoMemory>
    ensures { IfOk result (λ sites. sites ≡ core_sites core.now) }
{
    let mut sites = Vec::with_capacity(alloc, 4)?;
    sites.push(core.pc)?;
    for depth in 0..3 {
        if let Some(frame) = core.frames.from_top(depth) {
            sites.push(frame.call)?;
        }
    }
    Ok(Items::from_vec(sites))
}
