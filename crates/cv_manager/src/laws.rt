ghost use Rattle.std.specs.Prelude.{◌≡◌, true, List};
ghost use Rattle.std.specs.List.{list_all};
ghost use Rattle.cv_base.specs.declared.entries.Entry.{Entry};
ghost use Rattle.cv_base.specs.Picture.{is_point};
ghost use Rattle.cv_base.specs.PlanOf.{PlanOf};
ghost use Rattle.cv_base.specs.WellFormed.{IsImage};
ghost use Rattle.cv_histories.specs.Honest.{IsHonest};
ghost use Rattle.cv_runs.specs.PatchedRun.{Table};

/// The sites of an honest entry are points of the plan's text: a run keeps its pc and the call
/// addresses of its frames at points (docs/REPAIR.md, "Entries").
pub fn sites_are_points()
    ensures { (plan : PlanOf) (versions : List Table) (e : Entry) → IsImage plan.image → IsHonest plan versions e → list_all (is_point plan.image) e.sites ≡ true }
{}
