ghost use Rattle.std.specs.Prelude.{◌≡◌, List, [], ◌∷◌, ◌++◌, reverse};
ghost use Rattle.cv_base.specs.PlanOf.{PlanOf};
ghost use Rattle.cv_base.specs.declared.entries.Entry.{Entry};
ghost use Rattle.cv_histories.specs.Legal.{IsLegal};
ghost use Rattle.cv_histories.specs.Versions.{ledger, posted, versions_of};

/// A law of histories: the versions of a history with one more entry are what posting that entry
/// makes of them.
pub fn versions_with_one_more()
    ensures { (plan : PlanOf) (history : List Entry) (e : Entry)
        → versions_of plan (history ++ e ∷ []) ≡ (posted plan (ledger plan (reverse history)) e).versions }
{}

/// A law of histories: what came before the newest entries of a legal history is legal.
pub fn legal_before()
    ensures { (plan : PlanOf) (newest past : List Entry) → IsLegal plan (newest ++ past) → IsLegal plan past }
{}
