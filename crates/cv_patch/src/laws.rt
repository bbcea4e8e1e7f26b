ghost use Rattle.cv_patch.specs.Restoring.{SetRestores};

/// A set restores its invariant: where one patch stands at a point, and it enforces an invariant by
/// one of the sets that repair it, the invariant holds behind it (docs/REPAIR.md, "Repairs").
/// Registers, the frames' sp and an invariant's offset are 32-bit words there, as those of every
/// `Core` and `Invariant` are.
pub fn set_restores()
    ensures { SetRestores }
{}
