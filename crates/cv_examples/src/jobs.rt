ghost use Rattle.std.specs.Prelude.{◌≡◌};
ghost use Rattle.cv_examples.specs.Calling.{calling_plan, calling_report};
ghost use Rattle.cv_examples.specs.CallingLearned.{calling_learned};
ghost use Rattle.cv_examples.specs.CallingOn.{calling_on_plan, calling_on_report};
ghost use Rattle.cv_examples.specs.CopyLow.{copy_low_plan, copy_low_report};
ghost use Rattle.cv_examples.specs.KeptAfterFail.{kept_after_fail_plan};
ghost use Rattle.cv_examples.specs.KeptAfterFailRest.{kept_after_fail_report};
ghost use Rattle.cv_examples.specs.LoopModerate.{loop_moderate_plan, loop_moderate_report};
ghost use Rattle.cv_examples.specs.NoRepairs.{no_repairs_plan, no_repairs_report};
ghost use Rattle.cv_examples.specs.ReturnAtEnd.{return_at_end_plan};
ghost use Rattle.cv_examples.specs.ReturnAtEndRest.{return_at_end_report};
ghost use Rattle.cv_examples.specs.StackShift.{stack_shift_plan, stack_shift_report};
ghost use Rattle.cv_examples.specs.TwoFaults.{two_faults_plan};
ghost use Rattle.cv_examples.specs.TwoFaultsRest.{two_faults_report};
ghost use Rattle.cv_examples.specs.ViolatedOnceAndTwice.{violated_once_and_twice_plan, violated_once_and_twice_report};
ghost use Rattle.cv_histories.specs.OtherTexts.{infer_text};
ghost use Rattle.cv_histories.specs.Report.{report};
ghost use Rattle.cv_histories.specs.Serial.{serial};

/// The indirect call: its whole report.
pub fn calling()
    ensures { report calling_plan (serial calling_plan) ≡ calling_report }
{}

/// The 43 invariants learned of the indirect call, in order.
pub fn calling_infers()
    ensures { infer_text calling_plan ≡ calling_learned }
{}

/// The indirect call on a good input beside the four bad ones.
pub fn calling_on()
    ensures { report calling_on_plan (serial calling_on_plan) ≡ calling_on_report }
{}

/// A loop: a moderately correlated candidate, runs that end by budget, a fail without a firing.
pub fn loop_moderate()
    ensures { report loop_moderate_plan (serial loop_moderate_plan) ≡ loop_moderate_report }
{}

/// A shifted stack pointer: set-sp at three points, four sites, two repairs in one run.
pub fn stack_shift()
    ensures { report stack_shift_plan (serial stack_shift_plan) ≡ stack_shift_report }
{}

/// A row past its end: copies, and two withdrawals.
pub fn copy_low()
    ensures { report copy_low_plan (serial copy_low_plan) ≡ copy_low_report }
{}

/// Two cases checked at once, both repairs in one run.
pub fn two_faults()
    ensures { report two_faults_plan (serial two_faults_plan) ≡ two_faults_report }
{}

/// A case dropped for want of repairs, with eight checks.
pub fn no_repairs()
    ensures { report no_repairs_plan (serial no_repairs_plan) ≡ no_repairs_report }
{}

/// A score that falls to a tie, and then below.
pub fn kept_after_fail()
    ensures { report kept_after_fail_plan (serial kept_after_fail_plan) ≡ kept_after_fail_report }
{}

/// Moderately from one and two violations; a run that a repair fired in and the budget ended.
pub fn violated_once_and_twice()
    ensures { report violated_once_and_twice_plan (serial violated_once_and_twice_plan) ≡ violated_once_and_twice_report }
{}

/// A Return without a point to go to.
pub fn return_at_end()
    ensures { report return_at_end_plan (serial return_at_end_plan) ≡ return_at_end_report }
{}
