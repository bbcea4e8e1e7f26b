//! Worked examples of the definitions: each is an equation that the checker computes, named by a
//! function with an empty body (docs/THEOREMS.md, "Worked examples").
#![tactic(auto)]

mod facts;
mod jobs;

pub use facts::{
    after_free, breaks, calls_first, calls_no_point, clears_bit_zero, damaged_return, drill_bad,
    drill_good, drill_three, exits, first_late_win, five_values, four_values, illegal,
    inside_block, into_code, late_entries, late_wins, long_entries, loop_entries, misaligned,
    no_frame, out_of_budget, over_block_end, past_block, reads_past_block, stands_after_seven,
    straight_entries, unreadable, unwritable, withdrawn_and_opened, writes,
};
pub use jobs::{
    calling, calling_infers, calling_on, copy_low, kept_after_fail, loop_moderate, no_repairs,
    return_at_end, stack_shift, two_faults, violated_once_and_twice,
};
