//! The piece of a round.
ghost use Rattle.std.specs.Prelude.{◌≡◌, ◌++◌, ◌≤◌, length, reverse, take, IfOk};
ghost use Rattle.cv_histories.specs.Report.{entry_lines};

use cv_audit::one_more_entry;
use cv_base::{Entry, Items, NoMemory};
use cv_report::entry_line;
use std::alloc::Global;

/// The lines of a history's entries from a place on, each with its line feed.
#[tactic(auto, using(crate::proofs::Pieces::one_line_more))]
pub(crate) fn lines_from(
    alloc: Global,
    history: &[Entry],
    first: usize,
) -> Result<Items<u8>, NoMemory>
    requires within { first ≤ length history.now }
    requires few { length history.now ≤ 1024 }
    ensures { IfOk result (λ piece. entry_lines (reverse history.now) ≡ entry_lines (reverse (take first history.now)) ++ piece) }
{
    one_more_entry();
    let mut text = String::new(alloc);
    for number in first..history.len() {
        let line = entry_line(alloc, number as u32, &history[number])?;
        text.push_str(line.as_str())?;
    }
    Ok(Items::from_vec(text.into_bytes()))
}
