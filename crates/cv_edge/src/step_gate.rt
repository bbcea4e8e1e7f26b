//! A gate by which two instances of a round take turns.
use crate::gate::{Gate, Moment};
use cv_base::NoMemory;
use std::alloc::Global;
use std::hint::spin_loop;
use std::sync::Wait;
use std::sync::atomic::{AtomicBool, AtomicU32, Ordering};

/// How many workers have a count.
const WORKERS: usize = 16;

/// The round in which workers are held.
const ROUND: u32 = 1;

/// The entry at which a worker is held.
const THIRD: u32 = 3;

/// Holds workers in round 1 so that a post comes between the second and the third entry of a run:
/// before a post until some worker has come to its third entry, and at its third entry until some
/// worker has posted. Who has come to its third entry itself is not held before its post.
///
/// Entries are counted by worker, over all its runs of the round. Each wait gives up after a number of
/// polls; one poll is one look at the mark. The marks stay once they are set, so a gate serves one
/// community. Workers of other numbers than 0 to 15 pass.
#[derive(Drop)]
pub struct StepGate {
    polls: u32,
    /// By worker, how many entries it has come to, up to the third.
    entries: Vec<AtomicU32>,
    /// Whether some worker has come to its third entry.
    is_third: AtomicBool,
    /// Whether some worker has posted.
    is_posted: AtomicBool,
}

impl StepGate {
    /// A gate that no worker has passed, whose waits give up after so many polls.
    pub fn make(alloc: Global, polls: u32) -> Result<StepGate, NoMemory> {
        let mut entries = Vec::with_capacity(alloc, WORKERS)?;
        for _ in 0..WORKERS {
            entries.push(AtomicU32::new(0))?;
        }
        Ok(StepGate {
            polls,
            entries,
            is_third: AtomicBool::new(false),
            is_posted: AtomicBool::new(false),
        })
    }

    /// Waits until a mark is set, or the polls are used up.
    fn wait_for(&self, mark: &AtomicBool) {
        for _ in 0..self.polls {
            if mark.load(Ordering::SeqCst) {
                return;
            }
            spin_loop();
        }
    }
}

impl Gate for StepGate {
    fn pass<R: Wait>(&self, _rt: &R, worker: u32, round: u32, moment: Moment) {
        let Some(entries) = self.entries.get(worker as usize) else {
            return;
        };
        if round != ROUND {
            return;
        }
        match moment {
            Moment::Begin => {}
            Moment::Entry => {
                if comes_third(entries) {
                    self.is_third.store(true, Ordering::SeqCst);
                    self.wait_for(&self.is_posted);
                }
            }
            Moment::Post => self.wait_for(&self.is_third),
            Moment::Posted => self.is_posted.store(true, Ordering::SeqCst),
        }
    }
}

/// Counts an entry, up to the third; whether it is the third.
fn comes_third(entries: &AtomicU32) -> bool {
    entries.load(Ordering::SeqCst) < THIRD && entries.fetch_add(1, Ordering::SeqCst) == THIRD - 1
}
