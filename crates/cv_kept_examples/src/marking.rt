//! A gate that is marked by whoever passes it.
use cv_edge::{Gate, Moment};
use std::sync::Wait;
use std::sync::atomic::{AtomicBool, Ordering};

/// Whether some worker has passed.
#[derive(Drop)]
pub(crate) struct MarkingGate {
    is_passed: AtomicBool,
}

impl MarkingGate {
    /// A gate that no worker has passed.
    pub(crate) fn make() -> MarkingGate {
        MarkingGate {
            is_passed: AtomicBool::new(false),
        }
    }

    /// Whether some worker has passed.
    pub(crate) fn is_passed(&self) -> bool {
        self.is_passed.load(Ordering::SeqCst)
    }
}

impl Gate for MarkingGate {
    fn pass<R: Wait>(&self, _rt: &R, _worker: u32, _round: u32, _moment: Moment) {
        self.is_passed.store(true, Ordering::SeqCst);
    }
}
