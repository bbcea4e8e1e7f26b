//! The gate at the block entries of a live run.
use cv_edge::{Gate, Moment};
use cv_patch::Watcher;
use std::sync::Wait;

/// Passes a gate at each block entry of a live run.
#[derive(Drop)]
pub(crate) struct GateWatcher<'a, R: Wait, G: Gate> {
    pub(crate) rt: &'a R,
    pub(crate) gate: &'a G,
    pub(crate) worker: u32,
    pub(crate) round: u32,
}

impl<'a, R: Wait, G: Gate> Watcher for GateWatcher<'a, R, G> {
    fn entry(&mut self, _turn: u32) {
        self.gate
            .pass(self.rt, self.worker, self.round, Moment::Entry);
    }
}
