//! Gates, which instances pass at some moments, so that tests can hold them there.
use std::sync::Wait;

/// When an instance passes a gate.
#[derive(Clone, Copy, Debug, PartialEq, Eq)]
pub enum Moment {
    /// Before a draw.
    Begin,
    /// In a live run, before each load of the newest version.
    Entry,
    /// Before a post.
    Post,
    /// After a post that was not refused.
    Posted,
}

/// What instances pass on their way. It answers nothing, and may let its caller wait.
pub trait Gate: Sync {
    /// The worker of this number comes to a moment of the round of this number.
    fn pass<R: Wait>(&self, rt: &R, worker: u32, round: u32, moment: Moment);
}

/// Lets all pass.
#[derive(Drop)]
pub struct OpenGate;

impl Gate for OpenGate {
    fn pass<R: Wait>(&self, _rt: &R, _worker: u32, _round: u32, _moment: Moment) {}
}
