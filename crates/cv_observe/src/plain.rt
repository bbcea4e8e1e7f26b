ghost use Rattle.std.specs.Prelude.{◌≡◌, [], ◌∷◌, ◌++◌, List, IfOk, OnOk, OnErr, IsTrue};
ghost use Rattle.cv_base.specs.declared.entries.Observation.{Observation};
ghost use Rattle.cv_base.specs.Picture.{is_point};
ghost use Rattle.cv_runs.specs.Learned.{learned};

use crate::learning::learned_of;
use cv_base::{Invariant, Items, NoMemory, Observation, Regs};
use cv_blocks::TextMap;
use std::alloc::Global;
use std::marker::Model;

/// A summary that keeps a list of all observations: the slow program that `Summary` is compared
/// with.
#[derive(Drop)]
pub struct Plain {
    map: TextMap,
    seen: Vec<Observation>,
}

impl Model for Plain {
    ghost use Rattle.std.specs.Prelude.{IsTrue};
    ghost use Rattle.cv_observe.specs.Plain.{PlainOf};
    ghost use Rattle.cv_observe.specs.StandsFor.{are_at_points};

    ghost Value = { PlainOf };

    ghost view = { λ s. record { text = s.map; seen = s.seen.items } };

    ghost invariant = { λ s. IsTrue (are_at_points s.map s.seen.items) };
}

impl Plain {
    /// The summary of no observations of the map's text.
    pub fn make(alloc: Global, map: &TextMap) -> Result<Plain, NoMemory>
        ensures text { IfOk result (λ s. s.text ≡ map.now) }
        ensures empty { IfOk result (λ s. s.seen ≡ []) }
    {
        let map = map.copied(alloc)?;
        Ok(Plain {
            map,
            seen: Vec::new(alloc),
        })
    }

    /// Adds an observation: the point of a turn, and the registers and the frame's sp before it.
    pub fn see(&mut self, point: u32, regs: &Regs, frame_sp: u32) -> Result<(), NoMemory>
        requires { IsTrue (is_point self.old.text point) }
        ensures seen { OnOk result (self.new.seen ≡ self.old.seen ++ record { point = point; regs = regs.now; frame_sp = frame_sp } ∷ []) }
        ensures err { OnErr result (self.new ≡ self.old) }
        ensures text { self.new.text ≡ self.old.text }
    {
        self.seen.push(Observation {
            point,
            regs: *regs,
            frame_sp,
        })?;
        Ok(())
    }

    /// Adds the observations of another summary of the same text.
    pub fn merge(&mut self, other: &Plain) -> Result<(), NoMemory>
        requires { other.now.text ≡ self.old.text }
        ensures merged { OnOk result (self.new.seen ≡ self.old.seen ++ other.now.seen) }
        ensures err { OnErr result (self.new ≡ self.old) }
        ensures text { self.new.text ≡ self.old.text }
    {
        self.seen.extend_from_slice(other.seen.as_slice())?;
        Ok(())
    }

    /// The invariants that are learned of the observations, in order.
    pub fn learned(&self, alloc: Global) -> Result<Items<Invariant>, NoMemory>
        ensures { IfOk result (λ l. l ≡ learned self.now.text self.now.seen) }
    {
        learned_of(alloc, &self.map, self.seen.as_slice())
    }

    /// Forgets all observations.
    pub fn clear(&mut self)
        ensures empty { self.new.seen ≡ [] }
        ensures text { self.new.text ≡ self.old.text }
    {
        self.seen.clear();
    }
}
