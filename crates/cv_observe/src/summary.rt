ghost use Rattle.std.specs.Prelude.{◌≡◌, [], ◌∷◌, ◌++◌, ◌<◌, ℕ, List, IfOk, IsOk, OnOk, OnErr, IsTrue};
ghost use Rattle.cv_base.specs.declared.entries.Observation.{Observation};
ghost use Rattle.cv_base.specs.Picture.{is_point};
ghost use Rattle.cv_observe.specs.StandsFor.{StandsFor};
ghost use Rattle.cv_runs.specs.Learned.{learned};

use crate::lessons::learned_of_points;
use crate::point::Point;
use crate::table::{clear_each, join_each, unseen_points};
use cv_base::{Invariant, Items, NoMemory, Regs};
use cv_blocks::TextMap;
use std::alloc::Global;
use std::marker::Model;

/// What was seen in normal runs of a text, in fixed size (docs/REPAIR.md, "Learning").
#[derive(Drop)]
pub struct Summary {
    map: TextMap,
    points: Vec<Point>,
}

impl Model for Summary {
    ghost use Rattle.cv_observe.specs.StandsFor.{SummaryOf, IsTable};

    ghost Value = { SummaryOf };

    ghost view = { λ s. record { text = s.map; points = s.points.items } };

    ghost invariant = { λ s. IsTable s.map s.points.items };
}

impl Summary {
    /// The summary of no observations of the map's text.
    pub fn make(alloc: Global, map: &TextMap) -> Result<Summary, NoMemory>
        ensures text { IfOk result (λ s. s.text ≡ map.now) }
        ensures empty { IfOk result (λ s. StandsFor s []) }
    {
        let map = map.copied(alloc)?;
        let points = unseen_points(alloc, &map)?;
        Ok(Summary { map, points })
    }

    /// Adds an observation: the point of a turn, and the registers and the frame's sp before it. It
    /// takes no memory.
    pub fn see(&mut self, point: u32, regs: &Regs, frame_sp: u32) -> Result<(), NoMemory>
        requires { IsTrue (is_point self.old.text point) }
        ensures ok { IsOk result }
        ensures seen { OnOk result ((seen : List Observation) → StandsFor self.old seen → StandsFor self.new (seen ++ record { point = point; regs = regs.now; frame_sp = frame_sp } ∷ [])) }
        ensures err { OnErr result (self.new ≡ self.old) }
        ensures text { self.new.text ≡ self.old.text }
    {
        let at = self.map.place(point);
        self.points[at].see(regs, frame_sp);
        Ok(())
    }

    /// Adds the observations of another summary of the same text. It takes no memory
    /// and always answers Ok.
    pub fn merge(&mut self, other: &Summary) -> Result<(), NoMemory>
        requires { other.now.text ≡ self.old.text }
        ensures ok { IsOk result }
        ensures merged { OnOk result ((xs ys : List Observation) → StandsFor self.old xs → StandsFor other.now ys → StandsFor self.new (xs ++ ys)) }
        ensures err { OnErr result (self.new ≡ self.old) }
        ensures text { self.new.text ≡ self.old.text }
    {
        join_each(
            &self.map,
            self.points.as_mut_slice(),
            other.points.as_slice(),
        );
        Ok(())
    }

    /// The invariants that are learned of the observations, in order.
    #[tactic(auto, using(crate::proofs::LearnedFrom::learned_is))]
    pub fn learned(&self, alloc: Global) -> Result<Items<Invariant>, NoMemory>
        ensures { (seen : List Observation) → StandsFor self.now seen → IfOk result (λ l. l ≡ learned self.now.text seen) }
    {
        learned_of_points(alloc, &self.map, self.points.as_slice())
    }

    /// Forgets all observations.
    pub fn clear(&mut self)
        ensures empty { StandsFor self.new [] }
        ensures text { self.new.text ≡ self.old.text }
    {
        clear_each(&self.map, self.points.as_mut_slice());
    }
}
