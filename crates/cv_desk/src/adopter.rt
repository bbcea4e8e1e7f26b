//! The adopter over a pass.
ghost use Rattle.std.specs.Prelude.{◌≡◌};

use crate::office::Office;
use crate::pass::Pass;
use cv_base::{NoMemory, PatchTable};
use cv_office::Named;
use cv_patch::Adopter;
use std::alloc::Global;
use std::marker::Model;
use std::sync::{Arc, Wait};

/// A pass from which a live run gets its versions, with its office. Contracts see the pass.
#[derive(Drop)]
pub struct Seated<'a, N: Named, R: Wait> {
    pass: Pass<N>,
    office: &'a Office<N>,
    rt: &'a R,
}

impl<'a, N: Named, R: Wait> Model for Seated<'a, N, R> {
    ghost use Rattle.cv_desk.specs.Passes.{Sight};

    ghost Value = { Sight };

    ghost view = { λ s. s.pass };
}

impl<'a, N: Named, R: Wait> Seated<'a, N, R> {
    /// The adopter over a pass of an office. It takes no memory.
    pub fn make(pass: Pass<N>, office: &'a Office<N>, rt: &'a R) -> Seated<'a, N, R>
        ensures { result ≡ pass }
    {
        Seated { pass, office, rt }
    }

    /// The pass.
    pub fn into_pass(self) -> Pass<N>
        ensures { result ≡ self.entry }
    {
        let Seated { pass, .. } = self;
        pass
    }
}

impl<'a, N: Named, R: Wait> Adopter for Seated<'a, N, R> {
    ghost use Rattle.std.specs.Prelude.{◌≡◌, ◌≤◌};
    ghost use Rattle.cv_desk.specs.Passes.{Kept, kept_of};

    ghost Origin = { Kept };

    ghost origin = { kept_of };

    ghost Answers = { λ s versions. s.loaded ≡ versions };

    ghost HasAnswered = { λ s version. version ≤ s.reach };

    ghost tables = { λ s. s.known.versions };

    fn enter(&mut self) -> u32 {
        self.pass.enter(self.office)
    }

    fn table(&mut self, _alloc: Global, version: u32) -> Result<Arc<PatchTable, Global>, NoMemory> {
        self.pass.fetch(self.rt, self.office, version)
    }
}
