//! What there is when an office is made.
use cv_base::{Entry, PatchTable, Plan};
use cv_core::Book;
use cv_office::Opens;
use std::collections::LinkedList;
use std::marker::Model;

/// The plan, the round and the history when an office is made. It exists in proofs alone.
#[derive(Drop)]
pub struct Making {
    pub plan: Plan,
    pub round: u64,
    pub past: LinkedList<Entry>,
}

/// The book and the round that an office's table is made for.
#[derive(Drop)]
pub struct Setting {
    pub(crate) book: Book,
    pub(crate) round: u32,
}

impl Model for Setting {
    ghost use Rattle.cv_desk.specs.Openings.{IsSetting, SettingOf};

    ghost Value = { SettingOf };

    ghost view = { λ s. record { plan = s.book.plan; past = s.book.past; round = s.round } };

    ghost invariant = { λ s. IsSetting (record { plan = s.book.plan; past = s.book.past; round = s.round }) };
}

impl Opens<Making, PatchTable> for Setting {
    ghost use Rattle.cv_desk.specs.Openings.{opening_of, versions_of, workers_of};

    ghost opening = { opening_of };

    ghost versions = { versions_of };

    ghost workers = { workers_of };
}
