//! The table with its two words, its rule, and what its steps tell.
ghost use Rattle.std.specs.Prelude.{ℕ, List};
ghost use Rattle.atomic_table.specs.Seated.{TableId};
ghost use Rattle.cv_rule.specs.declared.view.Opening.{Opening};

use atomic_table::{Join, Play, Seat, Split, Table, TableRule};
use cv_rule::View;
use std::alloc::Global;
use std::marker::Brand;

/// What a table is told when it is made: for proofs, what there was at the making, the tables of
/// its versions, and the workers.
pub trait Opens<M, T> {
    ghost opening: { Self → Opening M };

    ghost versions: { Self → List T };

    ghost workers: { Self → List ℕ };
}

/// The office's rule.
pub struct Law;

impl<M, T, C: Opens<M, T>> TableRule<T, View<M, T>, C> for Law {
    ghost use Rattle.cv_office.specs.Told.{IsOffice};
    ghost use Rattle.cv_rule.specs.Steps.{master_at_start};

    ghost holds = { λ c s. IsOffice (C.opening c) s };

    ghost first = { λ c. master_at_start (C.opening c) (C.versions c) (C.workers c) };
}

/// The words that all passes share: word 0 is the number of versions, word 1 of draws.
pub type Board<M, T, C> = Table<T, View<M, T>, C, Law, Global>;

/// A seat of the table.
pub type Place<M, T> = Seat<T, View<M, T>>;

/// A load at a block entry.
pub struct Enters;

impl<M, T> Play<T, View<M, T>> for Enters {
    ghost use Rattle.cv_office.specs.Told.{Entered};

    ghost then = { Entered };
}

/// A draw.
pub struct Draws;

impl<M, T> Play<T, View<M, T>> for Draws {
    ghost use Rattle.cv_office.specs.Told.{Drew};

    ghost then = { Drew };
}

/// A load after a join.
pub struct Renews;

impl<M, T> Play<T, View<M, T>> for Renews {
    ghost use Rattle.cv_office.specs.Told.{Renewed};

    ghost then = { Renewed };
}

/// The load of a post without a new version.
pub struct Books;

impl<M, T> Play<T, View<M, T>> for Books {
    ghost use Rattle.cv_office.specs.Told.{Booked};

    ghost then = { Booked };
}

/// The add of a post with a new version.
pub struct Announces;

impl<M, T> Play<T, View<M, T>> for Announces {
    ghost use Rattle.cv_office.specs.Told.{Announced};

    ghost then = { Announced };
}

/// A pass's seat, for the first worker without a pass.
pub struct Seats;

impl<M, T> Split<View<M, T>> for Seats {
    ghost use Rattle.cv_rule.specs.Steps.{new_pass, seating};

    ghost left = { seating };

    ghost right = { new_pass };
}

/// A note without a row; and how a note, or a pass, is joined.
pub struct Notes;

impl<M, T> Split<View<M, T>> for Notes {
    ghost use Rattle.std.specs.Prelude.{[]};
    ghost use Rattle.cv_rule.specs.Steps.{note_of};

    ghost left = { λ v. v };

    ghost right = { λ v. note_of v [] };
}

impl<M, T> Join<View<M, T>> for Notes {
    ghost use Rattle.cv_rule.specs.Steps.{joined, spent};

    ghost both = { joined };

    ghost spent = { spent };
}

/// A note that takes the pass's row.
pub struct Sends;

impl<M, T> Split<View<M, T>> for Sends {
    ghost use Rattle.cv_rule.specs.Steps.{note_of, sending};

    ghost left = { sending };

    ghost right = { λ v. note_of v v.hand };
}

/// A note that takes the master's row.
pub struct GivesBack;

impl<M, T> Split<View<M, T>> for GivesBack {
    ghost use Rattle.cv_rule.specs.Steps.{note_of, giving_back};

    ghost left = { giving_back };

    ghost right = { λ v. note_of v v.hand };
}

/// For proofs, the name of one table: what lies in a lock, the table beside it and the passes of
/// one office each say that they are at that name.
pub trait Named {
    ghost table: { TableId };
}

impl Named for Brand {
    ghost use Rattle.cv_office.specs.Told.{no_table};

    ghost table = { no_table };
}
