ghost use Rattle.std.specs.Prelude.{◌≡◌, ◌≤◌, ◌+◌, ℕ, None, option_map, IfSome};
ghost use Rattle.cv_runs.specs.BlockEntries.{is_entry, since_next};

use std::marker::Model;

/// Where blocks begin in a run: how many turns ago the last block entry was, from 1 to 64, and
/// `None` before the first turn (docs/REPAIR.md, "Block entries").
#[derive(Clone, Copy, Debug)]
pub struct EntryRule {
    since: Option<u8>,
}

impl Model for EntryRule {
    ghost use Rattle.std.specs.Prelude.{ℕ, ◌≤◌, Option, IfSome};

    ghost Value = { Option ℕ };

    ghost view = { λ r. r.since };

    ghost invariant = { λ r. IfSome r.since (λ n. n ≤ 64) };

    ghost inverse = { λ since. record { since = since } };
}

impl EntryRule {
    /// The rule before the first turn of a run.
    pub fn make() -> EntryRule
        ensures { result ≡ None }
    {
        EntryRule { since: None }
    }

    /// Goes on to the next turn, and tells whether it is a block entry: the first turn of a run, the
    /// turn after a transfer, and the 64th after the last block entry.
    pub fn next(&mut self, after_transfer: bool) -> bool
        ensures entry { result ≡ is_entry self.old after_transfer }
        ensures since { self.new ≡ since_next (is_entry self.old after_transfer) self.old }
    {
        let (entry, since) = match self.since {
            Some(since) if !after_transfer && since < 64 => (false, since + 1),
            _ => (true, 1),
        };
        self.since = Some(since);
        entry
    }

    /// How many turns may follow of which none but the last is a transfer, and no block entry comes
    /// before the last: from 1 to 64, and 0 before the first turn.
    pub fn room(&self) -> u32
        ensures some { IfSome self.now (λ since. since + result ≡ 65) }
        ensures few { result ≤ 65 }
    {
        match self.since {
            Some(since) => 65 - u32::from(since),
            None => 0,
        }
    }

    /// Goes on over turns that are no transfers, where no block entry comes behind any of them.
    pub fn pass(&mut self, turns: u32)
        requires { IfSome self.old (λ since. since + turns ≤ 64) }
        ensures { self.new ≡ option_map (λ (since : ℕ). since + turns) self.old }
    {
        if let Some(since) = self.since {
            self.since = Some(since + turns as u8);
        }
    }
}
