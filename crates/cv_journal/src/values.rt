ghost use Rattle.std.specs.Prelude.{◌≡◌, option_map};
ghost use Rattle.cv_journal.specs.EntryReading.{value_in, values_in};
ghost use Rattle.cv_journal.specs.Views.{values_view};

use crate::pieces::{behind, cut};

/// The values of an entry's line, as they are written.
#[derive(Clone, Copy, Debug)]
pub struct Values<'t> {
    pub number: &'t [u8],
    pub run: &'t [u8],
    pub worker: &'t [u8],
    pub mode: &'t [u8],
    pub adopted: &'t [u8],
    pub end: &'t [u8],
    pub turns: &'t [u8],
    pub sites: &'t [u8],
    pub output: &'t [u8],
    pub tally: &'t [u8],
    pub fired: &'t [u8],
}

/// The values of a line; `None` where it is not these words, each with a value, joined by blanks.
#[tactic(auto, unfolding(crate::specs::EntryReading::values_in))]
pub fn values_of(line: &[u8]) -> Option<Values<'_>>
    ensures { option_map (λ v. values_view v) result ≡ values_in line.now }
{
    let (number, rest) = value(line, b"entry ")?;
    let (run, rest) = value(rest, b"run ")?;
    let (worker, rest) = value(rest, b"worker ")?;
    let (mode, rest) = value(rest, b"mode ")?;
    let (adopted, rest) = value(rest, b"adopted ")?;
    let (end, rest) = value(rest, b"end ")?;
    let (turns, rest) = value(rest, b"turns ")?;
    let (sites, rest) = value(rest, b"sites ")?;
    let (output, rest) = value(rest, b"output ")?;
    let (tally, rest) = value(rest, b"tally ")?;
    let fired = behind(rest, b"fired ")?;
    Some(Values {
        number,
        run,
        worker,
        mode,
        adopted,
        end,
        turns,
        sites,
        output,
        tally,
        fired,
    })
}

/// The value behind a word, up to the next blank, and what follows that.
#[tactic(auto, unfolding(crate::specs::EntryReading::value_in))]
fn value<'t>(text: &'t [u8], word: &[u8]) -> Option<(&'t [u8], &'t [u8])>
    ensures { option_map (λ p. (p.0.now, p.1.now)) result ≡ value_in word.now text.now }
{
    cut(behind(text, word)?, b' ')
}
