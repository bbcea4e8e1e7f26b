ghost use Rattle.std.specs.Prelude.{◌≡◌, ◌<◌, ◌++◌, [], ◌∷◌, List, length, IfOk};
ghost use Rattle.cv_class.specs.Counted.{StandsFor};
ghost use Rattle.cv_class.specs.Rows.{AllCounted, class_by, counted_with, row_in};
ghost use Rattle.cv_histories.specs.Classes.{class_over};
ghost use Rattle.cv_histories.specs.Seen.{Seen};

use cv_base::{Class, Entry, NoMemory, TallyRow};
use std::alloc::Global;
use std::marker::Model;

/// What is kept of a candidate: whether in each entry the last check failed, and that with exactly
/// one violation; whether in some entry there was a violation, and more than one.
#[derive(Clone, Copy, Debug)]
struct Marks {
    each_failed: bool,
    each_once: bool,
    some: bool,
    some_more: bool,
}

impl Marks {
    /// No entry is counted.
    const NONE: Marks = Marks {
        each_failed: true,
        each_once: true,
        some: false,
        some_more: false,
    };

    /// The marks with one more entry, in whose tally the candidate has this row.
    fn counted(self, row: Option<TallyRow>) -> Marks
        ensures { result ≡ counted_with self row }
    {
        let violations = row.map_or(0, |row| row.violations);
        let last_failed = row.is_some_and(|row| !row.last_held);
        Marks {
            each_failed: self.each_failed && last_failed,
            each_once: self.each_once && last_failed && violations == 1,
            some: self.some || violations > 0,
            some_more: self.some_more || violations > 1,
        }
    }

    /// The class that the marks give.
    fn class(self) -> Class
        ensures { result ≡ class_by self }
    {
        if self.each_once {
            Class::Highly
        } else if self.each_failed && self.some_more {
            Class::Moderately
        } else if self.some {
            Class::Slightly
        } else {
            Class::Not
        }
    }
}

/// The classes of the candidates of a case over the entries that were counted, its first checked
/// failures. Contracts see the marks of each candidate, and say for which entries they stand.
#[derive(Debug, Drop)]
pub struct Classes {
    case: u32,
    marks: Vec<Marks>,
}

impl Model for Classes {
    ghost use Rattle.cv_class.specs.Counted.{ClassesOf};

    ghost Value = { ClassesOf };

    ghost view = { λ k. record { case = k.case; marks = k.marks.items } };
}

impl Classes {
    /// No entry is counted. The candidates of the case have the numbers below `candidates`.
    pub fn make(alloc: Global, case: u32, candidates: u32) -> Result<Classes, NoMemory>
        ensures case { IfOk result (λ k. k.case ≡ case) }
        ensures candidates { IfOk result (λ k. length k.marks ≡ candidates) }
        ensures empty { IfOk result (λ k. StandsFor k []) }
    {
        let marks = vec![in alloc; Marks::NONE; candidates as usize]?;
        Ok(Classes { case, marks })
    }

    /// Counts an entry. It takes no memory.
    pub fn count(&mut self, entry: &Entry)
        ensures counted { (before : List Seen) (s : Seen) → s.entry ≡ entry.now → StandsFor self.old before → StandsFor self.new (before ++ s ∷ []) }
        ensures case { self.new.case ≡ self.old.case }
        ensures candidates { length self.new.marks ≡ length self.old.marks }
    {
        count_each(&mut self.marks, self.case, entry.tally.as_slice());
    }

    /// The class of a candidate over the entries counted. It takes no memory.
    pub fn class(&self, candidate: u32) -> Class
        requires { candidate < length self.now.marks }
        ensures { (seen : List Seen) → StandsFor self.now seen → result ≡ class_over self.now.case candidate seen }
    {
        self.marks[candidate as usize].class()
    }
}

/// Counts an entry with this tally for each candidate of a case.
fn count_each(list: &mut [Marks], case: u32, tally: &[TallyRow])
    ensures { AllCounted case tally.now list.old list.new }
{
    for (candidate, marks) in list.iter_mut().enumerate() {
        *marks = marks.counted(row_at(tally, case, candidate));
    }
}

/// The first row of a candidate in a tally.
fn row_at(tally: &[TallyRow], case: u32, candidate: usize) -> Option<TallyRow>
    ensures { result ≡ row_in case candidate tally.now }
{
    tally
        .iter()
        .copied()
        .find(|row| row.case == case && row.index as usize == candidate)
}
