ghost use Rattle.std.specs.Prelude.{◌≡◌, ◌<◌, List, length, IfOk};
ghost use Rattle.cv_base.specs.declared.cases.Case.{Case};
ghost use Rattle.cv_class.specs.Counted as marks;
ghost use Rattle.cv_histories.specs.Classes.{first_checked};
ghost use Rattle.cv_histories.specs.Installed.{again, best_repair};
ghost use Rattle.cv_histories.specs.Repairs.{repairs_of};
ghost use Rattle.cv_histories.specs.Seen.{Seen};
ghost use Rattle.cv_manager.specs.Posting.{IsDecidedNow, all_of};
ghost use Rattle.cv_manager.specs.Progress.{Decides, chosen_numbers, classes_from, is_same_class, numbers_where};
ghost use Rattle.cv_manager.specs.Tables.{IsCase};
ghost use Rattle.cv_score.specs.Charged as charges;

use crate::posting::Posting;
use cv_base::{Case, Class, Items, NoMemory, Repair};
use cv_class::Classes;
use cv_score::Scores;
use std::alloc::Global;
use std::marker::Model;

/// What was decided of a case: the classes of its candidates, its repairs with their scores, and the
/// installed one.
#[derive(Drop)]
pub(crate) struct Decided {
    pub(crate) classes: Items<Class>,
    pub(crate) repairs: Items<Repair>,
    pub(crate) scores: Scores,
    pub(crate) installed: Option<u32>,
}

impl Model for Decided {
    ghost use Rattle.cv_manager.specs.Progress.{DecidedOf};

    ghost Value = { DecidedOf };

    ghost view = { λ d. record { classes = d.classes; repairs = d.repairs; scores = d.scores; installed = d.installed } };
}

impl Decided {
    /// What is decided of a case at its last checked failure that counts, which is posted. The best
    /// of its repairs is installed.
    pub(crate) fn make(
        alloc: Global,
        posting: &Posting<'_>,
        number: u32,
        case: &Case,
    ) -> Result<Decided, NoMemory>
        requires case { IsCase posting.now.plan.image case.now }
        requires decided { IsDecidedNow posting.now number case.now }
        ensures { IfOk result (λ d. Decides posting.now.plan number case.now (all_of posting.now) d) }
    {
        let classes = classes_now(alloc, posting, number, case)?;
        let repairs = repairs_now(alloc, posting, number, case, classes.as_slice())?;
        let scores = posting.scores(alloc, number, case, repairs.len() as u32)?;
        let installed = best_of(&scores, repairs.as_slice());
        Ok(Decided {
            classes,
            repairs,
            scores,
            installed,
        })
    }

    /// The same with one more entry, which is posted: where it is a fail of the installed repair, the
    /// best is installed.
    pub(crate) fn with_entry(
        &self,
        alloc: Global,
        posting: &Posting<'_>,
        number: u32,
        case: &Case,
    ) -> Result<Decided, NoMemory>
        requires { Decides posting.now.plan number case.now posting.now.past self.now }
        ensures { IfOk result (λ d. Decides posting.now.plan number case.now (all_of posting.now) d) }
    {
        let mut scores = self.scores.copied(alloc)?;
        posting.charge(number, &mut scores);
        let repairs = self.repairs.as_slice();
        let installed = again(posting, number, &scores, repairs, self.installed);
        let classes = Items::from_slice(alloc, self.classes.as_slice())?;
        let repairs = Items::from_slice(alloc, repairs)?;
        Ok(Decided {
            classes,
            repairs,
            scores,
            installed,
        })
    }
}

/// The classes of the candidates of a case at its last checked failure that counts, which is posted.
fn classes_now(
    alloc: Global,
    posting: &Posting<'_>,
    number: u32,
    case: &Case,
) -> Result<Items<Class>, NoMemory>
    requires case { IsCase posting.now.plan.image case.now }
    requires decided { IsDecidedNow posting.now number case.now }
    ensures { IfOk result (λ list. list ≡ classes_from number 0 (first_checked posting.now.plan number case.now (all_of posting.now)) case.now.candidates) }
{
    let counted = posting.classes(alloc, number, case)?;
    classes_of(alloc, &counted, case)
}

/// The repairs of a case at its last checked failure that counts, which is posted, from the classes
/// of its candidates.
fn repairs_now(
    alloc: Global,
    posting: &Posting<'_>,
    number: u32,
    case: &Case,
    classes: &[Class],
) -> Result<Items<Repair>, NoMemory>
    requires case { IsCase posting.now.plan.image case.now }
    requires decided { IsDecidedNow posting.now number case.now }
    requires classes { classes.now ≡ classes_from number 0 (first_checked posting.now.plan number case.now (all_of posting.now)) case.now.candidates }
    ensures repairs { IfOk result (λ r. r ≡ repairs_of posting.now.plan number case.now (all_of posting.now)) }
    ensures few { IfOk result (λ r. length r < 4294967296) }
{
    let chosen = chosen(alloc, classes)?;
    posting.repairs(alloc, case, chosen.as_slice())
}

/// The installed repair of a case with one more entry, which is posted and charged: where it is a
/// fail of the one that is installed, the best.
fn again(
    posting: &Posting<'_>,
    number: u32,
    scores: &Scores,
    repairs: &[Repair],
    installed: Option<u32>,
) -> Option<u32>
    requires number { scores.now.case ≡ number }
    requires counts { length scores.now.counts ≡ length repairs.now }
    ensures { (c : Case) → charges.StandsFor scores.now c (all_of posting.now) → repairs.now ≡ repairs_of posting.now.plan number c (all_of posting.now) → result ≡ again posting.now.plan number c posting.now.new posting.now.past installed }
{
    match installed {
        Some(repair) if posting.is_fail(number, scores, repair) => best_of(scores, repairs),
        _ => installed,
    }
}

/// The best of the repairs, where there is one.
fn best_of(scores: &Scores, repairs: &[Repair]) -> Option<u32>
    requires { length scores.now.counts ≡ length repairs.now }
    ensures { (c : Case) (past : List Seen) → charges.StandsFor scores.now c past → result ≡ best_repair scores.now.case c repairs.now past }
{
    if repairs.is_empty() {
        None
    } else {
        Some(scores.best())
    }
}

/// The class of each candidate of a case over the entries counted.
fn classes_of(alloc: Global, counted: &Classes, case: &Case) -> Result<Items<Class>, NoMemory>
    requires each { length counted.now.marks ≡ length case.now.candidates }
    requires few { length case.now.candidates < 4294967296 }
    ensures { (seen : List Seen) → marks.StandsFor counted.now seen → IfOk result (λ list. list ≡ classes_from counted.now.case 0 seen case.now.candidates) }
{
    let mut classes = Vec::with_capacity(alloc, case.candidates.len())?;
    for candidate in 0..case.candidates.len() {
        classes.push(counted.class(candidate as u32))?;
    }
    Ok(Items::from_vec(classes))
}

/// The numbers of the candidates of a class.
fn numbers_of(alloc: Global, classes: &[Class], class: Class) -> Result<Vec<u32>, NoMemory>
    requires { length classes.now < 4294967296 }
    ensures { IfOk result (λ v. v.items ≡ numbers_where (λ k. is_same_class k class) 0 classes.now) }
{
    let mut numbers = Vec::new(alloc);
    for (number, of) in classes.iter().enumerate() {
        if *of == class {
            numbers.push(number as u32)?;
        }
    }
    Ok(numbers)
}

/// The numbers of the candidates that go with the failure: the highly correlated ones or, where there
/// is none, the moderately correlated ones.
fn chosen(alloc: Global, classes: &[Class]) -> Result<Vec<u32>, NoMemory>
    requires { length classes.now < 4294967296 }
    ensures { IfOk result (λ v. v.items ≡ chosen_numbers classes.now) }
{
    let highly = numbers_of(alloc, classes, Class::Highly)?;
    if highly.is_empty() {
        return numbers_of(alloc, classes, Class::Moderately);
    }
    Ok(highly)
}
