ghost use Rattle.cv_resume.specs.Restored.{AnswersAreOne};
ghost use Rattle.cv_resume.specs.Resumed.{RoundsJoin};

use cv_audit::{one_more_entry, tests_are_following};
use cv_histories::legal_before;

/// A law of the definitions, with nothing to run: under a plan pieces come to one book or to one
/// fault, and never to both.
pub fn answers_are_one()
    ensures { AnswersAreOne }
{
    tests_are_following();
    one_more_entry();
    legal_before();
}

/// A law of the definitions: the pieces of rounds, joined, are the entry lines by which a history
/// has grown.
pub fn rounds_join()
    ensures { RoundsJoin }
{}
