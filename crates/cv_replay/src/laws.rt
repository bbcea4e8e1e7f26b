ghost use Rattle.cv_replay.specs.Statements.{HonestIsFlown};

use cv_laws::{no_plain_turn, plain_turn_first, under_tables};

/// The run of an honest entry, told by its turns and by what the entry says that it adopted, is where
/// the steps of the entry say, before each of its turns.
pub fn honest_is_flown()
    ensures { HonestIsFlown }
{
    no_plain_turn();
    plain_turn_first();
    under_tables();
}
