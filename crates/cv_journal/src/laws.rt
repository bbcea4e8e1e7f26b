ghost use Rattle.cv_journal.specs.Statements.{NumbersAreReadBack, PiecesJoin, SomePiece};

/// The pieces between the marks of a text, joined by the mark, are the text.
pub fn pieces_join_again()
    ensures { PiecesJoin }
{}

/// Each text has a piece.
pub fn pieces_are_some()
    ensures { SomePiece }
{}

/// What is read as a number is the decimal text of a number in 32 bits, and each such text is read
/// as its number.
pub fn numbers_are_read_back()
    ensures { NumbersAreReadBack }
{}
