//! What the definitions of an answer come to.

ghost use Rattle.bk_answer.specs.AnswerLaws.{AFrontHasTheAnswer, ALineHasOneAnswer, CheckAcceptsTilings};

/// A line has at most one answer.
pub fn a_line_has_one_answer()
    ensures { ALineHasOneAnswer }
{}

/// A line is answered as its first 8,193 bytes are, which are all that is kept of it.
pub fn a_front_has_the_answer()
    ensures { AFrontHasTheAnswer }
{}

/// `check` accepts a code exactly when its squares tile the stated rectangle in code order: the answer to a line of at
/// most 8,192 bytes and 200 sides begins with `ok` exactly where some tiling has the code, the order and the size that
/// the line states; of a table row, the order, the size and the flat list of sides.
pub fn check_accepts_tilings()
    ensures { CheckAcceptsTilings }
{}
