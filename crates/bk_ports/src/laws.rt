//! Laws on the order of reads and writes. A clause relates what holds before a call of a function to what holds behind
//! it, so none of `answer_lines` tells that order. But each call may fail, and the clauses tell the ending of each run.

ghost use Rattle.bk_ports.specs.Answered.{answers_of, of_fronts};
ghost use Rattle.bk_ports.specs.CallLaws.{AfterAFailedCallTheOtherStreamIsLeft, EachLineIsAnsweredBeforeTheNextRead};

use crate::Answerer;

/// Whatever reads and writes only by the calls of a source and a sink, and ends as the clauses `ending` and `faults` of
/// `answer_lines` say, whichever of its calls fail, answers each line whose line feed it took before it reads again.
pub fn each_line_is_answered_before_the_next_read<A: Answerer>(_answerer: &A)
    ensures { EachLineIsAnsweredBeforeTheNextRead
        (answers_of (of_fronts (record { answers = A.answers _answerer.now; may_want = A.may_want _answerer.now }))) }
{}

/// Whatever reads and writes only by the calls of a source and a sink, and ends as the clauses `ending` and `faults` of
/// `answer_lines` say, whichever of its calls fail, writes nothing after a failed read, and reads nothing after a
/// failed write.
pub fn after_a_failed_call_the_other_stream_is_left<A: Answerer>(_answerer: &A)
    ensures { AfterAFailedCallTheOtherStreamIsLeft
        (answers_of (of_fronts (record { answers = A.answers _answerer.now; may_want = A.may_want _answerer.now }))) }
{}
