//! A law on documents. The function does nothing: its contract is the law, and a caller whose proof
//! needs the law calls it.
ghost use Rattle.loom_reader.specs.ReadBack.{AnswersAreReadBack};

/// The line of an answer that is told in full (`IsTold`) is read for a check as the version, the
/// project and the plan of the answer.
pub fn answers_are_read_back()
    ensures { AnswersAreReadBack }
{}
