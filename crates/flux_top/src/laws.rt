// What the answers are.
ghost use Rattle.flux_top.specs.Unique.{AnswerIsUnique};

/// The program has at most one answer over the files that a folder holds. It does nothing: its
/// contract is the law.
pub fn answer_is_unique()
    ensures { AnswerIsUnique }
{}
