// The laws of the definitions. Each function here does nothing: its contract is the law.
ghost use Rattle.flux_typing.specs.Laws.{UpdateTypingIsUnique, AcceptanceIsUnique, UpdateTypingKeepsDefinitions, ResultsAreKnown, ResultsLack, TypedStatementsRun, AcceptedScriptsRun, QueriesHaveOutcomes, UpdatesHaveOutcomes};

/// A statement is typed with at most one outcome, a type or a fault at a place, and so is a script.
pub fn outcome_is_unique()
    ensures typing { UpdateTypingIsUnique }
    ensures acceptance { AcceptanceIsUnique }
{}

/// The definitions behind a statement are those before it.
pub fn update_typing_keeps_definitions()
    ensures { UpdateTypingKeepsDefinitions }
{}

/// Each name in the type of a statement is defined, and each label in it is given.
pub fn results_are_known()
    ensures names { ResultsAreKnown }
    ensures labels { ResultsLack }
{}

/// A typed statement gives a member of its type, or it meets a call with none left, on each member
/// of the type that it is typed at.
pub fn typed_statements_run()
    ensures { TypedStatementsRun }
{}

/// Preservation and progress: so does the main statement of an accepted script, on each document
/// of the type that the script is for.
pub fn accepted_scripts_run()
    ensures { AcceptedScriptsRun }
{}

/// Each query and each statement is typed with an outcome.
pub fn typing_has_outcomes()
    ensures queries { QueriesHaveOutcomes }
    ensures updates { UpdatesHaveOutcomes }
{}
