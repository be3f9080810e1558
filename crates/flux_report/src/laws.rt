// A law of the definitions. The function here does nothing: its contract is the law.
ghost use Rattle.flux_report.specs.ReadsBack.{TypesReadBack};

/// The text that `write_type` of `flux_types` gives of a tidied type reads as a type with the same
/// members, where its labels and the names of definitions are what a script can write, and it isn't
/// too deep.
pub fn printed_types_read_back()
    ensures { TypesReadBack }
{}
