// The laws of the definitions. Each function here does nothing: its contract is the law.
ghost use Rattle.flux_grammar.specs.Grammar.{type, expr, script};
ghost use Rattle.flux_grammar.specs.Lexemes.{PiecesAreUnique};
ghost use Rattle.flux_grammar.specs.Names.{
  TypeTextNames,
  ExprNames,
  ScriptNames,
  NamesAreOfPieces,
};
ghost use Rattle.flux_grammar.specs.NormalNames.{NormalFormKeepsNames};
ghost use Rattle.flux_grammar.specs.OneNormalForm.{NormalFormIsUnique};
ghost use Rattle.flux_grammar.specs.Readings.{ReadingIsUnique, PrefixesFit, ReadingsFit};
ghost use Rattle.flux_grammar.specs.Tokens.{TokensAreUnique};

/// Bytes are one list of tokens at most.
pub fn tokens_are_unique()
    ensures { TokensAreUnique }
{}

/// The pieces of a text read as one script at most, as one type and as one query.
pub fn readings_are_unique()
    ensures scripts { ReadingIsUnique script }
    ensures types { ReadingIsUnique (type 0) }
    ensures queries { ReadingIsUnique (expr 0) }
{}

/// Where pieces fit, those that stand before the others fit too: for each text that doesn't read,
/// there is one first piece that doesn't fit.
pub fn prefixes_fit()
    ensures scripts { PrefixesFit script }
    ensures types { PrefixesFit (type 0) }
    ensures queries { PrefixesFit (expr 0) }
{}

/// Tokens are one list of pieces at most, over a table of names.
pub fn pieces_are_unique()
    ensures { PiecesAreUnique }
{}

/// Pieces that have a reading fit.
pub fn readings_fit()
    ensures scripts { ReadingsFit script }
    ensures types { ReadingsFit (type 0) }
    ensures queries { ReadingsFit (expr 0) }
{}

/// What holds of each name of the pieces of a text holds of each name of the tree that they read
/// as.
pub fn names_are_of_pieces()
    ensures scripts { NamesAreOfPieces script ScriptNames }
    ensures types { NamesAreOfPieces (type 0) TypeTextNames }
    ensures queries { NamesAreOfPieces (expr 0) ExprNames }
{}

/// What holds of each name of a script holds of each name of its normal form.
pub fn normal_form_keeps_names()
    ensures { NormalFormKeepsNames }
{}

/// A script has one normal form at most.
pub fn normal_form_is_unique()
    ensures { NormalFormIsUnique }
{}
