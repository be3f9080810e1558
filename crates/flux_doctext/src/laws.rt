// What the definitions of document text are good for.
ghost use Rattle.flux_doctext.specs.Documents.{CanonicalTextSpells, SpelledForestIsOverTable, SpelledForestIsUnique};
ghost use Rattle.flux_doctext.specs.Text.{TextTellsForest};

/// Where the text of each label is a label and each number has 64 bits, the canonical text of a
/// forest is the text of no other. It does nothing: its contract is the law.
pub fn text_tells_forest()
    ensures { TextTellsForest }
{}

/// The canonical text of a forest whose labels are labels of a table, whose texts are characters,
/// and whose numbers have 64 bits, spells that forest and no other. It does nothing: its contract
/// is the law.
pub fn canonical_text_spells()
    ensures { CanonicalTextSpells }
{}

/// Bytes spell one forest at most. It does nothing: its contract is the law.
pub fn spelled_forest_is_unique()
    ensures { SpelledForestIsUnique }
{}

/// Bytes that spell a forest over a table spell one whose labels are labels of the table, whose
/// texts are characters, and whose numbers have 64 bits. It does nothing: its contract is the law.
pub fn spelled_forest_is_over_table()
    ensures { SpelledForestIsOverTable }
{}
