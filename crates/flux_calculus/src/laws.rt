// The laws of the definitions. Each function here does nothing: its contract is the law.
ghost use Rattle.flux_calculus.specs.Laws.{DerivationIsComputed, ExcessIsComputed, DerivationIsUnique, ExcessIsUnique, DerivedIsNoExcess, DerivationGoesDeeper, NumberedDerivationIsComputed, NumberedDerivationIsUnique, NumbersAreErased, NumbersAreFound, EditsFollow, EditsGrow};
ghost use Rattle.flux_calculus.specs.Typing.{TypedQueriesHaveValues, QueryTypingIsUnique};
ghost use Rattle.flux_trees.specs.Same.{SameComputes};

/// A statement makes a forest of another by the rules exactly where the function that carries
/// statements out gives it.
pub fn derivation_is_computed()
    ensures { DerivationIsComputed }
{}

/// A statement meets a call with none left, by the rules, exactly where the function says so, and
/// at the same place.
pub fn excess_is_computed()
    ensures { ExcessIsComputed }
{}

/// A statement makes at most one forest of another, meets a call with none left at one place at
/// most, and never both.
pub fn run_is_unique()
    ensures derivation { DerivationIsUnique }
    ensures excess { ExcessIsUnique }
    ensures not_both { DerivedIsNoExcess }
{}

/// What a statement makes of a forest it makes of it with more calls to go.
pub fn derivation_goes_deeper()
    ensures { DerivationGoesDeeper }
{}

/// Over numbered forests a statement makes a forest and edits of another by the rules exactly where
/// the function gives them, and at most one forest with one list of edits.
pub fn numbered_derivation_is_computed()
    ensures computed { NumberedDerivationIsComputed }
    ensures unique { NumberedDerivationIsUnique }
{}

/// The derivations over numbered forests are those over plain forests, but for the numbers.
pub fn numbers_add_nothing()
    ensures erased { NumbersAreErased }
    ensures found { NumbersAreFound }
{}

/// The edits of a statement follow those before it. The numbers to come are always those before all
/// edits, less as many as the edits put nodes in.
pub fn edits_grow()
    ensures follow { EditsFollow }
    ensures grow { EditsGrow }
{}

/// Where each variable is bound to a member of its type, a query of a type has a value, and the
/// value is a member of the type.
pub fn typed_queries_have_values()
    ensures { TypedQueriesHaveValues }
{}

/// A query is typed with at most one outcome: a type, or a fault at a place.
pub fn query_typing_is_unique()
    ensures { QueryTypingIsUnique }
{}

/// The test of two forests that the value of a query names is true exactly where they are equal.
pub fn equality_computes()
    ensures { SameComputes }
{}
