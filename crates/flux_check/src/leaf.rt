// Statements of which no part is a statement, and conditions.
ghost use Rattle.std.specs.Prelude.{◌≡◌, map, length, IfOk, IfErr, OnOk, IsSomeAnd};
ghost use Rattle.flux_schema.specs.Labels.{Lacks};
ghost use Rattle.flux_types.specs.Read.{ty_of};
ghost use Rattle.flux_types.specs.Kept.{AreKept};
ghost use Rattle.flux_types.specs.Verdicts.{IsVerdict, IsEvidence};
ghost use Rattle.flux_calculus.specs.Typing.{Context};
ghost use Rattle.flux_calculus.specs.Query.{place_of};
ghost use Rattle.flux_calculus.specs.Core.{Procs as Procedures, insert, rename};
ghost use Rattle.flux_schema.specs.Ty.{Ty as Tree};
ghost use Rattle.flux_query.specs.Read.{query_of};
ghost use Rattle.flux_core.specs.Faults.{ShowsNothing, IsFault, IsUsable};
ghost use Rattle.flux_core.specs.Answers.{IsAnswer};
ghost use Rattle.flux_querytype.specs.Answers.{Leaves, QueryLacks, IsReady, IsTruth};
ghost use Rattle.flux_check.specs.Answers.{Comes, InAnyChoice};
ghost use Rattle.flux_check.specs.Ones.{measured_type};

use crate::one::{open_element, tree_of};
use flux_atom::{AtomKind, Name};
use flux_calculus::Span;
use flux_core::{Gamma, KindFault, Measured, measure, one_element};
use flux_query::Query;
use flux_querytype::type_query;
use flux_types::{Decider, Defs, Ty, Verdict};
use std::alloc::{AllocError, Global};

// Where the text of a query begins.
pub(crate) fn place(query: &Query) -> u32
    ensures { result ≡ place_of (query_of query.now) }
{
    match query {
        Query::Concat(_, span)
        | Query::Elem(_, _, span)
        | Query::Lit(_, span)
        | Query::Var(_, span)
        | Query::Let(_, _, _, span)
        | Query::If(_, _, _, span)
        | Query::Same(_, _, span)
        | Query::Less(_, _, span)
        | Query::Child(_, span)
        | Query::Filter(_, _, span)
        | Query::For(_, _, _, span) => span.from,
    }
}

// Whether a type is included in another.
pub(crate) fn compare<D: Decider>(
    alloc: Global,
    found: &Ty,
    wanted: &Ty,
    decider: &mut D,
) -> Result<Verdict, AllocError>
    requires found { IsUsable (D.definitions decider.old) (ty_of found.now) }
    requires found_lacks { Lacks (D.unnamed decider.old) (ty_of found.now) }
    requires wanted { IsUsable (D.definitions decider.old) (ty_of wanted.now) }
    requires wanted_lacks { Lacks (D.unnamed decider.old) (ty_of wanted.now) }
    ensures verdict { IfOk result (IsVerdict (D.definitions decider.old) (D.unnamed decider.old)
        (ty_of found.now) (ty_of wanted.now)) }
    ensures left { (Γ : Context) →
        Leaves D.definitions D.unnamed D.keeps D.known decider.old decider.new Γ Γ }
{
    decider.included(alloc, found, wanted)
}

// A condition: a query of a type that is included in `bool`.
pub(crate) fn type_condition<D: Decider>(
    alloc: Global,
    condition: &Query,
    gamma: &mut Gamma,
    decider: &mut D,
) -> Result<(), KindFault>
    requires ready { IsReady (D.definitions decider.old) (D.unnamed decider.old) gamma.old }
    requires condition_lacks { QueryLacks (D.unnamed decider.old) (query_of condition.now) }
    ensures answer { OnOk result
        (IsTruth (D.definitions decider.old) gamma.old (query_of condition.now)) }
    ensures fault { let defs = D.definitions decider.old in
        (procs : Procedures) (t : Tree) → IfErr result
        (IsFault (IsEvidence defs (D.unnamed decider.old))
        (InAnyChoice procs defs gamma.old t (query_of condition.now))) }
    ensures left { Leaves D.definitions D.unnamed D.keeps D.known decider.old decider.new
        gamma.old gamma.new }
{
    let found = type_query(alloc, gamma, condition, decider)?;
    match compare(alloc, &found, &Ty::Atom(AtomKind::Bool), decider)? {
        Verdict::Yes => Ok(()),
        Verdict::No(shown) => Err(KindFault::NotBool {
            place: place(condition),
            shown,
        }),
    }
}

// A query in the place of an empty focus.
pub(crate) fn type_insertion<D: Decider>(
    alloc: Global,
    focus: &Measured,
    query: &Query,
    span: Span,
    gamma: &mut Gamma,
    decider: &mut D,
) -> Result<Measured, KindFault>
    requires ready { IsReady (D.definitions decider.old) (D.unnamed decider.old) gamma.old }
    requires usable { IsUsable (D.definitions decider.old) (measured_type focus.now) }
    requires lacks { Lacks (D.unnamed decider.old) (measured_type focus.now) }
    requires query_lacks { QueryLacks (D.unnamed decider.old) (query_of query.now) }
    ensures answer { let defs = D.definitions decider.old in
        (procs : Procedures) → IsAnswer (IsEvidence defs (D.unnamed decider.old))
        (Comes procs defs gamma.old (measured_type focus.now) (insert span (query_of query.now)))
        result }
    ensures left { Leaves D.definitions D.unnamed D.keeps D.known decider.old decider.new
        gamma.old gamma.new }
{
    if let Verdict::No(shown) = compare(alloc, focus.ty.as_ref(), &Ty::Empty, decider)? {
        return Err(KindFault::NotEmpty {
            place: span.from,
            shown,
        });
    }
    let ty = type_query(alloc, gamma, query, decider)?;
    Ok(measure(alloc, ty)?)
}

// Another label for one element.
pub(crate) fn type_renaming(
    alloc: Global,
    focus: Measured,
    label: Name,
    span: Span,
    defs: &Defs,
) -> Result<Measured, KindFault>
    requires defs { AreKept defs.now }
    requires usable { IsUsable defs.now (measured_type focus) }
    ensures { (procs : Procedures) (Γ : Context) → IsAnswer ShowsNothing
        (Comes procs defs.now Γ (measured_type focus) (rename span label)) result }
{
    let Some(one) = tree_of(alloc, focus, defs)? else {
        return Err(KindFault::NotSingle { place: span.from });
    };
    match open_element(alloc, one)? {
        Some(element) => one_element(alloc, span.from, label, element.content),
        None => Err(KindFault::NotElement { place: span.from }),
    }
}
