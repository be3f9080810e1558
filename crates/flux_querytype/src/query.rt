// The type of a query, or the first fault.
ghost use Rattle.std.specs.Prelude.{◌≡◌, ◌∷◌, OnOk, IfErr};
ghost use Rattle.flux_schema.specs.Labels.{Lacks};
ghost use Rattle.flux_types.specs.Read.{ty_of};
ghost use Rattle.flux_types.specs.Verdicts.{IsEvidence};
ghost use Rattle.flux_calculus.specs.declared.ask.Span.{Span as Place};
ghost use Rattle.flux_calculus.specs.Query.{element, binding, choice, alike, less, filter, each};
ghost use Rattle.flux_calculus.specs.Typing.{Types, of_query, of_map, returning};
ghost use Rattle.flux_query.specs.Read.{query_of, queries_of};
ghost use Rattle.flux_core.specs.Faults.{IsFault, IsUsable};
ghost use Rattle.flux_core.specs.Answers.{IsAnswer};
ghost use Rattle.flux_querytype.specs.Answers.{Leaves, QueryLacks, IsReady, IsAfter, IsTruth, InAnyChoice, IsNumber, InAnyComparison};

use crate::filter::filtered;
use crate::leaf::{place, type_child, type_variable};
use flux_atom::{AtomKind, Name, kind};
use flux_calculus::{Span, Test, Var};
use flux_core::{
    Gamma, KindFault, Measured, Turn, Walk, either, in_sequence, measure, nothing, one_atom,
    one_element, own,
};
use flux_query::Query;
use flux_types::{Decider, Ty, Verdict};
use std::alloc::Global;

// What is done with each tree of a type: the variable is bound to it, and the body is typed.
#[derive(Drop)]
struct Step<'q> {
    span: Span,
    var: Var,
    body: &'q Query,
}

#[cycle(typing)]
pub(crate) fn type_of<D: Decider>(
    alloc: Global,
    query: &Query,
    gamma: &mut Gamma,
    decider: &mut D,
) -> Result<Measured, KindFault>
    requires ready { IsReady (D.definitions decider.old) (D.unnamed decider.old) gamma.old }
    requires query_lacks { QueryLacks (D.unnamed decider.old) (query_of query.now) }
    ensures answer { let defs = D.definitions decider.old in
        IsAnswer (IsEvidence defs (D.unnamed decider.old))
        (Types defs (of_query gamma.old (query_of query.now))) result }
    ensures left { Leaves D.definitions D.unnamed D.keeps D.known decider.old decider.new
        gamma.old gamma.new }
{
    match query {
        Query::Concat(queries, span) => {
            type_all(alloc, queries.as_slice(), *span, gamma, decider)
        }
        Query::Elem(label, content, span) => {
            type_element(alloc, content.get(), *label, *span, gamma, decider)
        }
        Query::Lit(atom, _) => Ok(one_atom(alloc, kind(atom))?),
        Query::Var(var, span) => type_variable(var, span, gamma, decider.defs()),
        Query::Let(var, bound, body, _) => {
            type_binding(alloc, bound.get(), var, body.get(), gamma, decider)
        }
        Query::If(condition, yes, no, span) => {
            let condition = condition.get();
            type_choice(alloc, condition, yes.get(), no.get(), *span, gamma, decider)
        }
        Query::Same(left, right, _) => {
            type_alike(alloc, left.get(), right.get(), gamma, decider)
        }
        Query::Less(left, right, _) => { type_less(alloc, left.get(), right.get(), gamma, decider) }
        Query::Child(var, span) => type_child(alloc, var, span, gamma, decider.defs()),
        Query::Filter(from, test, span) => {
            type_filter(alloc, from.get(), test, *span, gamma, decider)
        }
        Query::For(var, over, body, span) => {
            let step = Step {
                span: *span,
                var: *var,
                body: body.get(),
            };
            type_each(alloc, over.get(), &step, gamma, decider)
        }
    }
}

// Queries one behind the other. They are typed from the last to the first, so that two types at a
// time are kept: a fault of one gives way to a fault of one before it.
#[cycle(typing)]
fn type_all<D: Decider>(
    alloc: Global,
    queries: &[Query],
    span: Span,
    gamma: &mut Gamma,
    decider: &mut D,
) -> Result<Measured, KindFault>
    requires ready { IsReady (D.definitions decider.old) (D.unnamed decider.old) gamma.old }
    requires queries_lacks { QueryLacks (D.unnamed decider.old) (queries_of span queries.now) }
    ensures answer { let defs = D.definitions decider.old in
        IsAnswer (IsEvidence defs (D.unnamed decider.old))
        (Types defs (of_query gamma.old (queries_of span queries.now))) result }
    ensures left { Leaves D.definitions D.unnamed D.keeps D.known decider.old decider.new
        gamma.old gamma.new }
{
    let Some((last, others)) = queries.split_last() else {
        return Ok(nothing(alloc)?);
    };
    let mut outcome = type_of(alloc, last, gamma, decider);
    for query in others.iter().rev() {
        let first = type_of(alloc, query, gamma, decider);
        outcome = before(alloc, span, first, outcome);
    }
    outcome
}

fn before(
    alloc: Global,
    span: Span,
    first: Result<Measured, KindFault>,
    others: Result<Measured, KindFault>,
) -> Result<Measured, KindFault>
    ensures { IsAfter span first others result }
{
    let first = first?;
    let others = others?;
    in_sequence(alloc, span.from, first, others)
}

#[cycle(typing)]
fn type_element<D: Decider>(
    alloc: Global,
    content: &Query,
    label: Name,
    span: Span,
    gamma: &mut Gamma,
    decider: &mut D,
) -> Result<Measured, KindFault>
    requires ready { IsReady (D.definitions decider.old) (D.unnamed decider.old) gamma.old }
    requires label { ¬ (label ≡ D.unnamed decider.old) }
    requires content_lacks { QueryLacks (D.unnamed decider.old) (query_of content.now) }
    ensures answer { let defs = D.definitions decider.old in
        IsAnswer (IsEvidence defs (D.unnamed decider.old))
        (Types defs (of_query gamma.old (element span label (query_of content.now)))) result }
    ensures left { Leaves D.definitions D.unnamed D.keeps D.known decider.old decider.new
        gamma.old gamma.new }
{
    let content = type_of(alloc, content, gamma, decider)?;
    one_element(alloc, span.from, label, content)
}

#[cycle(typing)]
fn type_binding<D: Decider>(
    alloc: Global,
    bound: &Query,
    var: &Var,
    body: &Query,
    gamma: &mut Gamma,
    decider: &mut D,
) -> Result<Measured, KindFault>
    requires ready { IsReady (D.definitions decider.old) (D.unnamed decider.old) gamma.old }
    requires bound_lacks { QueryLacks (D.unnamed decider.old) (query_of bound.now) }
    requires body_lacks { QueryLacks (D.unnamed decider.old) (query_of body.now) }
    ensures answer { let defs = D.definitions decider.old in
        (at : Place) → IsAnswer (IsEvidence defs (D.unnamed decider.old))
        (Types defs (of_query gamma.old
        (binding at var.now (query_of bound.now) (query_of body.now)))) result }
    ensures left { Leaves D.definitions D.unnamed D.keeps D.known decider.old decider.new
        gamma.old gamma.new }
{
    let bound = type_of(alloc, bound, gamma, decider)?;
    type_under(alloc, body, var, bound, gamma, decider)
}

// A body with a variable of a type.
#[cycle(typing)]
fn type_under<D: Decider>(
    alloc: Global,
    body: &Query,
    var: &Var,
    made: Measured,
    gamma: &mut Gamma,
    decider: &mut D,
) -> Result<Measured, KindFault>
    requires ready { IsReady (D.definitions decider.old) (D.unnamed decider.old) gamma.old }
    requires body_lacks { QueryLacks (D.unnamed decider.old) (query_of body.now) }
    requires usable { IsUsable (D.definitions decider.old) (ty_of made.ty.value) }
    requires lacks { Lacks (D.unnamed decider.old) (ty_of made.ty.value) }
    ensures answer { let defs = D.definitions decider.old in
        IsAnswer (IsEvidence defs (D.unnamed decider.old))
        (Types defs (of_query ((var.now, ty_of made.ty.value) ∷ gamma.old) (query_of body.now)))
        result }
    ensures left { Leaves D.definitions D.unnamed D.keeps D.known decider.old decider.new
        gamma.old gamma.new }
{
    gamma.bind_shared(*var, &made)?;
    let outcome = type_of(alloc, body, gamma, decider);
    gamma.unbind();
    outcome
}

#[cycle(typing)]
fn type_choice<D: Decider>(
    alloc: Global,
    condition: &Query,
    yes: &Query,
    no: &Query,
    span: Span,
    gamma: &mut Gamma,
    decider: &mut D,
) -> Result<Measured, KindFault>
    requires ready { IsReady (D.definitions decider.old) (D.unnamed decider.old) gamma.old }
    requires condition_lacks { QueryLacks (D.unnamed decider.old) (query_of condition.now) }
    requires yes_lacks { QueryLacks (D.unnamed decider.old) (query_of yes.now) }
    requires no_lacks { QueryLacks (D.unnamed decider.old) (query_of no.now) }
    ensures answer { let defs = D.definitions decider.old in
        IsAnswer (IsEvidence defs (D.unnamed decider.old))
        (Types defs (of_query gamma.old
        (choice span (query_of condition.now) (query_of yes.now) (query_of no.now)))) result }
    ensures left { Leaves D.definitions D.unnamed D.keeps D.known decider.old decider.new
        gamma.old gamma.new }
{
    type_condition(alloc, condition, gamma, decider)?;
    let yes = type_of(alloc, yes, gamma, decider)?;
    let no = type_of(alloc, no, gamma, decider)?;
    either(alloc, span.from, yes, no)
}

#[cycle(typing)]
fn type_condition<D: Decider>(
    alloc: Global,
    condition: &Query,
    gamma: &mut Gamma,
    decider: &mut D,
) -> Result<(), KindFault>
    requires ready { IsReady (D.definitions decider.old) (D.unnamed decider.old) gamma.old }
    requires condition_lacks { QueryLacks (D.unnamed decider.old) (query_of condition.now) }
    ensures answer { OnOk result
        (IsTruth (D.definitions decider.old) gamma.old (query_of condition.now)) }
    ensures fault { let defs = D.definitions decider.old in
        IfErr result (IsFault (IsEvidence defs (D.unnamed decider.old))
        (InAnyChoice defs gamma.old (query_of condition.now))) }
    ensures left { Leaves D.definitions D.unnamed D.keeps D.known decider.old decider.new
        gamma.old gamma.new }
{
    let found = type_of(alloc, condition, gamma, decider)?;
    match decider.included(alloc, found.ty.as_ref(), &Ty::Atom(AtomKind::Bool))? {
        Verdict::Yes => Ok(()),
        Verdict::No(shown) => Err(KindFault::NotBool {
            place: place(condition),
            shown,
        }),
    }
}

#[cycle(typing)]
fn type_alike<D: Decider>(
    alloc: Global,
    left: &Query,
    right: &Query,
    gamma: &mut Gamma,
    decider: &mut D,
) -> Result<Measured, KindFault>
    requires ready { IsReady (D.definitions decider.old) (D.unnamed decider.old) gamma.old }
    requires left_lacks { QueryLacks (D.unnamed decider.old) (query_of left.now) }
    requires right_lacks { QueryLacks (D.unnamed decider.old) (query_of right.now) }
    ensures answer { let defs = D.definitions decider.old in
        (at : Place) → IsAnswer (IsEvidence defs (D.unnamed decider.old))
        (Types defs (of_query gamma.old
        (alike at (query_of left.now) (query_of right.now)))) result }
    ensures left { Leaves D.definitions D.unnamed D.keeps D.known decider.old decider.new
        gamma.old gamma.new }
{
    let _left = type_of(alloc, left, gamma, decider)?;
    let _right = type_of(alloc, right, gamma, decider)?;
    let made = one_atom(alloc, AtomKind::Bool)?;
    Ok(made)
}

#[cycle(typing)]
fn type_less<D: Decider>(
    alloc: Global,
    left: &Query,
    right: &Query,
    gamma: &mut Gamma,
    decider: &mut D,
) -> Result<Measured, KindFault>
    requires ready { IsReady (D.definitions decider.old) (D.unnamed decider.old) gamma.old }
    requires left_lacks { QueryLacks (D.unnamed decider.old) (query_of left.now) }
    requires right_lacks { QueryLacks (D.unnamed decider.old) (query_of right.now) }
    ensures answer { let defs = D.definitions decider.old in
        (at : Place) → IsAnswer (IsEvidence defs (D.unnamed decider.old))
        (Types defs (of_query gamma.old
        (less at (query_of left.now) (query_of right.now)))) result }
    ensures left { Leaves D.definitions D.unnamed D.keeps D.known decider.old decider.new
        gamma.old gamma.new }
{
    type_number(alloc, left, gamma, decider)?;
    type_number(alloc, right, gamma, decider)?;
    let made = one_atom(alloc, AtomKind::Bool)?;
    Ok(made)
}

// A side of a comparison.
#[cycle(typing)]
fn type_number<D: Decider>(
    alloc: Global,
    number: &Query,
    gamma: &mut Gamma,
    decider: &mut D,
) -> Result<(), KindFault>
    requires ready { IsReady (D.definitions decider.old) (D.unnamed decider.old) gamma.old }
    requires number_lacks { QueryLacks (D.unnamed decider.old) (query_of number.now) }
    ensures answer { OnOk result
        (IsNumber (D.definitions decider.old) gamma.old (query_of number.now)) }
    ensures fault { let defs = D.definitions decider.old in
        IfErr result (IsFault (IsEvidence defs (D.unnamed decider.old))
        (InAnyComparison defs gamma.old (query_of number.now))) }
    ensures left { Leaves D.definitions D.unnamed D.keeps D.known decider.old decider.new
        gamma.old gamma.new }
{
    let found = type_of(alloc, number, gamma, decider)?;
    match decider.included(alloc, found.ty.as_ref(), &Ty::Atom(AtomKind::Int))? {
        Verdict::Yes => Ok(()),
        Verdict::No(shown) => Err(KindFault::NotInt {
            place: place(number),
            shown,
        }),
    }
}

#[cycle(typing)]
fn type_filter<D: Decider>(
    alloc: Global,
    from: &Query,
    test: &Test,
    span: Span,
    gamma: &mut Gamma,
    decider: &mut D,
) -> Result<Measured, KindFault>
    requires ready { IsReady (D.definitions decider.old) (D.unnamed decider.old) gamma.old }
    requires from_lacks { QueryLacks (D.unnamed decider.old) (query_of from.now) }
    ensures answer { let defs = D.definitions decider.old in
        IsAnswer (IsEvidence defs (D.unnamed decider.old))
        (Types defs (of_query gamma.old (filter span (query_of from.now) test.now))) result }
    ensures left { Leaves D.definitions D.unnamed D.keeps D.known decider.old decider.new
        gamma.old gamma.new }
{
    let from = type_of(alloc, from, gamma, decider)?;
    let trees = own(alloc, from)?;
    filtered(alloc, trees, test, span.from, decider.defs())
}

#[cycle(typing)]
fn type_each<D: Decider>(
    alloc: Global,
    over: &Query,
    step: &Step<'_>,
    gamma: &mut Gamma,
    decider: &mut D,
) -> Result<Measured, KindFault>
    requires ready { IsReady (D.definitions decider.old) (D.unnamed decider.old) gamma.old }
    requires over_lacks { QueryLacks (D.unnamed decider.old) (query_of over.now) }
    requires body_lacks { QueryLacks (D.unnamed decider.old) (query_of step.now.body.now) }
    ensures answer { let defs = D.definitions decider.old in
        IsAnswer (IsEvidence defs (D.unnamed decider.old))
        (Types defs (of_query gamma.old
        (each step.now.span step.now.var (query_of over.now) (query_of step.now.body.now))))
        result }
    ensures left { Leaves D.definitions D.unnamed D.keeps D.known decider.old decider.new
        gamma.old gamma.new }
{
    let over = type_of(alloc, over, gamma, decider)?;
    let trees = own(alloc, over)?;
    type_trees(alloc, trees, step, gamma, decider)
}

// What a type becomes by a step at each of its trees.
#[cycle(typing)]
fn type_trees<D: Decider>(
    alloc: Global,
    ty: Ty,
    step: &Step<'_>,
    gamma: &mut Gamma,
    decider: &mut D,
) -> Result<Measured, KindFault>
    requires ready { IsReady (D.definitions decider.old) (D.unnamed decider.old) gamma.old }
    requires body_lacks { QueryLacks (D.unnamed decider.old) (query_of step.now.body.now) }
    requires usable { IsUsable (D.definitions decider.old) (ty_of ty) }
    requires lacks { Lacks (D.unnamed decider.old) (ty_of ty) }
    ensures answer { let defs = D.definitions decider.old in
        let returned = returning gamma.old step.now.var (query_of step.now.body.now) in
        IsAnswer (IsEvidence defs (D.unnamed decider.old))
        (Types defs (of_map step.now.span.from returned (ty_of ty))) result }
    ensures left { Leaves D.definitions D.unnamed D.keeps D.known decider.old decider.new
        gamma.old gamma.new }
{
    let mut walk = Walk::new(alloc, step.span.from);
    let mut turn = walk.enter(ty, decider.defs())?;
    loop {
        turn = match turn {
            Turn::Over(made) => return Ok(made),
            Turn::At(tree) => {
                let one = measure(alloc, tree)?;
                let made = type_under(alloc, step.body, &step.var, one, gamma, decider)?;
                walk.put(made, decider.defs())?
            }
        };
    }
}
