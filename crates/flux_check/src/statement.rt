// The type of a statement at a focus, or the first fault.
ghost use Rattle.std.specs.Prelude.{◌≡◌, map};
ghost use Rattle.flux_types.specs.Read.{ty_of};
ghost use Rattle.flux_types.specs.Verdicts.{IsEvidence};
ghost use Rattle.flux_calculus.specs.declared.ask.Span.{Span as Place};
ghost use Rattle.flux_calculus.specs.Labels.{EachLabelOfTest};
ghost use Rattle.flux_calculus.specs.Core.{in_order, choice, binding, snapshot, test, children, left, right};
ghost use Rattle.flux_typing.specs.Labels.{CoreLacks};
ghost use Rattle.flux_query.specs.Read.{query_of};
ghost use Rattle.flux_core.specs.Answers.{IsAnswer};
ghost use Rattle.flux_core.specs.Statements.{core_of, procs_of};
ghost use Rattle.flux_core.specs.WellFormed.{CallsFit};
ghost use Rattle.flux_querytype.specs.Answers.{Leaves, QueryLacks};
ghost use Rattle.flux_check.specs.Answers.{Comes, IsStage, MapComes};
ghost use Rattle.flux_check.specs.Ones.{measured_type};

use crate::call::{Called, type_call};
use crate::leaf::{type_condition, type_insertion, type_renaming};
use crate::one::{Passing, close_element, labelled, open_element, passing_trees, tree_of};
use flux_calculus::{Span, Test, Var};
use flux_core::{
    Core, Gamma, KindFault, Measured, Param, Procs, Turn, Walk, either, in_sequence, measure,
    nothing, own,
};
use flux_query::Query;
use flux_querytype::type_query;
use flux_types::{Decider, Ty};
use std::alloc::Global;

// A condition and the two parts of a choice.
#[derive(Drop)]
struct Choice<'c> {
    condition: &'c Query,
    yes: &'c Core,
    no: &'c Core,
    span: Span,
}

// A body with a variable that is bound to the value of a query.
#[derive(Drop)]
struct Bound<'c> {
    var: Var,
    query: &'c Query,
    body: &'c Core,
    span: Span,
}

// A body under a test.
#[derive(Drop)]
struct Tested<'c> {
    test: Test,
    body: &'c Core,
    span: Span,
}

// A body, and where the statement stands that it is part of.
#[derive(Drop)]
struct Part<'c> {
    body: &'c Core,
    span: Span,
}

#[cycle(typing)]
pub(crate) fn type_core<D: Decider>(
    alloc: Global,
    procs: &Procs,
    focus: Measured,
    core: &Core,
    gamma: &mut Gamma,
    decider: &mut D,
) -> Result<Measured, KindFault>
    requires stage { IsStage (D.definitions decider.old) (D.unnamed decider.old) gamma.old
        (procs_of procs.now) (measured_type focus) }
    requires core_lacks { CoreLacks (D.unnamed decider.old) (core_of core.now) }
    requires calls { CallsFit (procs_of procs.now) (core_of core.now) }
    ensures answer { let defs = D.definitions decider.old in
        IsAnswer (IsEvidence defs (D.unnamed decider.old))
        (Comes (procs_of procs.now) defs gamma.old (measured_type focus) (core_of core.now))
        result }
    ensures left { Leaves D.definitions D.unnamed D.keeps D.known decider.old decider.new
        gamma.old gamma.new }
{
    match core {
        Core::Skip(_) => Ok(focus),
        Core::Seq(statements, span) => {
            type_all(
                alloc,
                procs,
                focus,
                statements.as_slice(),
                *span,
                gamma,
                decider,
            )
        }
        Core::If(condition, yes, no, span) => {
            let choice = Choice {
                condition,
                yes: yes.get(),
                no: no.get(),
                span: *span,
            };
            type_choice(alloc, procs, focus, &choice, gamma, decider)
        }
        Core::Let(var, query, body, span) => {
            let bound = Bound {
                var: *var,
                query,
                body: body.get(),
                span: *span,
            };
            type_binding(alloc, procs, focus, &bound, gamma, decider)
        }
        Core::Snapshot(var, body, span) => {
            let part = Part {
                body: body.get(),
                span: *span,
            };
            type_snapshot(alloc, procs, focus, var, &part, gamma, decider)
        }
        Core::Insert(query, span) => { type_insertion(alloc, &focus, query, *span, gamma, decider) }
        Core::Delete(_) => Ok(nothing(alloc)?),
        Core::Rename(label, span) => type_renaming(alloc, focus, *label, *span, decider.defs()),
        Core::Test(test, body, span) => {
            let tested = Tested {
                test: *test,
                body: body.get(),
                span: *span,
            };
            type_test(alloc, procs, focus, &tested, gamma, decider)
        }
        Core::Children(body, span) => {
            let part = Part {
                body: body.get(),
                span: *span,
            };
            type_children(alloc, procs, focus, &part, gamma, decider)
        }
        Core::Left(body, span) => {
            let part = Part {
                body: body.get(),
                span: *span,
            };
            type_left(alloc, procs, focus, &part, gamma, decider)
        }
        Core::Right(body, span) => {
            let part = Part {
                body: body.get(),
                span: *span,
            };
            type_right(alloc, procs, focus, &part, gamma, decider)
        }
        Core::Iter(body, span) => {
            let part = Part {
                body: body.get(),
                span: *span,
            };
            let trees = own(alloc, focus)?;
            type_trees(alloc, procs, trees, &part, gamma, decider)
        }
        Core::Call(proc, args, span) => {
            let called = Called {
                proc: *proc,
                args: args.as_slice(),
                span: *span,
            };
            type_call(alloc, procs, &focus, &called, gamma, decider)
        }
    }
}

// Statements one behind the other, each at the type of the one before.
#[cycle(typing)]
fn type_all<D: Decider>(
    alloc: Global,
    procs: &Procs,
    focus: Measured,
    statements: &[Core],
    span: Span,
    gamma: &mut Gamma,
    decider: &mut D,
) -> Result<Measured, KindFault>
    requires stage { IsStage (D.definitions decider.old) (D.unnamed decider.old) gamma.old
        (procs_of procs.now) (measured_type focus) }
    requires core_lacks { CoreLacks (D.unnamed decider.old)
        (in_order span (map core_of statements.now)) }
    requires calls { CallsFit (procs_of procs.now) (in_order span (map core_of statements.now)) }
    ensures answer { let defs = D.definitions decider.old in
        IsAnswer (IsEvidence defs (D.unnamed decider.old))
        (Comes (procs_of procs.now) defs gamma.old (measured_type focus)
        (in_order span (map core_of statements.now))) result }
    ensures left { Leaves D.definitions D.unnamed D.keeps D.known decider.old decider.new
        gamma.old gamma.new }
{
    let mut made = focus;
    for statement in statements {
        made = type_core(alloc, procs, made, statement, gamma, decider)?;
    }
    Ok(made)
}

#[cycle(typing)]
fn type_choice<D: Decider>(
    alloc: Global,
    procs: &Procs,
    focus: Measured,
    parts: &Choice<'_>,
    gamma: &mut Gamma,
    decider: &mut D,
) -> Result<Measured, KindFault>
    requires stage { IsStage (D.definitions decider.old) (D.unnamed decider.old) gamma.old
        (procs_of procs.now) (measured_type focus) }
    requires condition_lacks { QueryLacks (D.unnamed decider.old)
        (query_of parts.now.condition.now) }
    requires yes_lacks { CoreLacks (D.unnamed decider.old) (core_of parts.now.yes.now) }
    requires no_lacks { CoreLacks (D.unnamed decider.old) (core_of parts.now.no.now) }
    requires yes_calls { CallsFit (procs_of procs.now) (core_of parts.now.yes.now) }
    requires no_calls { CallsFit (procs_of procs.now) (core_of parts.now.no.now) }
    ensures answer { let defs = D.definitions decider.old in
        IsAnswer (IsEvidence defs (D.unnamed decider.old))
        (Comes (procs_of procs.now) defs gamma.old (measured_type focus)
        (choice parts.now.span (query_of parts.now.condition.now) (core_of parts.now.yes.now)
        (core_of parts.now.no.now))) result }
    ensures left { Leaves D.definitions D.unnamed D.keeps D.known decider.old decider.new
        gamma.old gamma.new }
{
    type_condition(alloc, parts.condition, gamma, decider)?;
    let shared = focus.share()?;
    let yes = type_core(alloc, procs, shared, parts.yes, gamma, decider)?;
    let no = type_core(alloc, procs, focus, parts.no, gamma, decider)?;
    either(alloc, parts.span.from, yes, no)
}

#[cycle(typing)]
fn type_binding<D: Decider>(
    alloc: Global,
    procs: &Procs,
    focus: Measured,
    bound: &Bound<'_>,
    gamma: &mut Gamma,
    decider: &mut D,
) -> Result<Measured, KindFault>
    requires stage { IsStage (D.definitions decider.old) (D.unnamed decider.old) gamma.old
        (procs_of procs.now) (measured_type focus) }
    requires query_lacks { QueryLacks (D.unnamed decider.old) (query_of bound.now.query.now) }
    requires body_lacks { CoreLacks (D.unnamed decider.old) (core_of bound.now.body.now) }
    requires body_calls { CallsFit (procs_of procs.now) (core_of bound.now.body.now) }
    ensures answer { let defs = D.definitions decider.old in
        IsAnswer (IsEvidence defs (D.unnamed decider.old))
        (Comes (procs_of procs.now) defs gamma.old (measured_type focus)
        (binding bound.now.span bound.now.var (query_of bound.now.query.now)
        (core_of bound.now.body.now))) result }
    ensures left { Leaves D.definitions D.unnamed D.keeps D.known decider.old decider.new
        gamma.old gamma.new }
{
    let ty = type_query(alloc, gamma, bound.query, decider)?;
    let param = Param { var: bound.var, ty };
    gamma.bind(param)?;
    let outcome = type_core(alloc, procs, focus, bound.body, gamma, decider);
    gamma.unbind();
    outcome
}

#[cycle(typing)]
fn type_snapshot<D: Decider>(
    alloc: Global,
    procs: &Procs,
    focus: Measured,
    var: &Var,
    part: &Part<'_>,
    gamma: &mut Gamma,
    decider: &mut D,
) -> Result<Measured, KindFault>
    requires stage { IsStage (D.definitions decider.old) (D.unnamed decider.old) gamma.old
        (procs_of procs.now) (measured_type focus) }
    requires body_lacks { CoreLacks (D.unnamed decider.old) (core_of part.now.body.now) }
    requires body_calls { CallsFit (procs_of procs.now) (core_of part.now.body.now) }
    ensures answer { let defs = D.definitions decider.old in
        IsAnswer (IsEvidence defs (D.unnamed decider.old))
        (Comes (procs_of procs.now) defs gamma.old (measured_type focus)
        (snapshot part.now.span var.now (core_of part.now.body.now))) result }
    ensures left { Leaves D.definitions D.unnamed D.keeps D.known decider.old decider.new
        gamma.old gamma.new }
{
    gamma.bind_shared(*var, &focus)?;
    let outcome = type_core(alloc, procs, focus, part.body, gamma, decider);
    gamma.unbind();
    outcome
}

#[cycle(typing)]
fn type_test<D: Decider>(
    alloc: Global,
    procs: &Procs,
    focus: Measured,
    tested: &Tested<'_>,
    gamma: &mut Gamma,
    decider: &mut D,
) -> Result<Measured, KindFault>
    requires stage { IsStage (D.definitions decider.old) (D.unnamed decider.old) gamma.old
        (procs_of procs.now) (measured_type focus) }
    requires test_lacks { EachLabelOfTest (λ m. ¬ (m ≡ D.unnamed decider.old)) tested.now.test }
    requires body_lacks { CoreLacks (D.unnamed decider.old) (core_of tested.now.body.now) }
    requires body_calls { CallsFit (procs_of procs.now) (core_of tested.now.body.now) }
    ensures answer { let defs = D.definitions decider.old in
        IsAnswer (IsEvidence defs (D.unnamed decider.old))
        (Comes (procs_of procs.now) defs gamma.old (measured_type focus)
        (test tested.now.span tested.now.test (core_of tested.now.body.now))) result }
    ensures left { Leaves D.definitions D.unnamed D.keeps D.known decider.old decider.new
        gamma.old gamma.new }
{
    let place = tested.span.from;
    let Some(one) = tree_of(alloc, focus, decider.defs())? else {
        return Err(KindFault::NotSingle { place });
    };
    match passing_trees(one.ty.as_ref(), &tested.test) {
        Passing::All => type_core(alloc, procs, one, tested.body, gamma, decider),
        Passing::Nothing => Ok(one),
        Passing::Labelled(label) => {
            let labelled = labelled(alloc, label, one.ty.as_ref())?;
            let made = type_core(alloc, procs, labelled, tested.body, gamma, decider)?;
            either(alloc, place, made, one)
        }
    }
}

#[cycle(typing)]
fn type_children<D: Decider>(
    alloc: Global,
    procs: &Procs,
    focus: Measured,
    part: &Part<'_>,
    gamma: &mut Gamma,
    decider: &mut D,
) -> Result<Measured, KindFault>
    requires stage { IsStage (D.definitions decider.old) (D.unnamed decider.old) gamma.old
        (procs_of procs.now) (measured_type focus) }
    requires body_lacks { CoreLacks (D.unnamed decider.old) (core_of part.now.body.now) }
    requires body_calls { CallsFit (procs_of procs.now) (core_of part.now.body.now) }
    ensures answer { let defs = D.definitions decider.old in
        IsAnswer (IsEvidence defs (D.unnamed decider.old))
        (Comes (procs_of procs.now) defs gamma.old (measured_type focus)
        (children part.now.span (core_of part.now.body.now))) result }
    ensures left { Leaves D.definitions D.unnamed D.keeps D.known decider.old decider.new
        gamma.old gamma.new }
{
    let place = part.span.from;
    let Some(one) = tree_of(alloc, focus, decider.defs())? else {
        return Err(KindFault::NotSingle { place });
    };
    let Some(element) = open_element(alloc, one)? else {
        return Err(KindFault::NotElement { place });
    };
    let made = type_core(alloc, procs, element.content, part.body, gamma, decider)?;
    close_element(alloc, place, element.label, made)
}

#[cycle(typing)]
fn type_left<D: Decider>(
    alloc: Global,
    procs: &Procs,
    focus: Measured,
    part: &Part<'_>,
    gamma: &mut Gamma,
    decider: &mut D,
) -> Result<Measured, KindFault>
    requires stage { IsStage (D.definitions decider.old) (D.unnamed decider.old) gamma.old
        (procs_of procs.now) (measured_type focus) }
    requires body_lacks { CoreLacks (D.unnamed decider.old) (core_of part.now.body.now) }
    requires body_calls { CallsFit (procs_of procs.now) (core_of part.now.body.now) }
    ensures answer { let defs = D.definitions decider.old in
        IsAnswer (IsEvidence defs (D.unnamed decider.old))
        (Comes (procs_of procs.now) defs gamma.old (measured_type focus)
        (left part.now.span (core_of part.now.body.now))) result }
    ensures left { Leaves D.definitions D.unnamed D.keeps D.known decider.old decider.new
        gamma.old gamma.new }
{
    let empty = nothing(alloc)?;
    let made = type_core(alloc, procs, empty, part.body, gamma, decider)?;
    in_sequence(alloc, part.span.from, made, focus)
}

#[cycle(typing)]
fn type_right<D: Decider>(
    alloc: Global,
    procs: &Procs,
    focus: Measured,
    part: &Part<'_>,
    gamma: &mut Gamma,
    decider: &mut D,
) -> Result<Measured, KindFault>
    requires stage { IsStage (D.definitions decider.old) (D.unnamed decider.old) gamma.old
        (procs_of procs.now) (measured_type focus) }
    requires body_lacks { CoreLacks (D.unnamed decider.old) (core_of part.now.body.now) }
    requires body_calls { CallsFit (procs_of procs.now) (core_of part.now.body.now) }
    ensures answer { let defs = D.definitions decider.old in
        IsAnswer (IsEvidence defs (D.unnamed decider.old))
        (Comes (procs_of procs.now) defs gamma.old (measured_type focus)
        (right part.now.span (core_of part.now.body.now))) result }
    ensures left { Leaves D.definitions D.unnamed D.keeps D.known decider.old decider.new
        gamma.old gamma.new }
{
    let empty = nothing(alloc)?;
    let made = type_core(alloc, procs, empty, part.body, gamma, decider)?;
    in_sequence(alloc, part.span.from, focus, made)
}

// What a type becomes by a statement at each of its trees.
#[cycle(typing)]
fn type_trees<D: Decider>(
    alloc: Global,
    procs: &Procs,
    ty: Ty,
    part: &Part<'_>,
    gamma: &mut Gamma,
    decider: &mut D,
) -> Result<Measured, KindFault>
    requires stage { IsStage (D.definitions decider.old) (D.unnamed decider.old) gamma.old
        (procs_of procs.now) (ty_of ty) }
    requires body_lacks { CoreLacks (D.unnamed decider.old) (core_of part.now.body.now) }
    requires body_calls { CallsFit (procs_of procs.now) (core_of part.now.body.now) }
    ensures answer { let defs = D.definitions decider.old in
        IsAnswer (IsEvidence defs (D.unnamed decider.old))
        (MapComes (procs_of procs.now) part.now.span.from defs gamma.old (ty_of ty)
        (core_of part.now.body.now)) result }
    ensures left { Leaves D.definitions D.unnamed D.keeps D.known decider.old decider.new
        gamma.old gamma.new }
{
    let mut walk = Walk::new(alloc, part.span.from);
    let mut turn = walk.enter(ty, decider.defs())?;
    loop {
        turn = match turn {
            Turn::Over(made) => return Ok(made),
            Turn::At(tree) => {
                let one = measure(alloc, tree)?;
                let made = type_core(alloc, procs, one, part.body, gamma, decider)?;
                walk.put(made, decider.defs())?
            }
        };
    }
}
