// Queries of which no part is a query: their places, variables and what a variable contains.
ghost use Rattle.std.specs.Prelude.{◌≡◌};
ghost use Rattle.flux_types.specs.Kept.{AreKept};
ghost use Rattle.flux_calculus.specs.Query.{place_of, variable, child};
ghost use Rattle.flux_calculus.specs.Typing.{Types, of_query};
ghost use Rattle.flux_query.specs.Read.{query_of};
ghost use Rattle.flux_core.specs.Faults.{ShowsNothing, AreUsable};
ghost use Rattle.flux_core.specs.Answers.{IsAnswer};

use flux_calculus::{Span, Var};
use flux_core::{Gamma, KindFault, Measured, copied, nothing};
use flux_query::Query;
use flux_types::{Defs, Ty, single};
use std::alloc::Global;

// Where the text of a query begins.
pub(crate) fn place(query: &Query) -> u32
    ensures { result ≡ place_of (query_of query.now) }
{
    match query {
        Query::Concat(_, span)
        | Query::Elem(_, _, span)
        | Query::Lit(_, span)
        | Query::Var(_, span)
        | Query::Let(_, _, _, span)
        | Query::If(_, _, _, span)
        | Query::Same(_, _, span)
        | Query::Less(_, _, span)
        | Query::Child(_, span)
        | Query::Filter(_, _, span)
        | Query::For(_, _, _, span) => span.from,
    }
}

// The type of a variable, which is shared.
pub(crate) fn type_variable(
    var: &Var,
    span: &Span,
    gamma: &Gamma,
    defs: &Defs,
) -> Result<Measured, KindFault>
    requires { AreUsable defs.now gamma.now }
    ensures { IsAnswer ShowsNothing
        (Types defs.now (of_query gamma.now (variable span.now var.now))) result }
{
    let bound = gamma.get_shared(*var)?;
    match bound {
        Some(made) => Ok(made),
        None => Err(KindFault::UnknownVar { place: span.from }),
    }
}

// The type of what the one tree of a variable contains.
pub(crate) fn type_child(
    alloc: Global,
    var: &Var,
    span: &Span,
    gamma: &Gamma,
    defs: &Defs,
) -> Result<Measured, KindFault>
    requires defs { AreKept defs.now }
    requires usable { AreUsable defs.now gamma.now }
    ensures { IsAnswer ShowsNothing
        (Types defs.now (of_query gamma.now (child span.now var.now))) result }
{
    let Some(ty) = gamma.get(*var) else {
        return Err(KindFault::UnknownVar { place: span.from });
    };
    let Some(one) = single(defs, ty) else {
        return Err(KindFault::NotSingle { place: span.from });
    };
    match one {
        Ty::Elem(_, content) => Ok(copied(alloc, content.get())?),
        Ty::AnyElem(content) => Ok(copied(alloc, content.get())?),
        Ty::Atom(_) => Ok(nothing(alloc)?),
        Ty::Empty | Ty::Seq(_, _) | Ty::Alt(_, _) | Ty::Star(_) | Ty::Named(_) => unreachable!(),
    }
}
