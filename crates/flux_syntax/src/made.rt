// Queries over their parts, which are boxed.
ghost use Rattle.std.specs.Prelude.{◌≡◌, ◌∷◌};
ghost use Rattle.flux_grammar.specs.declared.tree.Expr.TheVariants as ex;
ghost use Rattle.flux_grammar.specs.Grammar.{spanning, list_of, stepped_of};
ghost use Rattle.flux_grammar.specs.Spans.{expr_span};
ghost use Rattle.flux_syntax.specs.Parses.{Made};

use crate::reader::Fault;
use flux_atom::{Boxed, Items};
use flux_calculus::Span;
use flux_grammar::{Expr, Path, QueryStep, Step};
use std::alloc::Global;

/// The first item and the others, in one list.
pub(crate) fn prepended<T: Drop>(alloc: Global, first: T, rest: Items<T>) -> Result<Items<T>, Fault>
    ensures { Made (first ∷ rest) result }
{
    let mut all = Items::new(alloc);
    all.push(first)?;
    all.append(rest)?;
    Ok(all)
}

pub(crate) fn made_path(alloc: Global, first: Step, rest: Items<Step>) -> Result<Path, Fault>
    ensures { Made (record { steps = first ∷ rest }) result }
{
    let steps = prepended(alloc, first, rest)?;
    Ok(Path { steps })
}

pub(crate) fn made_list(
    alloc: Global,
    first: Expr,
    rest: Items<Expr>,
    to: u32,
) -> Result<Expr, Fault>
    ensures { Made (list_of first rest to) result }
{
    if rest.is_empty() {
        return Ok(first);
    }
    let from = first.span().from;
    let mut all = Items::new(alloc);
    all.push(first)?;
    all.append(rest)?;
    Ok(Expr::List(all, Span { from, to }))
}

pub(crate) fn made_same(alloc: Global, left: Expr, right: Expr, to: u32) -> Result<Expr, Fault>
    ensures { Made (ex.Same left right (spanning (expr_span left).from to)) result }
{
    let from = left.span().from;
    Ok(Expr::Same(
        Boxed::new(alloc, left)?,
        Boxed::new(alloc, right)?,
        Span { from, to },
    ))
}

pub(crate) fn made_less(alloc: Global, left: Expr, right: Expr, to: u32) -> Result<Expr, Fault>
    ensures { Made (ex.Less left right (spanning (expr_span left).from to)) result }
{
    let from = left.span().from;
    Ok(Expr::Less(
        Boxed::new(alloc, left)?,
        Boxed::new(alloc, right)?,
        Span { from, to },
    ))
}

pub(crate) fn made_stepped(
    alloc: Global,
    inner: Expr,
    steps: Items<QueryStep>,
    to: u32,
) -> Result<Expr, Fault>
    ensures { Made (stepped_of inner steps to) result }
{
    if steps.is_empty() {
        return Ok(inner);
    }
    let from = inner.span().from;
    let inner = Boxed::new(alloc, inner)?;
    Ok(Expr::Stepped(inner, steps, Span { from, to }))
}
