// The values of queries.
ghost use Rattle.std.specs.Prelude.{◌≡◌, Some, IsSome, IfOk, OnOk};
ghost use Rattle.flux_trees.specs.Draft.{depth, outer};
ghost use Rattle.flux_forest.specs.View.{forest_of};
ghost use Rattle.flux_calculus.specs.Query.{value};
ghost use Rattle.flux_query.specs.Read.{query_of, queries_of};
ghost use Rattle.flux_query.specs.Added.{added, in_element, value_under, values_under};
ghost use Rattle.flux_query.specs.Values.{trees_of, IsWholeValue};

use crate::trees::{push_less, push_passing, push_same, truth};
use crate::value::{Value, bound, inside};
use crate::{Env, Query};
use flux_atom::Name;
use flux_calculus::{Span, Var};
use flux_forest::{Forest, View};
use std::alloc::{AllocError, Global};

/// The value of a query in an environment, as μXQ gives it. The environment is afterwards as it
/// was, also where memory is wanting.
///
/// Beside the nodes of the value itself, trees are copied only where a variable is bound: a `For`
/// copies the trees that it goes over, and then each once more as it is bound. So a `For` over n
/// trees takes n evaluations of its second query, and time in step with the nodes of these trees.
/// The recursion goes as deep as the query, however deep the forests are.
#[cycle(eval)]
pub fn eval(alloc: Global, query: &Query, env: &mut Env) -> Result<Forest, AllocError>
    requires { IsSome (value env.old (query_of query.now)) }
    ensures value { IfOk result (λ forest.
        value env.old (query_of query.now) ≡ Some (outer forest)) }
    ensures whole { IfOk result (λ forest. depth forest ≡ 0) }
    ensures unchanged { env.new ≡ env.old }
{
    let mut values = Forest::new(alloc);
    push_value(alloc, query, env, &mut values)?;
    Ok(values)
}

// Adds the value of a query.
#[cycle(eval)]
fn push_value(
    alloc: Global,
    query: &Query,
    env: &mut Env,
    values: &mut Forest,
) -> Result<(), AllocError>
    requires { IsSome (value env.old (query_of query.now)) }
    ensures value { OnOk result (
        added values.old (value env.old (query_of query.now)) ≡ Some values.new) }
    ensures unchanged { env.new ≡ env.old }
{
    match query {
        Query::Concat(parts, span) => push_values(alloc, parts.as_slice(), *span, env, values),
        Query::Elem(name, content, _) => push_element(alloc, content.get(), *name, env, values),
        Query::Lit(atom, _) => {
            let atom = flux_atom::copy(alloc, atom)?;
            values.push_atom(atom)
        }
        Query::Var(x, _) => values.append(bound(env, *x)),
        Query::Child(x, _) => values.append(inside(env, *x)),
        Query::Let(x, bound, body, _) => {
            let forest = eval(alloc, bound.get(), env)?;
            push_under(alloc, body.get(), *x, forest, env, values)
        }
        Query::If(condition, yes, no, _) => {
            let condition = read(alloc, condition.get(), env)?;
            if truth(condition.view(env)) {
                push_value(alloc, yes.get(), env, values)
            } else {
                push_value(alloc, no.get(), env, values)
            }
        }
        Query::Same(left, right, _) => {
            let left = read(alloc, left.get(), env)?;
            let right = read(alloc, right.get(), env)?;
            push_same(left.view(env), right.view(env), values)
        }
        Query::Less(left, right, _) => {
            let left = read(alloc, left.get(), env)?;
            let right = read(alloc, right.get(), env)?;
            push_less(left.view(env), right.view(env), values)
        }
        Query::Filter(from, test, _) => {
            let from = read(alloc, from.get(), env)?;
            push_passing(test, from.view(env), values)
        }
        Query::For(x, over, body, _) => {
            let over = eval(alloc, over.get(), env)?;
            push_each(alloc, body.get(), *x, over.view(), env, values)
        }
    }
}

// Adds the values of queries, one behind the other.
#[cycle(eval)]
fn push_values(
    alloc: Global,
    queries: &[Query],
    at: Span,
    env: &mut Env,
    values: &mut Forest,
) -> Result<(), AllocError>
    requires { IsSome (value env.old (queries_of at queries.now)) }
    ensures value { OnOk result (
        added values.old (value env.old (queries_of at queries.now)) ≡ Some values.new) }
    ensures unchanged { env.new ≡ env.old }
{
    for query in queries {
        push_value(alloc, query, env, values)?;
    }
    Ok(())
}

// Adds an element with the value of a query as its content.
#[cycle(eval)]
fn push_element(
    alloc: Global,
    content: &Query,
    name: Name,
    env: &mut Env,
    values: &mut Forest,
) -> Result<(), AllocError>
    requires { IsSome (value env.old (query_of content.now)) }
    ensures value { OnOk result (
        added values.old (in_element name (value env.old (query_of content.now)))
        ≡ Some values.new) }
    ensures unchanged { env.new ≡ env.old }
{
    values.begin_element(name)?;
    push_value(alloc, content, env, values)?;
    values.end_element();
    Ok(())
}

// Adds the value of a query where the variable is bound to these trees.
#[cycle(eval)]
fn push_under(
    alloc: Global,
    body: &Query,
    x: Var,
    bound: Forest,
    env: &mut Env,
    values: &mut Forest,
) -> Result<(), AllocError>
    requires whole { depth bound ≡ 0 }
    requires value { IsSome (value_under env.old x (query_of body.now) (outer bound)) }
    ensures value { OnOk result (
        added values.old (value_under env.old x (query_of body.now) (outer bound))
        ≡ Some values.new) }
    ensures unchanged { env.new ≡ env.old }
{
    env.bind(x, bound)?;
    let result = push_value(alloc, body, env, values);
    env.unbind();
    result
}

// Adds the values of a query where the variable is bound to each tree in turn.
#[cycle(eval)]
fn push_each(
    alloc: Global,
    body: &Query,
    x: Var,
    over: View<'_>,
    env: &mut Env,
    values: &mut Forest,
) -> Result<(), AllocError>
    requires { IsSome (values_under env.old x (query_of body.now) (forest_of over)) }
    ensures value { OnOk result (
        added values.old (values_under env.old x (query_of body.now) (forest_of over.entry))
        ≡ Some values.new) }
    ensures unchanged { env.new ≡ env.old }
{
    for tree in over.trees() {
        push_under(alloc, body, x, tree.copy(alloc)?, env, values)?;
    }
    Ok(())
}

// The value of a query, copied only where it does not stand in what is bound.
#[cycle(eval)]
fn read(alloc: Global, query: &Query, env: &mut Env) -> Result<Value, AllocError>
    requires { IsSome (value env.old (query_of query.now)) }
    ensures value { IfOk result (λ read.
        trees_of env.old read ≡ value env.old (query_of query.now)) }
    ensures whole { IfOk result (λ read. IsWholeValue read) }
    ensures unchanged { env.new ≡ env.old }
{
    match query {
        Query::Var(x, _) => Ok(Value::Bound(*x)),
        Query::Child(x, _) => Ok(Value::Inside(*x)),
        _ => Ok(Value::Own(eval(alloc, query, env)?)),
    }
}
