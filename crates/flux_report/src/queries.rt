// The text of queries in the core language. The functions say nothing of what they leave behind
// them where they fail.
ghost use Rattle.std.specs.Prelude.{◌≡◌, ◌<◌, ◌++◌, [], ◌∷◌, false, All, length, map, codes, if◌then◌else◌, OnOk};
ghost use Rattle.flux_atom.specs.Names.{name_text};
ghost use Rattle.flux_calculus.specs.Labels.{EachLabelOfTest};
ghost use Rattle.flux_grammar.specs.NormalNames.{VarNames, QueryNames};
ghost use Rattle.flux_query.specs.Read.{query_of};
ghost use Rattle.flux_report.specs.CoreText.{with_commas, is_nothing, var_text, test_text, query_text, content_text};

use flux_atom::{Name, Names, write_literal};
use flux_calculus::{Test, Var};
use flux_query::Query;
use std::alloc::{AllocError, Global};

#[cycle(push_query)]
pub(crate) fn push_query(
    alloc: Global,
    query: &Query,
    names: &Names,
    out: &mut Vec<u8>,
) -> Result<(), AllocError>
    requires { QueryNames (λ a. a < length names.now) (query_of query.now) }
    ensures { OnOk result
        (out.new.items ≡ out.old.items ++ query_text names.now false (query_of query.now)) }
{
    match query {
        Query::Concat(queries, _) => push_list(alloc, queries.as_slice(), names, out),
        Query::Elem(label, content, _) => push_element(alloc, content.get(), *label, names, out),
        Query::Lit(atom, _) => write_literal(alloc, atom, out),
        Query::Var(var, _) => push_var(alloc, var, names, out),
        Query::Let(var, bound, body, _) => {
            push_let(alloc, bound.get(), body.get(), var, names, out)
        }
        Query::If(condition, yes, no, _) => {
            push_choice(alloc, condition.get(), yes.get(), no.get(), names, out)
        }
        Query::Same(left, right, _) => push_pair(alloc, left.get(), right.get(), b'=', names, out),
        Query::Less(left, right, _) => push_pair(alloc, left.get(), right.get(), b'<', names, out),
        Query::Child(var, _) => push_child(alloc, var, names, out),
        Query::Filter(from, test, _) => push_filter(alloc, from.get(), test, names, out),
        Query::For(var, over, body, _) => {
            push_each(alloc, over.get(), body.get(), var, names, out)
        }
    }
}

// Queries between parentheses.
#[cycle(push_query)]
fn push_list(
    alloc: Global,
    queries: &[Query],
    names: &Names,
    out: &mut Vec<u8>,
) -> Result<(), AllocError>
    requires { All (QueryNames (λ a. a < length names.now)) (map query_of queries.now) }
    ensures { OnOk result (out.new.items ≡ out.old.items ++ (codes "("
        ++ with_commas (map (query_text names.now false) (map query_of queries.now))
        ++ codes ")")) }
{
    out.push(b'(')?;
    push_queries(alloc, queries, names, out)?;
    out.push(b')')?;
    Ok(())
}

// Queries with commas between them.
#[cycle(push_query)]
pub(crate) fn push_queries(
    alloc: Global,
    queries: &[Query],
    names: &Names,
    out: &mut Vec<u8>,
) -> Result<(), AllocError>
    requires { All (QueryNames (λ a. a < length names.now)) (map query_of queries.now) }
    ensures { OnOk result (out.new.items ≡ out.old.items
        ++ with_commas (map (query_text names.now false) (map query_of queries.now))) }
{
    let Some((first, others)) = queries.split_first() else {
        return Ok(());
    };
    push_query(alloc, first, names, out)?;
    for query in others {
        out.push(b',')?;
        push_query(alloc, query, names, out)?;
    }
    Ok(())
}

// An element, whose content is left out where it is no query.
#[cycle(push_query)]
fn push_element(
    alloc: Global,
    content: &Query,
    label: Name,
    names: &Names,
    out: &mut Vec<u8>,
) -> Result<(), AllocError>
    requires label { label < length names.now }
    requires content { QueryNames (λ a. a < length names.now) (query_of content.now) }
    ensures { OnOk result (out.new.items ≡ out.old.items ++ (name_text names.now label
        ++ content_text (query_of content.now)
        (query_text names.now false (query_of content.now)))) }
{
    push_name(label, names, out)?;
    out.push(b'[')?;
    if !is_nothing(content) {
        push_query(alloc, content, names, out)?;
    }
    out.push(b']')?;
    Ok(())
}

#[cycle(push_query)]
fn push_let(
    alloc: Global,
    bound: &Query,
    body: &Query,
    var: &Var,
    names: &Names,
    out: &mut Vec<u8>,
) -> Result<(), AllocError>
    requires var { VarNames (λ a. a < length names.now) var.now }
    requires bound { QueryNames (λ a. a < length names.now) (query_of bound.now) }
    requires body { QueryNames (λ a. a < length names.now) (query_of body.now) }
    ensures { OnOk result (out.new.items ≡ out.old.items ++ (codes "(let "
        ++ var_text names.now var.now ++ codes "="
        ++ query_text names.now false (query_of bound.now) ++ codes " in "
        ++ query_text names.now false (query_of body.now) ++ codes ")")) }
{
    out.extend_from_slice(b"(let ")?;
    push_var(alloc, var, names, out)?;
    out.push(b'=')?;
    push_query(alloc, bound, names, out)?;
    out.extend_from_slice(b" in ")?;
    push_query(alloc, body, names, out)?;
    out.push(b')')?;
    Ok(())
}

#[cycle(push_query)]
fn push_choice(
    alloc: Global,
    condition: &Query,
    yes: &Query,
    no: &Query,
    names: &Names,
    out: &mut Vec<u8>,
) -> Result<(), AllocError>
    requires condition { QueryNames (λ a. a < length names.now) (query_of condition.now) }
    requires yes { QueryNames (λ a. a < length names.now) (query_of yes.now) }
    requires no { QueryNames (λ a. a < length names.now) (query_of no.now) }
    ensures { OnOk result (out.new.items ≡ out.old.items ++ (codes "(if "
        ++ query_text names.now false (query_of condition.now) ++ codes " then "
        ++ query_text names.now false (query_of yes.now) ++ codes " else "
        ++ query_text names.now false (query_of no.now) ++ codes ")")) }
{
    out.extend_from_slice(b"(if ")?;
    push_query(alloc, condition, names, out)?;
    out.extend_from_slice(b" then ")?;
    push_query(alloc, yes, names, out)?;
    out.extend_from_slice(b" else ")?;
    push_query(alloc, no, names, out)?;
    out.push(b')')?;
    Ok(())
}

#[cycle(push_query)]
fn push_each(
    alloc: Global,
    over: &Query,
    body: &Query,
    var: &Var,
    names: &Names,
    out: &mut Vec<u8>,
) -> Result<(), AllocError>
    requires var { VarNames (λ a. a < length names.now) var.now }
    requires over { QueryNames (λ a. a < length names.now) (query_of over.now) }
    requires body { QueryNames (λ a. a < length names.now) (query_of body.now) }
    ensures { OnOk result (out.new.items ≡ out.old.items ++ (codes "(for "
        ++ var_text names.now var.now ++ codes " in "
        ++ query_text names.now false (query_of over.now) ++ codes " return "
        ++ query_text names.now false (query_of body.now) ++ codes ")")) }
{
    out.extend_from_slice(b"(for ")?;
    push_var(alloc, var, names, out)?;
    out.extend_from_slice(b" in ")?;
    push_query(alloc, over, names, out)?;
    out.extend_from_slice(b" return ")?;
    push_query(alloc, body, names, out)?;
    out.push(b')')?;
    Ok(())
}

#[cycle(push_query)]
fn push_filter(
    alloc: Global,
    from: &Query,
    test: &Test,
    names: &Names,
    out: &mut Vec<u8>,
) -> Result<(), AllocError>
    requires from { QueryNames (λ a. a < length names.now) (query_of from.now) }
    requires test { EachLabelOfTest (λ a. a < length names.now) test.now }
    ensures { OnOk result (out.new.items ≡ out.old.items
        ++ (query_text names.now false (query_of from.now) ++ codes "::"
        ++ test_text names.now test.now)) }
{
    push_query(alloc, from, names, out)?;
    out.extend_from_slice(b"::")?;
    push_test(test, names, out)
}

fn push_child(alloc: Global, var: &Var, names: &Names, out: &mut Vec<u8>) -> Result<(), AllocError>
    requires { VarNames (λ a. a < length names.now) var.now }
    ensures { OnOk result
        (out.new.items ≡ out.old.items ++ (var_text names.now var.now ++ codes "/child")) }
{
    push_var(alloc, var, names, out)?;
    out.extend_from_slice(b"/child")
}

// Two queries between parentheses, with a sign between them.
#[cycle(push_query)]
fn push_pair(
    alloc: Global,
    left: &Query,
    right: &Query,
    sign: u8,
    names: &Names,
    out: &mut Vec<u8>,
) -> Result<(), AllocError>
    requires left { QueryNames (λ a. a < length names.now) (query_of left.now) }
    requires right { QueryNames (λ a. a < length names.now) (query_of right.now) }
    ensures { OnOk result (out.new.items ≡ out.old.items
        ++ (codes "(" ++ query_text names.now false (query_of left.now) ++ (sign ∷ [])
        ++ query_text names.now false (query_of right.now) ++ codes ")")) }
{
    out.push(b'(')?;
    push_query(alloc, left, names, out)?;
    out.push(sign)?;
    push_query(alloc, right, names, out)?;
    out.push(b')')?;
    Ok(())
}

fn is_nothing(query: &Query) -> bool
    ensures { result ≡ is_nothing (query_of query.now) }
{
    match query {
        Query::Concat(queries, _) => queries.as_slice().is_empty(),
        Query::Elem(_, _, _)
        | Query::Lit(_, _)
        | Query::Var(_, _)
        | Query::Let(_, _, _, _)
        | Query::If(_, _, _, _)
        | Query::Same(_, _, _)
        | Query::Less(_, _, _)
        | Query::Child(_, _)
        | Query::Filter(_, _, _)
        | Query::For(_, _, _, _) => false,
    }
}

pub(crate) fn push_name(name: Name, names: &Names, out: &mut Vec<u8>) -> Result<(), AllocError>
    requires { name < length names.now }
    ensures { OnOk result (out.new.items ≡ out.old.items ++ name_text names.now name) }
{
    out.extend_from_slice(names.text(name).as_bytes())
}

pub(crate) fn push_var(
    alloc: Global,
    var: &Var,
    names: &Names,
    out: &mut Vec<u8>,
) -> Result<(), AllocError>
    requires { VarNames (λ a. a < length names.now) var.now }
    ensures { OnOk result (out.new.items ≡ out.old.items ++ var_text names.now var.now) }
{
    out.push(b'$')?;
    match var {
        Var::Named(name) => push_name(*name, names, out),
        Var::Made(number) => {
            let digits = format!(in alloc; "{number}")?;
            out.extend_from_slice(digits.as_bytes())
        }
    }
}

pub(crate) fn push_test(test: &Test, names: &Names, out: &mut Vec<u8>) -> Result<(), AllocError>
    requires { EachLabelOfTest (λ a. a < length names.now) test.now }
    ensures { OnOk result (out.new.items ≡ out.old.items ++ test_text names.now test.now) }
{
    match test {
        Test::Label(name) => push_name(*name, names, out),
        Test::AnyElement => {
            out.push(b'*')?;
            Ok(())
        }
        Test::OfText => out.extend_from_slice(b"string()"),
        Test::OfBool => out.extend_from_slice(b"bool()"),
        Test::OfInt => out.extend_from_slice(b"int()"),
    }
}
