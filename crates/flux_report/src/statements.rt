// The text of statements in the core language. The functions say nothing of what they leave behind
// them where they fail.
ghost use Rattle.std.specs.Prelude.{◌≡◌, ◌<◌, ◌++◌, false, All, length, map, codes, IsSomeAnd, OnOk};
ghost use Rattle.flux_atom.specs.Names.{name_text};
ghost use Rattle.flux_calculus.specs.Core.{proc_of};
ghost use Rattle.flux_calculus.specs.Labels.{EachLabelOfTest};
ghost use Rattle.flux_core.specs.Statements.{core_of, procs_of};
ghost use Rattle.flux_core.specs.WellFormed.{CallsFit};
ghost use Rattle.flux_grammar.specs.NormalNames.{VarNames, QueryNames, CoreNames};
ghost use Rattle.flux_query.specs.Read.{query_of};
ghost use Rattle.flux_report.specs.CoreText.{separated, with_commas, var_text, test_text, query_text, procedure_name, statement_text};

use crate::queries::{push_name, push_queries, push_query, push_test, push_var};
use flux_atom::{Name, Names};
use flux_calculus::{Test, Var};
use flux_core::{Core, Procs};
use flux_query::Query;
use std::alloc::{AllocError, Global};

#[cycle(push_statement)]
pub(crate) fn push_statement(
    alloc: Global,
    statement: &Core,
    procs: &Procs,
    names: &Names,
    out: &mut Vec<u8>,
) -> Result<(), AllocError>
    requires names { CoreNames (λ a. a < length names.now) (core_of statement.now) }
    requires calls { CallsFit (procs_of procs.now) (core_of statement.now) }
    requires procs { All (λ p. p.name < length names.now) (procs_of procs.now) }
    ensures { OnOk result (out.new.items ≡ out.old.items
        ++ statement_text names.now (procs_of procs.now) false (core_of statement.now)) }
{
    match statement {
        Core::Skip(_) => out.extend_from_slice(b"skip"),
        Core::Seq(statements, _) => {
            push_sequence(alloc, statements.as_slice(), procs, names, out)
        }
        Core::If(condition, yes, no, _) => {
            push_choice(alloc, yes.get(), no.get(), condition, procs, names, out)
        }
        Core::Let(var, bound, body, _) => {
            push_let(alloc, body.get(), var, bound, procs, names, out)
        }
        Core::Snapshot(var, body, _) => push_snapshot(alloc, body.get(), var, procs, names, out),
        Core::Insert(query, _) => push_insert(alloc, query, names, out),
        Core::Delete(_) => out.extend_from_slice(b"delete"),
        Core::Rename(label, _) => push_rename(*label, names, out),
        Core::Test(test, body, _) => push_tested(alloc, body.get(), test, procs, names, out),
        Core::Children(body, _) => {
            push_bracketed(alloc, body.get(), b"children", procs, names, out)
        }
        Core::Left(body, _) => push_bracketed(alloc, body.get(), b"left", procs, names, out),
        Core::Right(body, _) => push_bracketed(alloc, body.get(), b"right", procs, names, out),
        Core::Iter(body, _) => push_bracketed(alloc, body.get(), b"iter", procs, names, out),
        Core::Call(index, arguments, _) => {
            push_call(alloc, *index, arguments.as_slice(), procs, names, out)
        }
    }
}

// Statements between braces.
#[cycle(push_statement)]
fn push_sequence(
    alloc: Global,
    statements: &[Core],
    procs: &Procs,
    names: &Names,
    out: &mut Vec<u8>,
) -> Result<(), AllocError>
    requires names { All (CoreNames (λ a. a < length names.now)) (map core_of statements.now) }
    requires calls { All (CallsFit (procs_of procs.now)) (map core_of statements.now) }
    requires procs { All (λ p. p.name < length names.now) (procs_of procs.now) }
    ensures { OnOk result (out.new.items ≡ out.old.items ++ (codes "{" ++ separated (codes ";")
        (map (statement_text names.now (procs_of procs.now) false) (map core_of statements.now))
        ++ codes "}")) }
{
    out.push(b'{')?;
    push_statements(alloc, statements, procs, names, out)?;
    out.push(b'}')?;
    Ok(())
}

// Statements with semicolons between them.
#[cycle(push_statement)]
fn push_statements(
    alloc: Global,
    statements: &[Core],
    procs: &Procs,
    names: &Names,
    out: &mut Vec<u8>,
) -> Result<(), AllocError>
    requires names { All (CoreNames (λ a. a < length names.now)) (map core_of statements.now) }
    requires calls { All (CallsFit (procs_of procs.now)) (map core_of statements.now) }
    requires procs { All (λ p. p.name < length names.now) (procs_of procs.now) }
    ensures { OnOk result (out.new.items ≡ out.old.items ++ separated (codes ";")
        (map (statement_text names.now (procs_of procs.now) false) (map core_of statements.now))) }
{
    let Some((first, others)) = statements.split_first() else {
        return Ok(());
    };
    push_statement(alloc, first, procs, names, out)?;
    for statement in others {
        out.push(b';')?;
        push_statement(alloc, statement, procs, names, out)?;
    }
    Ok(())
}

#[cycle(push_statement)]
fn push_choice(
    alloc: Global,
    yes: &Core,
    no: &Core,
    condition: &Query,
    procs: &Procs,
    names: &Names,
    out: &mut Vec<u8>,
) -> Result<(), AllocError>
    requires condition { QueryNames (λ a. a < length names.now) (query_of condition.now) }
    requires yes_names { CoreNames (λ a. a < length names.now) (core_of yes.now) }
    requires yes_calls { CallsFit (procs_of procs.now) (core_of yes.now) }
    requires no_names { CoreNames (λ a. a < length names.now) (core_of no.now) }
    requires no_calls { CallsFit (procs_of procs.now) (core_of no.now) }
    requires procs { All (λ p. p.name < length names.now) (procs_of procs.now) }
    ensures { OnOk result (out.new.items ≡ out.old.items ++ (codes "if("
        ++ query_text names.now false (query_of condition.now) ++ codes ")then "
        ++ statement_text names.now (procs_of procs.now) false (core_of yes.now) ++ codes " else "
        ++ statement_text names.now (procs_of procs.now) false (core_of no.now))) }
{
    out.extend_from_slice(b"if(")?;
    push_query(alloc, condition, names, out)?;
    out.extend_from_slice(b")then ")?;
    push_statement(alloc, yes, procs, names, out)?;
    out.extend_from_slice(b" else ")?;
    push_statement(alloc, no, procs, names, out)
}

#[cycle(push_statement)]
fn push_let(
    alloc: Global,
    body: &Core,
    var: &Var,
    bound: &Query,
    procs: &Procs,
    names: &Names,
    out: &mut Vec<u8>,
) -> Result<(), AllocError>
    requires var { VarNames (λ a. a < length names.now) var.now }
    requires bound { QueryNames (λ a. a < length names.now) (query_of bound.now) }
    requires names { CoreNames (λ a. a < length names.now) (core_of body.now) }
    requires calls { CallsFit (procs_of procs.now) (core_of body.now) }
    requires procs { All (λ p. p.name < length names.now) (procs_of procs.now) }
    ensures { OnOk result (out.new.items ≡ out.old.items ++ (codes "let "
        ++ var_text names.now var.now ++ codes "="
        ++ query_text names.now false (query_of bound.now) ++ codes " in "
        ++ statement_text names.now (procs_of procs.now) false (core_of body.now))) }
{
    out.extend_from_slice(b"let ")?;
    push_var(alloc, var, names, out)?;
    out.push(b'=')?;
    push_query(alloc, bound, names, out)?;
    out.extend_from_slice(b" in ")?;
    push_statement(alloc, body, procs, names, out)
}

#[cycle(push_statement)]
fn push_snapshot(
    alloc: Global,
    body: &Core,
    var: &Var,
    procs: &Procs,
    names: &Names,
    out: &mut Vec<u8>,
) -> Result<(), AllocError>
    requires var { VarNames (λ a. a < length names.now) var.now }
    requires names { CoreNames (λ a. a < length names.now) (core_of body.now) }
    requires calls { CallsFit (procs_of procs.now) (core_of body.now) }
    requires procs { All (λ p. p.name < length names.now) (procs_of procs.now) }
    ensures { OnOk result (out.new.items ≡ out.old.items ++ (codes "snapshot "
        ++ var_text names.now var.now ++ codes " in "
        ++ statement_text names.now (procs_of procs.now) false (core_of body.now))) }
{
    out.extend_from_slice(b"snapshot ")?;
    push_var(alloc, var, names, out)?;
    out.extend_from_slice(b" in ")?;
    push_statement(alloc, body, procs, names, out)
}

#[cycle(push_statement)]
fn push_tested(
    alloc: Global,
    body: &Core,
    test: &Test,
    procs: &Procs,
    names: &Names,
    out: &mut Vec<u8>,
) -> Result<(), AllocError>
    requires test { EachLabelOfTest (λ a. a < length names.now) test.now }
    requires names { CoreNames (λ a. a < length names.now) (core_of body.now) }
    requires calls { CallsFit (procs_of procs.now) (core_of body.now) }
    requires procs { All (λ p. p.name < length names.now) (procs_of procs.now) }
    ensures { OnOk result (out.new.items ≡ out.old.items ++ (test_text names.now test.now
        ++ codes "?" ++ statement_text names.now (procs_of procs.now) false (core_of body.now))) }
{
    push_test(test, names, out)?;
    out.push(b'?')?;
    push_statement(alloc, body, procs, names, out)
}

// A word, and a statement between brackets.
#[cycle(push_statement)]
fn push_bracketed(
    alloc: Global,
    body: &Core,
    word: &[u8],
    procs: &Procs,
    names: &Names,
    out: &mut Vec<u8>,
) -> Result<(), AllocError>
    requires names { CoreNames (λ a. a < length names.now) (core_of body.now) }
    requires calls { CallsFit (procs_of procs.now) (core_of body.now) }
    requires procs { All (λ p. p.name < length names.now) (procs_of procs.now) }
    ensures { OnOk result (out.new.items ≡ out.old.items ++ (word.now ++ codes "["
        ++ statement_text names.now (procs_of procs.now) false (core_of body.now) ++ codes "]")) }
{
    out.extend_from_slice(word)?;
    out.push(b'[')?;
    push_statement(alloc, body, procs, names, out)?;
    out.push(b']')?;
    Ok(())
}

fn push_insert(
    alloc: Global,
    query: &Query,
    names: &Names,
    out: &mut Vec<u8>,
) -> Result<(), AllocError>
    requires { QueryNames (λ a. a < length names.now) (query_of query.now) }
    ensures { OnOk result (out.new.items ≡ out.old.items ++ (codes "insert("
        ++ query_text names.now false (query_of query.now) ++ codes ")")) }
{
    out.extend_from_slice(b"insert(")?;
    push_query(alloc, query, names, out)?;
    out.push(b')')?;
    Ok(())
}

fn push_rename(label: Name, names: &Names, out: &mut Vec<u8>) -> Result<(), AllocError>
    requires { label < length names.now }
    ensures { OnOk result
        (out.new.items ≡ out.old.items ++ (codes "rename " ++ name_text names.now label)) }
{
    out.extend_from_slice(b"rename ")?;
    push_name(label, names, out)
}

fn push_call(
    alloc: Global,
    index: u32,
    arguments: &[Query],
    procs: &Procs,
    names: &Names,
    out: &mut Vec<u8>,
) -> Result<(), AllocError>
    requires arguments { All (QueryNames (λ a. a < length names.now)) (map query_of arguments.now) }
    requires procedure { IsSomeAnd (proc_of (procs_of procs.now) index)
        (λ p. p.name < length names.now) }
    ensures { OnOk result (out.new.items ≡ out.old.items
        ++ (codes "call " ++ procedure_name names.now (procs_of procs.now) index ++ codes "("
        ++ with_commas (map (query_text names.now false) (map query_of arguments.now))
        ++ codes ")")) }
{
    out.extend_from_slice(b"call ")?;
    push_name(procs.get(index).name, names, out)?;
    out.push(b'(')?;
    push_queries(alloc, arguments, names, out)?;
    out.push(b')')?;
    Ok(())
}
