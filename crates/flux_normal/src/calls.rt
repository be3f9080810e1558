// The calls of a script.
ghost use Rattle.std.specs.Prelude.{◌≡◌, map, flat_map};
ghost use Rattle.flux_grammar.specs.NormalFaults.{first, calls, wrong_calls};
ghost use Rattle.flux_normal.specs.Calls.{misfit_of, misfits, misfits_in, told_misfit};
ghost use Rattle.flux_normal.specs.Procedures.{head_written};

use crate::procedures::Procedures;
use flux_atom::Name;
use flux_grammar::{ProcDef, Script, Stmt};

/// What is wrong with a call, and where it begins.
#[derive(Clone, Copy)]
pub(crate) enum Misfit {
    /// No procedure has its name.
    NoProcedure(u32),
    /// It has another number of arguments than its procedure has parameters.
    OtherNumber(u32),
}

// The first call of a script that doesn't fit, as an error.
pub(crate) fn check_calls(script: &Script, procedures: &Procedures) -> Result<(), Misfit>
    requires { procedures.now ≡ map head_written script.now.procs }
    ensures { first (wrong_calls script.now) ≡ told_misfit result }
{
    match check_procs(script.procs.as_slice(), procedures) {
        Ok(()) => check_statements(script.body.as_slice(), procedures),
        Err(misfit) => Err(misfit),
    }
}

fn check_procs(procs: &[ProcDef], procedures: &Procedures) -> Result<(), Misfit>
    ensures { first (misfits_in procedures.now (flat_map (λ p. p.body) procs.now))
        ≡ told_misfit result }
{
    for proc in procs {
        match check_statements(proc.body.as_slice(), procedures) {
            Ok(()) => {}
            Err(misfit) => return Err(misfit),
        }
    }
    Ok(())
}

#[cycle(statements)]
fn check_statement(stmt: &Stmt, procedures: &Procedures) -> Result<(), Misfit>
    ensures { first (misfits procedures.now (calls stmt.now)) ≡ told_misfit result }
{
    match stmt {
        Stmt::Update(_, body, _) | Stmt::Let(_, _, body, _) | Stmt::Guarded(body, _, _) => {
            check_statement(body.get(), procedures)
        }
        Stmt::If(_, yes, no, _) => match check_statement(yes.get(), procedures) {
            Ok(()) => check_statement(no.get(), procedures),
            Err(misfit) => Err(misfit),
        },
        Stmt::Call(name, arguments, span) => {
            check_call(*name, arguments.as_slice().len(), span.from, procedures)
        }
        Stmt::Block(parts, _) => check_statements(parts.as_slice(), procedures),
        Stmt::Skip(_)
        | Stmt::Insert(_, _)
        | Stmt::InsertBefore(_, _, _)
        | Stmt::InsertAfter(_, _, _)
        | Stmt::InsertFirst(_, _, _)
        | Stmt::InsertLast(_, _, _)
        | Stmt::Delete(_, _)
        | Stmt::DeleteFrom(_, _)
        | Stmt::Rename(_, _, _)
        | Stmt::Replace(_, _, _)
        | Stmt::ReplaceIn(_, _, _) => Ok(()),
    }
}

#[cycle(statements)]
fn check_statements(stmts: &[Stmt], procedures: &Procedures) -> Result<(), Misfit>
    ensures { first (misfits_in procedures.now stmts.now) ≡ told_misfit result }
{
    for stmt in stmts {
        match check_statement(stmt, procedures) {
            Ok(()) => {}
            Err(misfit) => return Err(misfit),
        }
    }
    Ok(())
}

fn check_call(
    name: Name,
    arguments: usize,
    place: u32,
    procedures: &Procedures,
) -> Result<(), Misfit>
    ensures { misfit_of procedures.now (record { name = name; arguments = arguments; place = place })
        ≡ told_misfit result }
{
    match procedures.find(name) {
        None => Err(Misfit::NoProcedure(place)),
        Some(found) => {
            if found.parameters as usize == arguments {
                Ok(())
            } else {
                Err(Misfit::OtherNumber(place))
            }
        }
    }
}
