// What no clause says: that calls succeed, with what one works out by hand.
ghost use Rattle.std.specs.Prelude.{◌≡◌, ◌+◌, length, IfOk, OnOk};
ghost use Rattle.flux_atom.specs.declared.atom.AtomKind.TheVariants as kind;
ghost use Rattle.flux_schema.specs.Ty.{atom};
ghost use Rattle.flux_schema.specs.Definitions.{Definitions};
ghost use Rattle.flux_types.specs.Read.{ty_of};
ghost use Rattle.flux_calculus.specs.Core.{Procs as Procedures};
ghost use Rattle.flux_core.specs.Statements.{procedure_of};
ghost use Rattle.flux_core.specs.WellFormed.{IsWellFormedProc};

use crate::{
    Core, Declared, Gamma, KindFault, Measured, Normal, Param, Proc, Procs, any_one, measure,
    one_atom, own,
};
use flux_atom::{Atom, AtomKind, Boxed, Items, Name, Names, Word, is_name};
use flux_calculus::{Span, Var};
use flux_query::Query;
use flux_types::{Draft, Ty, height, size};
use std::alloc::{AllocError, Global};
use std::process::Abort;
use std::test::Fail;

fn is_atom(ty: Option<&Ty>, kind: AtomKind) -> bool {
    match ty {
        Some(Ty::Atom(found)) => *found == kind,
        _ => false,
    }
}

fn bound(gamma: &mut Gamma, index: u32, kind: AtomKind) -> Result<(), AllocError>
    ensures { OnOk result (length gamma.new ≡ length gamma.old + 1) }
{
    gamma.bind(Param {
        var: Var::Made(index),
        ty: Ty::Atom(kind),
    })
}

#[test]
fn the_last_bound_is_seen(rt: HostRuntime) -> Result<(), Fail> {
    let mut gamma = Gamma::new(rt.alloc());
    bound(&mut gamma, 0, AtomKind::Bool)?;
    bound(&mut gamma, 0, AtomKind::Text)?;
    assert!(rt; is_atom(gamma.get(Var::Made(0)), AtomKind::Text));
    assert!(rt; gamma.get(Var::Made(1)).is_none());
    gamma.unbind();
    assert!(rt; is_atom(gamma.get(Var::Made(0)), AtomKind::Bool));
    Ok(())
}

#[test]
fn a_type_that_is_shared(rt: HostRuntime) -> Result<(), Fail> {
    let alloc = rt.alloc();
    let mut gamma = Gamma::new(alloc);
    let made = one_atom(alloc, AtomKind::Text)?;
    gamma.bind_shared(Var::Made(0), &made)?;
    let other = made.share()?;
    let ty = own(alloc, made)?;
    assert!(rt; is_atom(Some(&ty), AtomKind::Text));
    assert!(rt; is_atom(Some(other.ty.as_ref()), AtomKind::Text));
    assert!(rt; is_atom(gamma.get(Var::Made(0)), AtomKind::Text));
    Ok(())
}

// string**..*, of `count` stars.
fn stars(rt: &impl Abort, alloc: Global, count: u32) -> Result<Measured, AllocError> {
    let mut ty = Ty::Atom(AtomKind::Text);
    for _ in 0..count {
        ty = Ty::Star(Boxed::new(alloc, ty)?);
    }
    assert!(rt; size(&ty) <= 65_536 && height(&ty) <= 500);
    measure(alloc, ty)
}

fn has_levels(made: &Result<Measured, KindFault>, levels: u32) -> bool {
    match made {
        Ok(made) => made.levels == levels,
        Err(_) => false,
    }
}

fn is_too_large(made: &Result<Measured, KindFault>, place: u32) -> bool {
    match made {
        Err(KindFault::TypeTooLarge { place: found }) => *found == place,
        _ => false,
    }
}

#[test]
fn an_element_of_any_label_at_the_limit(rt: HostRuntime) -> Result<(), Fail> {
    let alloc = rt.alloc();
    let highest = any_one(alloc, 3, stars(&rt, alloc, 498)?);
    assert!(rt; has_levels(&highest, 500));
    let over = any_one(alloc, 3, stars(&rt, alloc, 499)?);
    assert!(rt; is_too_large(&over, 3));
    Ok(())
}

fn span(from: u32, to: u32) -> Span {
    Span { from, to }
}

fn text() -> Ty
    ensures { ty_of result ≡ atom kind.Text }
{
    Ty::Atom(AtomKind::Text)
}

// `PROCEDURE keep($keep: string): string => string { SKIP }`
fn keeping(alloc: Global, keep: Name) -> Result<Proc, AllocError>
    ensures count { IfOk result (λ proc. length (procedure_of proc).params ≡ 1) }
    ensures formed { IfOk result (λ proc. (defs : Definitions) (procs : Procedures) →
        IsWellFormedProc defs procs (procedure_of proc)) }
{
    let mut params = Items::new(alloc);
    params.push(Param {
        var: Var::Named(keep),
        ty: text(),
    })?;
    Ok(Proc {
        name: keep,
        params,
        focus: text(),
        result: text(),
        result_at: 41,
        body: Core::Skip(span(50, 54)),
    })
}

// That procedure, and `INPUT string OUTPUT string DO CALL keep("t")`.
fn script(alloc: Global, keep: Name) -> Result<Normal, Fail> {
    let defs = Draft::new(alloc).close()?;
    let _count = defs.len();
    let mut procs = Procs::new(alloc);
    procs.push(keeping(alloc, keep)?)?;
    let mut arguments = Items::new(alloc);
    let word = Atom::Text(Word::of(alloc, "t")?);
    arguments.push(Query::Lit(word, span(97, 100)))?;
    let declared = Declared { ty: text(), at: 77 };
    let main = Core::Call(0, arguments, span(87, 101));
    Ok(Normal::new(defs, procs, text(), Some(declared), main))
}

fn skips(statement: &Core, place: u32) -> bool {
    match statement {
        Core::Skip(span) => span.from == place,
        _ => false,
    }
}

fn calls_with_one(statement: &Core, place: u32) -> bool {
    match statement {
        Core::Call(index, arguments, span) => {
            *index == 0 && arguments.len() == 1 && span.from == place
        }
        _ => false,
    }
}

fn declares_text_at(normal: &Normal, place: u32) -> bool {
    match normal.declared() {
        Some(declared) => declared.at == place && is_atom(Some(&declared.ty), AtomKind::Text),
        None => false,
    }
}

fn has_one_param(proc: &Proc, name: Name) -> bool {
    proc.name == name && proc.params.len() == 1 && proc.result_at == 41
}

fn name(rt: &impl Abort, alloc: Global, text: &str) -> Result<Name, Fail> {
    let mut names = Names::new(alloc);
    assert!(rt; is_name(text) && names.len() < 100);
    Ok(names.intern(text)?)
}

// What the script is made of, read back.
fn is_as_written(normal: &Normal) -> bool {
    calls_with_one(normal.main(), 87)
        && declares_text_at(normal, 77)
        && is_atom(Some(normal.input()), AtomKind::Text)
        && normal.defs().len() == 0
}

fn has_procedure(procs: &Procs, keep: Name) -> bool {
    if procs.len() != 1 {
        return false;
    }
    let proc = procs.get(0);
    has_one_param(proc, keep) && skips(&proc.body, 50)
}

#[test]
fn a_script_has_its_parts(rt: HostRuntime) -> Result<(), Fail> {
    let alloc = rt.alloc();
    let keep = name(&rt, alloc, "keep")?;
    let normal = script(alloc, keep)?;
    assert!(rt; is_as_written(&normal));
    assert!(rt; has_procedure(normal.procs(), keep));
    Ok(())
}
