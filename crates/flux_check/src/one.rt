// Types of one tree.
ghost use Rattle.std.specs.Prelude.{◌≡◌, IfOk};
ghost use Rattle.std.specs.Option.{option_map};
ghost use Rattle.flux_schema.specs.Ty.{element, IsWithinLimits};
ghost use Rattle.flux_types.specs.Read.{ty_of};
ghost use Rattle.flux_types.specs.Kept.{AreKept};
ghost use Rattle.flux_calculus.specs.Tests.{kind_matches, element_matches};
ghost use Rattle.flux_calculus.specs.Typing.{content_type, IsAtomic};
ghost use Rattle.flux_typing.specs.Update.{StandsFor, verdict, verdict_of_any, passes_if};
ghost use Rattle.flux_core.specs.Faults.{IsUsable};
ghost use Rattle.flux_core.specs.Answers.{IsConclusion};
ghost use Rattle.flux_check.specs.Ones.{measured_type, is_one, element_type, IsOpened, verdict_of};

use flux_atom::{AtomKind, Boxed, Name};
use flux_calculus::Test;
use flux_core::{KindFault, Measured, any_one, copied, measure, one_element, own};
use flux_types::{Defs, Ty, copy_of, single};
use std::alloc::{AllocError, Global};

// An element type that is taken apart: its label, none where it is of any, and its content.
#[derive(Drop)]
pub(crate) struct Opened {
    pub(crate) label: Option<Name>,
    pub(crate) content: Measured,
}

// Which trees of a type pass a test: all, none, or those with a label.
#[derive(Clone, Copy)]
pub(crate) enum Passing {
    All,
    Nothing,
    Labelled(Name),
}

// The atom type or the element type that a type stands for. A type that is one is handed on; a name
// is followed, and what it stands for copied.
pub(crate) fn tree_of(
    alloc: Global,
    ty: Measured,
    defs: &Defs,
) -> Result<Option<Measured>, AllocError>
    requires defs { AreKept defs.now }
    requires usable { IsUsable defs.now (measured_type ty) }
    ensures { IfOk result (λ one. StandsFor defs.now (measured_type ty)
        (option_map measured_type one)) }
{
    if is_one(ty.ty.as_ref()) {
        return Ok(Some(ty));
    }
    let Some(one) = single(defs, ty.ty.as_ref()) else {
        return Ok(None);
    };
    Ok(Some(copied(alloc, one)?))
}

fn is_one(ty: &Ty) -> bool
    ensures { result ≡ is_one (ty_of ty.now) }
{
    match ty {
        Ty::Atom(_) | Ty::Elem(_, _) | Ty::AnyElem(_) => true,
        Ty::Empty | Ty::Seq(_, _) | Ty::Alt(_, _) | Ty::Star(_) | Ty::Named(_) => false,
    }
}

// An element type taken apart, if it is one.
pub(crate) fn open_element(alloc: Global, one: Measured) -> Result<Option<Opened>, AllocError>
    ensures { IfOk result (IsOpened (measured_type one)) }
{
    match own(alloc, one)? {
        Ty::Elem(label, content) => {
            let content = measure(alloc, content.into_inner())?;
            Ok(Some(Opened {
                label: Some(label),
                content,
            }))
        }
        Ty::AnyElem(content) => {
            let content = measure(alloc, content.into_inner())?;
            Ok(Some(Opened {
                label: None,
                content,
            }))
        }
        Ty::Empty | Ty::Atom(_) | Ty::Seq(_, _) | Ty::Alt(_, _) | Ty::Star(_) | Ty::Named(_) => Ok(
            None,
        ),
    }
}

// An element type of a label, or of any where none is given, or TypeTooLarge at the place.
pub(crate) fn close_element(
    alloc: Global,
    place: u32,
    label: Option<Name>,
    content: Measured,
) -> Result<Measured, KindFault>
    ensures { IsConclusion place (element_type label (measured_type content)) result }
{
    match label {
        Some(label) => one_element(alloc, place, label, content),
        None => any_one(alloc, place, content),
    }
}

// The element type with a label and the content of another.
pub(crate) fn labelled(alloc: Global, label: Name, one: &Ty) -> Result<Measured, AllocError>
    requires { IsWithinLimits (element label (content_type (ty_of one.now))) }
    ensures { IfOk result (λ made.
        measured_type made ≡ element label (content_type (ty_of one.now))) }
{
    let content = content(alloc, one)?;
    measure(alloc, Ty::Elem(label, Boxed::new(alloc, content)?))
}

// What the tree of an atom type or an element type contains.
fn content(alloc: Global, one: &Ty) -> Result<Ty, AllocError>
    ensures { IfOk result (λ content. ty_of content ≡ content_type (ty_of one.now)) }
{
    match one {
        Ty::Elem(_, content) | Ty::AnyElem(content) => copy_of(alloc, content.get()),
        Ty::Empty | Ty::Atom(_) | Ty::Seq(_, _) | Ty::Alt(_, _) | Ty::Star(_) | Ty::Named(_) => Ok(
            Ty::Empty,
        ),
    }
}

// Which trees of an atom type or an element type pass a test.
pub(crate) fn passing_trees(one: &Ty, test: &Test) -> Passing
    ensures { verdict_of result ≡ verdict test.now (ty_of one.now) }
{
    match one {
        Ty::Atom(kind) => all_or_none(kind_passes(*kind, test)),
        Ty::Elem(label, _) => all_or_none(label_passes(*label, test)),
        Ty::AnyElem(_) => passing_any(test),
        Ty::Empty | Ty::Seq(_, _) | Ty::Alt(_, _) | Ty::Star(_) | Ty::Named(_) => Passing::Nothing,
    }
}

fn all_or_none(passes: bool) -> Passing
    ensures { verdict_of result ≡ passes_if passes }
{
    if passes {
        Passing::All
    } else {
        Passing::Nothing
    }
}

// A label is undecided at an element of any label.
fn passing_any(test: &Test) -> Passing
    ensures { verdict_of result ≡ verdict_of_any test.now }
{
    match test {
        Test::Label(label) => Passing::Labelled(*label),
        Test::AnyElement => Passing::All,
        Test::OfText | Test::OfBool | Test::OfInt => Passing::Nothing,
    }
}

fn label_passes(label: Name, test: &Test) -> bool
    ensures { result ≡ element_matches test.now label }
{
    match test {
        Test::Label(wanted) => label == *wanted,
        Test::AnyElement => true,
        Test::OfText | Test::OfBool | Test::OfInt => false,
    }
}

fn kind_passes(kind: AtomKind, test: &Test) -> bool
    ensures { result ≡ kind_matches test.now kind }
{
    match kind {
        AtomKind::Bool => match test {
            Test::OfBool => true,
            Test::Label(_) | Test::AnyElement | Test::OfText | Test::OfInt => false,
        },
        AtomKind::Text => match test {
            Test::OfText => true,
            Test::Label(_) | Test::AnyElement | Test::OfBool | Test::OfInt => false,
        },
        AtomKind::Int => match test {
            Test::OfInt => true,
            Test::Label(_) | Test::AnyElement | Test::OfText | Test::OfBool => false,
        },
    }
}
