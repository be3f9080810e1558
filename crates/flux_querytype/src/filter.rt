// The type of the trees that pass a test.
ghost use Rattle.std.specs.Prelude.{◌≡◌, IfOk, if◌then◌else◌};
ghost use Rattle.flux_schema.specs.Ty.{empty, any_element, IsWithinLimits};
ghost use Rattle.flux_types.specs.Read.{ty_of};
ghost use Rattle.flux_types.specs.Kept.{AreKept};
ghost use Rattle.flux_calculus.specs.Tests.{kind_matches};
ghost use Rattle.flux_calculus.specs.Typing.{Types, of_map, keeping, kept, kept_of_any};
ghost use Rattle.flux_core.specs.Faults.{ShowsNothing, IsUsable};
ghost use Rattle.flux_core.specs.Answers.{IsAnswer, IsConclusion};
ghost use Rattle.flux_querytype.specs.Filter.{stays};

use flux_atom::AtomKind;
use flux_calculus::Test;
use flux_core::{KindFault, Measured, Turn, Walk, any_one, either, measure, nothing, one_element};
use flux_types::{Defs, Ty};
use std::alloc::{AllocError, Global};

// The type of the trees of another type that pass a test.
pub(crate) fn filtered(
    alloc: Global,
    ty: Ty,
    test: &Test,
    place: u32,
    defs: &Defs,
) -> Result<Measured, KindFault>
    requires defs { AreKept defs.now }
    requires usable { IsUsable defs.now (ty_of ty) }
    ensures { IsAnswer ShowsNothing
        (Types defs.now (of_map place (keeping test.now) (ty_of ty))) result }
{
    let mut walk = Walk::new(alloc, place);
    let mut turn = walk.enter(ty, defs)?;
    loop {
        turn = match turn {
            Turn::Over(made) => return Ok(made),
            Turn::At(tree) => {
                let made = passing(alloc, place, tree, test)?;
                walk.put(made, defs)?
            }
        };
    }
}

// What a test leaves of an atom type or an element type, or TypeTooLarge at the place.
fn passing(alloc: Global, place: u32, ty: Ty, test: &Test) -> Result<Measured, KindFault>
    requires { IsWithinLimits (ty_of ty) }
    ensures { IsConclusion place (kept test.now (ty_of ty)) result }
{
    match ty {
        Ty::AnyElem(content) => passing_any(alloc, place, content.into_inner(), test),
        ty => {
            let made = passing_one(alloc, ty, test)?;
            Ok(made)
        }
    }
}

// The type where all its trees pass the test, else nothing.
fn passing_one(alloc: Global, ty: Ty, test: &Test) -> Result<Measured, AllocError>
    requires { IsWithinLimits (ty_of ty) }
    ensures { IfOk result (λ made. ty_of made.ty.value
        ≡ (if stays test.now (ty_of ty) then ty_of ty else empty)) }
{
    if stays(&ty, test) {
        measure(alloc, ty)
    } else {
        nothing(alloc)
    }
}

// What a test leaves of an element type of any label: a label is undecided there.
fn passing_any(alloc: Global, place: u32, content: Ty, test: &Test) -> Result<Measured, KindFault>
    requires { IsWithinLimits (any_element (ty_of content)) }
    ensures { IsConclusion place (kept_of_any test.now (ty_of content)) result }
{
    match test {
        Test::Label(label) => {
            let content = measure(alloc, content)?;
            let labelled = one_element(alloc, place, *label, content)?;
            either(alloc, place, labelled, nothing(alloc)?)
        }
        Test::AnyElement => {
            let content = measure(alloc, content)?;
            any_one(alloc, place, content)
        }
        Test::OfText | Test::OfBool | Test::OfInt => Ok(nothing(alloc)?),
    }
}

fn stays(ty: &Ty, test: &Test) -> bool
    ensures { result ≡ stays test.now (ty_of ty.now) }
{
    match ty {
        Ty::Atom(kind) => kind_passes(*kind, test),
        Ty::Elem(label, _) => match test {
            Test::Label(wanted) => label == wanted,
            Test::AnyElement => true,
            Test::OfText | Test::OfBool | Test::OfInt => false,
        },
        Ty::Empty | Ty::AnyElem(_) | Ty::Seq(_, _) | Ty::Alt(_, _) | Ty::Star(_) | Ty::Named(_) => {
            false
        }
    }
}

fn kind_passes(kind: AtomKind, test: &Test) -> bool
    ensures { result ≡ kind_matches test.now kind }
{
    match kind {
        AtomKind::Bool => match test {
            Test::OfBool => true,
            Test::Label(_) | Test::AnyElement | Test::OfText | Test::OfInt => false,
        },
        AtomKind::Text => match test {
            Test::OfText => true,
            Test::Label(_) | Test::AnyElement | Test::OfBool | Test::OfInt => false,
        },
        AtomKind::Int => match test {
            Test::OfInt => true,
            Test::Label(_) | Test::AnyElement | Test::OfText | Test::OfBool => false,
        },
    }
}
