// Types with what adds nothing taken away.
ghost use Rattle.std.specs.Prelude.{◌≡◌, IfOk};
ghost use Rattle.flux_schema.specs.Definitions.{Definitions};
ghost use Rattle.flux_schema.specs.Member.{SameMembers};
ghost use Rattle.flux_schema.specs.Tidy.{tidy, tidy_seq, tidy_alt, tidy_star};
ghost use Rattle.flux_types.specs.Read.{ty_of};

use crate::ty::{Ty, is_same};
use flux_atom::Boxed;
use std::alloc::{AllocError, Global};

/// The type without what adds nothing to it, which has the same members. It recurses by the height
/// of the type, and not along names.
#[tactic(auto, using(flux_schema::proofs::TidyLaws::tidied_members))]
pub fn tidy(alloc: Global, ty: &Ty) -> Result<Ty, AllocError>
    ensures form { IfOk result (λ made. ty_of made ≡ tidy (ty_of ty.now)) }
    ensures members { IfOk result (λ made.
        (defs : Definitions) → SameMembers defs (ty_of ty.now) (ty_of made)) }
{
    tree(alloc, ty)
}

fn tree(alloc: Global, ty: &Ty) -> Result<Ty, AllocError>
    ensures { IfOk result (λ made. ty_of made ≡ tidy (ty_of ty.now)) }
{
    match ty {
        Ty::Empty => Ok(Ty::Empty),
        Ty::Atom(kind) => Ok(Ty::Atom(*kind)),
        Ty::Elem(label, inner) => {
            let inner = tree(alloc, inner.get())?;
            Ok(Ty::Elem(*label, Boxed::new(alloc, inner)?))
        }
        Ty::AnyElem(inner) => {
            let inner = tree(alloc, inner.get())?;
            Ok(Ty::AnyElem(Boxed::new(alloc, inner)?))
        }
        Ty::Seq(left, right) => {
            let left = tree(alloc, left.get())?;
            let right = tree(alloc, right.get())?;
            seq(alloc, left, right)
        }
        Ty::Alt(left, right) => {
            let left = tree(alloc, left.get())?;
            let right = tree(alloc, right.get())?;
            alt(alloc, left, right)
        }
        Ty::Star(inner) => {
            let inner = tree(alloc, inner.get())?;
            star(alloc, inner)
        }
        Ty::Named(index) => Ok(Ty::Named(*index)),
    }
}

fn seq(alloc: Global, left: Ty, right: Ty) -> Result<Ty, AllocError>
    ensures { IfOk result (λ made. ty_of made ≡ tidy_seq (ty_of left) (ty_of right)) }
{
    match (left, right) {
        (Ty::Empty, right) => Ok(right),
        (left, Ty::Empty) => Ok(left),
        (left, right) => Ok(Ty::Seq(Boxed::new(alloc, left)?, Boxed::new(alloc, right)?)),
    }
}

fn alt(alloc: Global, left: Ty, right: Ty) -> Result<Ty, AllocError>
    ensures { IfOk result (λ made. ty_of made ≡ tidy_alt (ty_of left) (ty_of right)) }
{
    if is_same(&left, &right) {
        Ok(left)
    } else {
        Ok(Ty::Alt(Boxed::new(alloc, left)?, Boxed::new(alloc, right)?))
    }
}

fn star(alloc: Global, inner: Ty) -> Result<Ty, AllocError>
    ensures { IfOk result (λ made. ty_of made ≡ tidy_star (ty_of inner)) }
{
    match inner {
        Ty::Empty => Ok(Ty::Empty),
        inner => Ok(Ty::Star(Boxed::new(alloc, inner)?)),
    }
}
