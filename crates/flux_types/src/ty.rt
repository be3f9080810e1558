// Types as trees.
ghost use Rattle.std.specs.Prelude.{◌≡◌, ◌-◌, ◌^◌, min, IfOk};
ghost use Rattle.flux_schema.specs.Ty.{size, height};
ghost use Rattle.flux_schema.specs.Tidy.{same};
ghost use Rattle.flux_types.specs.Read.{ty_of};

use flux_atom::{AtomKind, Boxed, Name};
use std::alloc::{AllocError, Global};

/// A regular expression over truth values, texts, whole numbers and elements. Contracts read it as
/// the type of the calculus that it spells. A type is dropped by a recursion as deep as its height:
/// at most 500 for one within the limits.
#[derive(Debug, Drop)]
pub enum Ty {
    /// The empty forest.
    Empty,
    /// One atom of the kind.
    Atom(AtomKind),
    /// One element with the label, and a type of its content.
    Elem(Name, Boxed<Ty>),
    /// One element of any label, and a type of its content.
    AnyElem(Boxed<Ty>),
    /// One type and then another.
    Seq(Boxed<Ty>, Boxed<Ty>),
    /// One of two types.
    Alt(Boxed<Ty>, Boxed<Ty>),
    /// A type any number of times.
    Star(Boxed<Ty>),
    /// The definition with this index.
    Named(u32),
}

/// How many nodes a type has, or `u64::MAX` where these are more. It recurses by the height.
pub fn size(ty: &Ty) -> u64
    ensures { result ≡ min (size (ty_of ty.now)) (2 ^ 64 - 1) }
{
    match ty {
        Ty::Empty | Ty::Atom(_) | Ty::Named(_) => 1,
        Ty::Elem(_, inner) | Ty::AnyElem(inner) | Ty::Star(inner) => {
            size(inner.get()).saturating_add(1)
        }
        Ty::Seq(left, right) | Ty::Alt(left, right) => size(left.get())
            .saturating_add(size(right.get()))
            .saturating_add(1),
    }
}

/// How many levels a type has, or `u64::MAX` where these are more. It recurses by the height.
pub fn height(ty: &Ty) -> u64
    ensures { result ≡ min (height (ty_of ty.now)) (2 ^ 64 - 1) }
{
    match ty {
        Ty::Empty | Ty::Atom(_) | Ty::Named(_) => 1,
        Ty::Elem(_, inner) | Ty::AnyElem(inner) | Ty::Star(inner) => {
            height(inner.get()).saturating_add(1)
        }
        Ty::Seq(left, right) | Ty::Alt(left, right) => {
            let left = height(left.get());
            let right = height(right.get());
            left.max(right).saturating_add(1)
        }
    }
}

/// An equal type. It recurses by the height of the type, and not along names.
pub fn copy_of(alloc: Global, ty: &Ty) -> Result<Ty, AllocError>
    ensures { IfOk result (λ copied. copied ≡ ty.now) }
{
    Ok(match ty {
        Ty::Empty => Ty::Empty,
        Ty::Atom(kind) => Ty::Atom(*kind),
        Ty::Elem(label, inner) => {
            Ty::Elem(*label, Boxed::new(alloc, copy_of(alloc, inner.get())?)?)
        }
        Ty::AnyElem(inner) => Ty::AnyElem(Boxed::new(alloc, copy_of(alloc, inner.get())?)?),
        Ty::Seq(left, right) => Ty::Seq(
            Boxed::new(alloc, copy_of(alloc, left.get())?)?,
            Boxed::new(alloc, copy_of(alloc, right.get())?)?,
        ),
        Ty::Alt(left, right) => Ty::Alt(
            Boxed::new(alloc, copy_of(alloc, left.get())?)?,
            Boxed::new(alloc, copy_of(alloc, right.get())?)?,
        ),
        Ty::Star(inner) => Ty::Star(Boxed::new(alloc, copy_of(alloc, inner.get())?)?),
        Ty::Named(index) => Ty::Named(*index),
    })
}

/// Whether two types are the same tree. It recurses by the smaller height.
pub(crate) fn is_same(left: &Ty, right: &Ty) -> bool
    ensures { result ≡ same (ty_of left.now) (ty_of right.now) }
{
    match left {
        Ty::Empty => matches!(right, Ty::Empty),
        Ty::Atom(k) => match right {
            Ty::Atom(l) => k == l,
            _ => false,
        },
        Ty::Elem(n, t) => match right {
            Ty::Elem(m, u) => n == m && is_same(t.get(), u.get()),
            _ => false,
        },
        Ty::AnyElem(t) => match right {
            Ty::AnyElem(u) => is_same(t.get(), u.get()),
            _ => false,
        },
        Ty::Seq(t, u) => match right {
            Ty::Seq(v, w) => is_same(t.get(), v.get()) && is_same(u.get(), w.get()),
            _ => false,
        },
        Ty::Alt(t, u) => match right {
            Ty::Alt(v, w) => is_same(t.get(), v.get()) && is_same(u.get(), w.get()),
            _ => false,
        },
        Ty::Star(t) => match right {
            Ty::Star(u) => is_same(t.get(), u.get()),
            _ => false,
        },
        Ty::Named(x) => match right {
            Ty::Named(y) => x == y,
            _ => false,
        },
    }
}
