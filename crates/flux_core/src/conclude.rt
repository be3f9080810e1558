// Types that are concluded of others. Each is tested before it is made, and refused at a place
// where it is over the limits.
ghost use Rattle.std.specs.Prelude.{◌≡◌, IfOk};
ghost use Rattle.flux_schema.specs.Ty.{empty, atom, element, any_element, seq, alt, star};
ghost use Rattle.flux_types.specs.Read.{ty_of};
ghost use Rattle.flux_core.specs.Answers.{IsConclusion};

use crate::measured::held;
use crate::{KindFault, Measured, own};
use flux_atom::{AtomKind, Boxed, Name};
use flux_types::Ty;
use std::alloc::{AllocError, Global};

const MOST_NODES: u32 = 65536;

const MOST_LEVELS: u32 = 500;

/// The empty type.
pub fn nothing(alloc: Global) -> Result<Measured, AllocError>
    ensures { IfOk result (λ made. ty_of made.ty.value ≡ empty) }
{
    let ty = held(alloc, Ty::Empty)?;
    Ok(Measured {
        ty,
        nodes: 1,
        levels: 1,
    })
}

/// The type of an atom.
pub fn one_atom(alloc: Global, kind: AtomKind) -> Result<Measured, AllocError>
    ensures { IfOk result (λ made. ty_of made.ty.value ≡ atom kind) }
{
    let ty = held(alloc, Ty::Atom(kind))?;
    Ok(Measured {
        ty,
        nodes: 1,
        levels: 1,
    })
}

/// An element type, or TypeTooLarge at the place.
pub fn one_element(
    alloc: Global,
    place: u32,
    label: Name,
    content: Measured,
) -> Result<Measured, KindFault>
    ensures { IsConclusion place (element label (ty_of content.ty.value)) result }
{
    let nodes = content.nodes + 1;
    let levels = content.levels + 1;
    if nodes > MOST_NODES || levels > MOST_LEVELS {
        return Err(KindFault::TypeTooLarge { place });
    }
    let content = own(alloc, content)?;
    let ty = held(alloc, Ty::Elem(label, Boxed::new(alloc, content)?))?;
    Ok(Measured { ty, nodes, levels })
}

/// An element type of any label, or TypeTooLarge at the place.
pub fn any_one(alloc: Global, place: u32, content: Measured) -> Result<Measured, KindFault>
    ensures { IsConclusion place (any_element (ty_of content.ty.value)) result }
{
    let nodes = content.nodes + 1;
    let levels = content.levels + 1;
    if nodes > MOST_NODES || levels > MOST_LEVELS {
        return Err(KindFault::TypeTooLarge { place });
    }
    let content = own(alloc, content)?;
    let ty = held(alloc, Ty::AnyElem(Boxed::new(alloc, content)?))?;
    Ok(Measured { ty, nodes, levels })
}

/// A sequence, or TypeTooLarge at the place.
pub fn in_sequence(
    alloc: Global,
    place: u32,
    left: Measured,
    right: Measured,
) -> Result<Measured, KindFault>
    ensures { IsConclusion place (seq (ty_of left.ty.value) (ty_of right.ty.value)) result }
{
    let nodes = left.nodes + right.nodes + 1;
    let levels = left.levels.max(right.levels) + 1;
    if nodes > MOST_NODES || levels > MOST_LEVELS {
        return Err(KindFault::TypeTooLarge { place });
    }
    let left = Boxed::new(alloc, own(alloc, left)?)?;
    let right = Boxed::new(alloc, own(alloc, right)?)?;
    let ty = held(alloc, Ty::Seq(left, right))?;
    Ok(Measured { ty, nodes, levels })
}

/// A choice, or TypeTooLarge at the place.
pub fn either(
    alloc: Global,
    place: u32,
    left: Measured,
    right: Measured,
) -> Result<Measured, KindFault>
    ensures { IsConclusion place (alt (ty_of left.ty.value) (ty_of right.ty.value)) result }
{
    let nodes = left.nodes + right.nodes + 1;
    let levels = left.levels.max(right.levels) + 1;
    if nodes > MOST_NODES || levels > MOST_LEVELS {
        return Err(KindFault::TypeTooLarge { place });
    }
    let left = Boxed::new(alloc, own(alloc, left)?)?;
    let right = Boxed::new(alloc, own(alloc, right)?)?;
    let ty = held(alloc, Ty::Alt(left, right))?;
    Ok(Measured { ty, nodes, levels })
}

/// A star, or TypeTooLarge at the place.
pub fn repeated(alloc: Global, place: u32, inner: Measured) -> Result<Measured, KindFault>
    ensures { IsConclusion place (star (ty_of inner.ty.value)) result }
{
    let nodes = inner.nodes + 1;
    let levels = inner.levels + 1;
    if nodes > MOST_NODES || levels > MOST_LEVELS {
        return Err(KindFault::TypeTooLarge { place });
    }
    let inner = own(alloc, inner)?;
    let ty = held(alloc, Ty::Star(Boxed::new(alloc, inner)?))?;
    Ok(Measured { ty, nodes, levels })
}
