// Good definitions, and the one tree that a type stands for.
ghost use Rattle.std.specs.Prelude.{◌≡◌, ◌<◌, ℕ, Some, All, length, slice_get, IfOk, IfSome, IfNone};
ghost use Rattle.std.specs.Option.{option_map};
ghost use Rattle.flux_schema.specs.Definitions.{body_of, IsGood};
ghost use Rattle.flux_schema.specs.Fits.{MembershipComputes};
ghost use Rattle.flux_schema.specs.Single.{Single, IsNotSingle};
ghost use Rattle.flux_types.specs.Read.{ty_of};
ghost use Rattle.flux_types.specs.Kept.{definitions_of, AreKept, IsKnownAtTop};

use crate::ranks::closing_order;
use crate::{Ty, copy_of};
use flux_atom::Name;
use std::alloc::{AllocError, Global};
use std::marker::Model;

// A name and the type that it stands for.
#[derive(Drop)]
pub(crate) struct Kept {
    pub(crate) name: Name,
    pub(crate) body: Ty,
}

/// Named types, each with its place as its index: their names differ, the indices in their bodies
/// are their own, and no name reaches itself without passing an element.
#[derive(Drop)]
pub struct Defs {
    kept: Vec<Kept>,
}

impl Model for Defs {
    ghost use Rattle.flux_schema.specs.Definitions.{Definitions};
    ghost use Rattle.flux_schema.specs.DefinitionCodes.{definitions_code};

    ghost Value = { Definitions };

    ghost coded = { definitions_code };

    ghost use Rattle.flux_types.specs.Kept.{definitions_of, AreKept};

    ghost view = { λ d. definitions_of d.kept.items };

    ghost invariant = { λ d. AreKept (definitions_of d.kept.items) };
}

impl Defs {
    /// The same definitions once more. It recurses by the heights of their bodies.
    pub fn copy(&self, alloc: Global) -> Result<Defs, AllocError>
        ensures { IfOk result (λ copied. copied ≡ self.now) }
    {
        let kept = copies(alloc, &self.kept)?;
        Ok(Defs { kept })
    }

    /// The indices in an order in which each comes after those that its body names outside
    /// elements. It takes the time of going over the bodies once. Which indices there are, and in
    /// which order, is a guess to begin with, and no promise.
    pub fn order(&self, alloc: Global) -> Result<Vec<u32>, AllocError>
        ensures { IfOk result (λ order. All (λ x. x < length self.now) order.items) }
    {
        closing_order(alloc, &self.kept)
    }

    pub(crate) fn over(kept: Vec<Kept>) -> Defs
        requires { AreKept (definitions_of kept.items) }
        ensures { result ≡ definitions_of kept.items }
    {
        Defs { kept }
    }

    /// How many there are: the indices are the numbers below it.
    pub fn len(&self) -> u32
        ensures count { result ≡ length self.now }
        ensures kept { AreKept self.now }
    {
        self.kept.len() as u32
    }

    /// These definitions, with what they keep: for one who gets them from a caller.
    pub fn as_kept(&self) -> &Defs
        ensures same { result.now ≡ self.now }
        ensures kept { AreKept self.now }
    {
        let _kept = &self.kept;
        self
    }

    pub(crate) fn name(&self, index: u32) -> Name
        requires { index < length self.now }
        ensures { option_map (λ d. d.name) (slice_get self.now index) ≡ Some result }
    {
        self.kept[index as usize].name
    }

    /// The body of a definition.
    pub fn unfold(&self, index: u32) -> &Ty
        requires { index < length self.now }
        ensures body { body_of self.now index ≡ Some (ty_of result.now) }
        ensures good { IsGood self.now }
    {
        &self.kept[index as usize].body
    }
}

fn copies(alloc: Global, kept: &[Kept]) -> Result<Vec<Kept>, AllocError>
    ensures { IfOk result (λ copied. copied.items ≡ kept.now) }
{
    let mut copied = Vec::new(alloc);
    for one in kept {
        let name = one.name;
        let body = copy_of(alloc, &one.body)?;
        copied.push(Kept { name, body })?;
    }
    Ok(copied)
}

/// The atom or the element that a type of one tree stands for. Names are followed in a loop.
pub fn single<'t>(defs: &'t Defs, ty: &'t Ty) -> Option<&'t Ty>
    requires { IsKnownAtTop defs.now (ty_of ty.now) }
    ensures found { IfSome result (λ one. Single defs.now (ty_of ty.now) (ty_of one.now)) }
    ensures none { IfNone result (IsNotSingle defs.now (ty_of ty.now)) }
{
    let mut ty = ty;
    while let Ty::Named(index) = ty {
        ty = defs.unfold(*index);
    }
    match ty {
        Ty::Atom(_) | Ty::Elem(_, _) | Ty::AnyElem(_) => Some(ty),
        _ => None,
    }
}

/// Whether a forest is a member of a type can be computed: a test that unfolds each name at most
/// once for each level of the forest answers it. A law, and no code.
pub fn membership_computes(defs: &Defs)
    ensures { MembershipComputes defs.now }
{
    let _kept = &defs.kept;
}
