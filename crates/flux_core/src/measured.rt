// Types that are being made.
ghost use Rattle.std.specs.Prelude.{◌≡◌, IfOk};
ghost use Rattle.flux_schema.specs.Ty.{size, height, IsWithinLimits};
ghost use Rattle.flux_types.specs.Read.{ty_of};

use flux_types::{Ty, copy_of, height, size};
use std::alloc::{AllocError, Global};
use std::rc::Rc;

/// A type within the limits of 65,536 nodes and 500 levels, with its nodes and levels, so that the
/// test of a type that it becomes part of takes constant time. The type may be shared.
#[derive(Drop)]
pub struct Measured {
    pub ty: Rc<Ty>,
    pub nodes: u32,
    pub levels: u32,
    pub ghost counted: { nodes ≡ size (ty_of ty.value) },
    pub ghost measured: { levels ≡ height (ty_of ty.value) },
    pub ghost limits: { IsWithinLimits (ty_of ty.value) },
}

impl Measured {
    /// The same type once more, in constant time and without a copy.
    pub fn share(&self) -> Result<Measured, AllocError>
        ensures { IfOk result (λ made. made.ty.value ≡ self.now.ty.value) }
    {
        let ty = self.ty.clone()?;
        Ok(Measured {
            ty,
            nodes: self.nodes,
            levels: self.levels,
        })
    }
}

// A type with one owner.
pub(crate) fn held(alloc: Global, ty: Ty) -> Result<Rc<Ty>, AllocError>
    ensures { IfOk result (λ held. held.value ≡ ty) }
{
    Ok(Rc::new(alloc, ty)?)
}

/// A type with its nodes and levels.
pub fn measure(alloc: Global, ty: Ty) -> Result<Measured, AllocError>
    requires { IsWithinLimits (ty_of ty) }
    ensures { IfOk result (λ made. made.ty.value ≡ ty) }
{
    let nodes = size(&ty) as u32;
    let levels = height(&ty) as u32;
    let ty = held(alloc, ty)?;
    Ok(Measured { ty, nodes, levels })
}

/// The type itself, or a copy of it where it is shared.
pub fn own(alloc: Global, made: Measured) -> Result<Ty, AllocError>
    ensures { IfOk result (λ ty. ty ≡ made.ty.value) }
{
    match Rc::try_unwrap(made.ty) {
        Ok(ty) => Ok(ty),
        Err(shared) => copy_of(alloc, shared.as_ref()),
    }
}

/// A copy of a type, with its nodes and levels.
pub fn copied(alloc: Global, ty: &Ty) -> Result<Measured, AllocError>
    requires { IsWithinLimits (ty_of ty.now) }
    ensures { IfOk result (λ made. made.ty.value ≡ ty.now) }
{
    let ty = copy_of(alloc, ty)?;
    measure(alloc, ty)
}
