// Variables that are bound, each to a type that may be shared.
ghost use Rattle.std.specs.Prelude.{◌≡◌, ◌-◌, ◌^◌, min, IfOk};
ghost use Rattle.flux_schema.specs.Ty.{size, height, IsWithinLimits};
ghost use Rattle.flux_calculus.specs.Query.{same_var};
ghost use Rattle.flux_types.specs.Read.{ty_of};

use crate::measured::held;
use crate::{Measured, Param};
use flux_calculus::Var;
use flux_types::{Ty, height, size};
use std::alloc::{AllocError, Global};
use std::rc::Rc;

// A variable and its type, which may be shared, with as many nodes and levels as are counted.
#[derive(Drop)]
pub(crate) struct Binding {
    pub(crate) var: Var,
    pub(crate) ty: Rc<Ty>,
    nodes: u64,
    levels: u64,
    ghost counted: { nodes ≡ min (size (ty_of ty.value)) (2 ^ 64 - 1) },
    ghost measured: { levels ≡ min (height (ty_of ty.value)) (2 ^ 64 - 1) },
}

impl Binding {
    pub(crate) fn is_of(&self, var: &Var) -> bool
        ensures { result ≡ same_var self.now.var var.now }
    {
        self.var == *var
    }

    // The type, shared.
    pub(crate) fn share(&self) -> Result<Measured, AllocError>
        requires { IsWithinLimits (ty_of self.now.ty.value) }
        ensures { IfOk result (λ made. made.ty.value ≡ self.now.ty.value) }
    {
        let nodes = self.nodes as u32;
        let levels = self.levels as u32;
        let ty = self.ty.clone()?;
        Ok(Measured { ty, nodes, levels })
    }
}

// A variable and its type, with the nodes and levels counted.
pub(crate) fn counted(alloc: Global, param: Param) -> Result<Binding, AllocError>
    ensures var { IfOk result (λ binding. binding.var ≡ param.var) }
    ensures ty { IfOk result (λ binding. binding.ty.value ≡ param.ty) }
{
    let nodes = size(&param.ty);
    let levels = height(&param.ty);
    let ty = held(alloc, param.ty)?;
    Ok(Binding {
        var: param.var,
        ty,
        nodes,
        levels,
    })
}

// A variable and a type that it shares.
pub(crate) fn shared(var: Var, made: &Measured) -> Result<Binding, AllocError>
    ensures var { IfOk result (λ binding. binding.var ≡ var) }
    ensures ty { IfOk result (λ binding. binding.ty.value ≡ made.now.ty.value) }
{
    let ty = made.ty.clone()?;
    Ok(Binding {
        var,
        ty,
        nodes: u64::from(made.nodes),
        levels: u64::from(made.levels),
    })
}
