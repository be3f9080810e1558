// Variables and their types.
ghost use Rattle.std.specs.Prelude.{◌≡◌, ◌<◌, ◌∷◌, [], length, drop, Some, None, OnOk, OnErr, IfOk, IfSome, IfNone};
ghost use Rattle.std.specs.Option.{option_map};
ghost use Rattle.flux_schema.specs.Ty.{IsWithinLimits};
ghost use Rattle.flux_calculus.specs.Query.{found};
ghost use Rattle.flux_types.specs.Read.{ty_of};
ghost use Rattle.flux_core.specs.Contexts.{context_of};

use crate::binding::{Binding, counted, shared};
use crate::{Measured, Param};
use flux_calculus::Var;
use flux_types::Ty;
use std::alloc::{AllocError, Global};
use std::marker::Model;

/// Variables, each with a type. Contracts see them as pairs, the last bound first.
#[derive(Drop)]
pub struct Gamma {
    bindings: Vec<Binding>,
}

impl Model for Gamma {
    ghost use Rattle.flux_calculus.specs.Typing.{Context};
    ghost use Rattle.flux_core.specs.ContextCode.{context_code};

    ghost Value = { Context };

    ghost coded = { context_code };

    ghost use Rattle.flux_core.specs.Contexts.{context_of};

    ghost view = { λ g. context_of g.bindings.items };
}

impl Gamma {
    /// No variables. It takes no memory.
    pub fn new(alloc: Global) -> Gamma
        ensures { result ≡ [] }
    {
        Gamma {
            bindings: Vec::new(alloc),
        }
    }

    /// Binds a variable, which hides what was bound to it before. The nodes and levels of its type
    /// are counted here, once, by a recursion as deep as its height. Where memory is wanting, the
    /// variable and its type are dropped.
    pub fn bind(&mut self, param: Param) -> Result<(), AllocError>
        ensures ok { OnOk result (self.new ≡ (param.var, ty_of param.ty) ∷ self.old) }
        ensures err { OnErr result (self.new ≡ self.old) }
    {
        let binding = counted(*self.bindings.allocator(), param)?;
        self.bindings.push(binding)?;
        Ok(())
    }

    /// Binds a variable as `bind` does, to a type that it shares. It takes constant time.
    pub fn bind_shared(&mut self, var: Var, made: &Measured) -> Result<(), AllocError>
        ensures ok { OnOk result (self.new ≡ (var, ty_of made.now.ty.value) ∷ self.old) }
        ensures err { OnErr result (self.new ≡ self.old) }
    {
        let sharing = shared(var, made)?;
        self.bindings.push(sharing)?;
        Ok(())
    }

    /// Takes back what was bound last: what it hid is seen again.
    pub fn unbind(&mut self)
        requires { 0 < length self.old }
        ensures { self.new ≡ drop 1 self.old }
    {
        self.bindings.pop();
    }

    /// The type that was bound to the variable last.
    pub fn get(&self, var: Var) -> Option<&Ty>
        ensures some { IfSome result (λ ty. found self.now var ≡ Some (ty_of ty.now)) }
        ensures none { IfNone result (found self.now var ≡ None) }
    {
        match last(self.bindings.as_slice(), var) {
            Some(binding) => Some(binding.ty.as_ref()),
            None => None,
        }
    }

    /// The type that was bound to the variable last, shared. Once the variable is found, it takes
    /// constant time.
    pub fn get_shared(&self, var: Var) -> Result<Option<Measured>, AllocError>
        requires { IfSome (found self.now var) IsWithinLimits }
        ensures { IfOk result (λ made.
            found self.now var ≡ option_map (λ m. ty_of m.ty.value) made) }
    {
        match last(self.bindings.as_slice(), var) {
            Some(binding) => Ok(Some(binding.share()?)),
            None => Ok(None),
        }
    }
}

// The last of the variables that is this one.
fn last(bindings: &[Binding], var: Var) -> Option<&Binding>
    ensures some { IfSome result (λ binding.
        found (context_of bindings.now) var ≡ Some (ty_of binding.now.ty.value)) }
    ensures none { IfNone result (found (context_of bindings.now) var ≡ None) }
{
    for binding in bindings.iter().rev() {
        if binding.is_of(&var) {
            return Some(binding);
        }
    }
    None
}
