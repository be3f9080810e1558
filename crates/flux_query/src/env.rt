// Variables and what is bound to them.
ghost use Rattle.std.specs.Prelude.{◌≡◌, ◌<◌, ◌∷◌, [], length, drop, Some, None, OnOk, OnErr, IfSome, IfNone};
ghost use Rattle.flux_trees.specs.Draft.{depth, outer};
ghost use Rattle.flux_calculus.specs.Query.{found, same_var};
ghost use Rattle.flux_query.specs.Environments.{environment_of, AreWhole};

use flux_calculus::Var;
use flux_forest::{Forest, View};
use std::alloc::{AllocError, Global};
use std::marker::Model;

// A variable, and the forest that is bound to it.
#[derive(Drop)]
struct Binding {
    var: Var,
    value: Forest,
}

impl Binding {
    fn binds(&self, var: &Var) -> bool
        ensures { result ≡ same_var self.now.var var.now }
    {
        self.var == *var
    }
}

/// Variables, each with a forest. Contracts see them as pairs, the last bound first.
#[derive(Drop)]
pub struct Env {
    bindings: Vec<Binding>,
}

impl Model for Env {
    ghost use Rattle.flux_calculus.specs.Query.{Environment};
    ghost use Rattle.flux_query.specs.EnvironmentCode.{environment_code};

    ghost Value = { Environment };

    ghost coded = { environment_code };

    ghost use Rattle.flux_query.specs.Environments.{environment_of, AreWhole};

    ghost view = { λ e. environment_of e.bindings.items };

    ghost invariant = { λ e. AreWhole e.bindings.items };
}

impl Env {
    ghost use Rattle.flux_forest.specs.View.{forest_of};

    /// No variables. It takes no memory.
    pub fn new(alloc: Global) -> Env
        ensures { result ≡ [] }
    {
        Env {
            bindings: Vec::new(alloc),
        }
    }

    /// Binds a variable, which hides what was bound to it before. Where memory is wanting, the
    /// forest is dropped.
    pub fn bind(&mut self, var: Var, value: Forest) -> Result<(), AllocError>
        requires { depth value ≡ 0 }
        ensures ok { OnOk result (self.new ≡ (var, outer value) ∷ self.old) }
        ensures err { OnErr result (self.new ≡ self.old) }
    {
        self.bindings.push(Binding { var, value })?;
        Ok(())
    }

    /// Takes back what was bound last: what it hid is seen again.
    pub fn unbind(&mut self)
        requires { 0 < length self.old }
        ensures { self.new ≡ drop 1 self.old }
    {
        self.bindings.pop();
    }

    /// What was bound to the variable last.
    pub fn get(&self, var: Var) -> Option<View<'_>>
        ensures some { IfSome result (λ view. found self.now var ≡ Some (forest_of view)) }
        ensures none { IfNone result (found self.now var ≡ None) }
    {
        match last(self.bindings.as_slice(), var) {
            Some(binding) => Some(binding.value.view()),
            None => None,
        }
    }
}

// The last binding of the variable.
fn last(bindings: &[Binding], var: Var) -> Option<&Binding>
    requires { AreWhole bindings.now }
    ensures whole { IfSome result (λ binding. depth binding.now.value ≡ 0) }
    ensures some { IfSome result (λ binding.
        found (environment_of bindings.now) var ≡ Some (outer binding.now.value)) }
    ensures none { IfNone result (found (environment_of bindings.now) var ≡ None) }
{
    for binding in bindings.iter().rev() {
        if binding.binds(&var) {
            return Some(binding);
        }
    }
    None
}
