// Values that are read where they stand, which saves copies.
ghost use Rattle.std.specs.Prelude.{◌≡◌, Some, IsSome};
ghost use Rattle.flux_forest.specs.View.{forest_of};
ghost use Rattle.flux_calculus.specs.Query.{found, and_value, content_of_one};
ghost use Rattle.flux_query.specs.Values.{trees_of, IsWholeValue};

use crate::Env;
use crate::trees::content;
use flux_calculus::Var;
use flux_forest::{Forest, View};

// A value that is read and not kept: what is bound to a variable, what the one tree that is bound
// to it contains, or a forest apart.
#[derive(Drop)]
pub(crate) enum Value {
    Bound(Var),
    Inside(Var),
    Own(Forest),
}

impl Value {
    pub(crate) fn view<'v>(&'v self, env: &'v Env) -> View<'v>
        requires value { IsSome (trees_of env.now self.now) }
        requires whole { IsWholeValue self.now }
        ensures { trees_of env.now self.now ≡ Some (forest_of result) }
    {
        match self {
            Value::Bound(x) => bound(env, *x),
            Value::Inside(x) => inside(env, *x),
            Value::Own(forest) => forest.view(),
        }
    }
}

// What is bound to the variable.
pub(crate) fn bound(env: &Env, x: Var) -> View<'_>
    requires { IsSome (found env.now x) }
    ensures { found env.now x ≡ Some (forest_of result) }
{
    match env.get(x) {
        Some(view) => view,
        None => unreachable!(),
    }
}

// What the one tree contains that is bound to the variable.
pub(crate) fn inside(env: &Env, x: Var) -> View<'_>
    requires { IsSome (and_value (found env.now x) content_of_one) }
    ensures { and_value (found env.now x) content_of_one ≡ Some (forest_of result) }
{
    content(bound(env, x))
}
