// The arguments of a call, and the conditions of choices.
ghost use Rattle.std.specs.Prelude.{◌≡◌, Some, map, IfOk, IsSome};
ghost use Rattle.flux_calculus.specs.Derives.{bound_to, condition};
ghost use Rattle.flux_calculus.specs.Query.{truth_of};
ghost use Rattle.flux_trees.specs.Draft.{depth, outer};
ghost use Rattle.flux_query.specs.Read.{query_of};
ghost use Rattle.flux_core.specs.Statements.{param_of};

use flux_atom::Atom;
use flux_core::Param;
use flux_forest::{Forest, Head};
use flux_query::{Env, Query, eval};
use std::alloc::{AllocError, Global};

// The parameters alone, each bound to the value of its argument.
pub(crate) fn bound(
    alloc: Global,
    params: &[Param],
    args: &[Query],
    env: &mut Env,
) -> Result<Env, AllocError>
    requires { IsSome (bound_to env.old (map param_of params.now) (map query_of args.now)) }
    ensures ok { IfOk result (λ bound.
        bound_to env.old (map param_of params.now) (map query_of args.now) ≡ Some bound) }
    ensures same { env.new ≡ env.old }
{
    let mut bound = Env::new(alloc);
    let mut left = args.len();
    'arguments: while left > 0 {
        left -= 1;
        let value = eval(alloc, &args[left], env)?;
        bound.bind(params[left].var, value)?;
    }
    Ok(bound)
}

// Whether a condition is true.
pub(crate) fn is_true(alloc: Global, query: &Query, env: &mut Env) -> Result<bool, AllocError>
    requires { IsSome (condition env.old (query_of query.now)) }
    ensures ok { IfOk result (λ truth. condition env.old (query_of query.now) ≡ Some truth) }
    ensures same { env.new ≡ env.old }
{
    let value = eval(alloc, query, env)?;
    Ok(truth(&value))
}

// The truth value that a forest is.
fn truth(value: &Forest) -> bool
    requires whole { depth value.now ≡ 0 }
    requires truth { IsSome (truth_of (outer value.now)) }
    ensures { truth_of (outer value.now) ≡ Some result }
{
    match value.view().head() {
        Head::Atom(Atom::Bool(truth)) => *truth,
        _ => unreachable!(),
    }
}
