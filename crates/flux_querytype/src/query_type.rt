// The type of a query.
ghost use Rattle.std.specs.Prelude.{IfOk, IfErr};
ghost use Rattle.flux_schema.specs.Labels.{Lacks};
ghost use Rattle.flux_types.specs.Read.{ty_of};
ghost use Rattle.flux_calculus.specs.Typing.{Types, of_query, typed};
ghost use Rattle.flux_query.specs.Read.{query_of};
ghost use Rattle.flux_core.specs.Faults.{IsUsable, AreUsable};
ghost use Rattle.flux_querytype.specs.Answers.{Leaves, IsQueryFault, QueryLacks, ContextLacks};

use crate::query::type_of;
use flux_core::{Gamma, KindFault, own};
use flux_query::Query;
use flux_types::{Decider, Ty};
use std::alloc::Global;

/// The type of a query, or the first fault, with the place of its text. The types of the variables
/// are known under the decider's definitions, and within the limits of 65,536 nodes and 500 levels;
/// so is the type that is answered. The decider's `other` stands in none of these types, and not in
/// the query. A condition must be of a type that is included in `bool`, and each side of a
/// comparison of one in `int`; else the forest that is shown is a member of that type and not of
/// `bool`, or `int`.
///
/// It recurses by the nesting of the query alone: types are walked with a stack of their own, and
/// names are followed in a loop; only the count, the copy and the drop of a type recurse by its
/// height, at most 500. The type of a variable is shared: it is copied only where it becomes part
/// of another type or is answered, and once for each loop or filter over it. What an element
/// contains is copied wherever it is asked for. The time grows in step with the query and the types
/// that it makes, each name unfolded wherever a step meets it, and with what the decider takes,
/// which is asked once for each condition and each side of a comparison.
pub fn type_query<D: Decider>(
    alloc: Global,
    gamma: &mut Gamma,
    query: &Query,
    decider: &mut D,
) -> Result<Ty, KindFault>
    requires usable { AreUsable (D.definitions decider.old) gamma.old }
    requires gamma_lacks { ContextLacks (D.unnamed decider.old) gamma.old }
    requires query_lacks { QueryLacks (D.unnamed decider.old) (query_of query.now) }
    ensures typed { IfOk result (λ ty. Types (D.definitions decider.old)
        (of_query gamma.old (query_of query.now)) (typed (ty_of ty))) }
    ensures usable { IfOk result (λ ty. IsUsable (D.definitions decider.old) (ty_of ty)) }
    ensures lacks { IfOk result (λ ty. Lacks (D.unnamed decider.old) (ty_of ty)) }
    ensures fault { IfErr result (IsQueryFault (D.definitions decider.old)
        (D.unnamed decider.old) gamma.old (query_of query.now)) }
    ensures left { Leaves D.definitions D.unnamed D.keeps D.known decider.old decider.new
        gamma.old gamma.new }
{
    // the calls are made for what they promise: the definitions are good and don't name the label
    let _defs = decider.defs();
    let _other = decider.other();
    let made = type_of(alloc, query, gamma, decider)?;
    let ty = own(alloc, made)?;
    Ok(ty)
}
