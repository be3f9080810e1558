// The type of a statement.
ghost use Rattle.std.specs.Prelude.{IfOk, IfErr};
ghost use Rattle.flux_schema.specs.Labels.{Lacks};
ghost use Rattle.flux_types.specs.Read.{ty_of};
ghost use Rattle.flux_calculus.specs.Typing.{typed};
ghost use Rattle.flux_typing.specs.Labels.{CoreLacks, ProcsLack};
ghost use Rattle.flux_core.specs.Faults.{IsUsable, AreUsable};
ghost use Rattle.flux_core.specs.Statements.{core_of, procs_of};
ghost use Rattle.flux_core.specs.WellFormed.{CallsFit};
ghost use Rattle.flux_querytype.specs.Answers.{Leaves, ContextLacks};
ghost use Rattle.flux_check.specs.Answers.{Comes, IsUpdateFault, AreUsableProcs};

use crate::statement::type_core;
use flux_core::{Core, Gamma, KindFault, Procs, copied, own};
use flux_types::{Decider, Ty};
use std::alloc::Global;

/// The type of what a statement makes of the forests of a type, its focus, or the first fault, with
/// the place of its text. The focus, the types of the variables and those that the procedures
/// declare are known under the decider's definitions, and within the limits of 65,536 nodes and 500
/// levels; so is the type that is answered. The decider's `other` stands in none of these types,
/// and not in the statement. Each call in the statement names a procedure, and has an argument for
/// each of its parameters; the bodies of the procedures aren't looked at. A forest that is shown is
/// a member of the type that was found and not of the one that was wanted.
///
/// It recurses by the nesting of the statement and of its queries alone: types are walked with a
/// stack of their own, and names are followed in a loop; only the count, the copy and the drop of a
/// type recurse by its height, at most 500. The focus is copied once; from then on types are handed
/// on, and shared where they are used twice. The time grows in step with the statement and the
/// types that it makes, a statement under an `iter` typed once for each atom type and element type
/// of its focus, and with what the decider takes.
pub fn type_update<D: Decider>(
    alloc: Global,
    procs: &Procs,
    gamma: &mut Gamma,
    focus: &Ty,
    core: &Core,
    decider: &mut D,
) -> Result<Ty, KindFault>
    requires gamma_usable { AreUsable (D.definitions decider.old) gamma.old }
    requires gamma_lacks { ContextLacks (D.unnamed decider.old) gamma.old }
    requires procs_usable { AreUsableProcs (D.definitions decider.old) (procs_of procs.now) }
    requires procs_lack { ProcsLack (D.unnamed decider.old) (procs_of procs.now) }
    requires focus_usable { IsUsable (D.definitions decider.old) (ty_of focus.now) }
    requires focus_lacks { Lacks (D.unnamed decider.old) (ty_of focus.now) }
    requires core_lacks { CoreLacks (D.unnamed decider.old) (core_of core.now) }
    requires calls { CallsFit (procs_of procs.now) (core_of core.now) }
    ensures typed { IfOk result (λ ty. Comes (procs_of procs.now) (D.definitions decider.old)
        gamma.old (ty_of focus.now) (core_of core.now) (typed (ty_of ty))) }
    ensures usable { IfOk result (λ ty. IsUsable (D.definitions decider.old) (ty_of ty)) }
    ensures lacks { IfOk result (λ ty. Lacks (D.unnamed decider.old) (ty_of ty)) }
    ensures fault { IfErr result (IsUpdateFault (D.definitions decider.old)
        (D.unnamed decider.old) (procs_of procs.now) gamma.old (ty_of focus.now)
        (core_of core.now)) }
    ensures left { Leaves D.definitions D.unnamed D.keeps D.known decider.old decider.new
        gamma.old gamma.new }
{
    // the calls are made for what they promise: the definitions are good and don't name the label
    let _defs = decider.defs();
    let _other = decider.other();
    let at = copied(alloc, focus)?;
    let made = type_core(alloc, procs, at, core, gamma, decider)?;
    let ty = own(alloc, made)?;
    Ok(ty)
}
