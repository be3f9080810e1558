// Calls of procedures.
ghost use Rattle.std.specs.Prelude.{◌≡◌, map, length, None, IfErr, OnOk, IsSomeAnd};
ghost use Rattle.flux_schema.specs.Labels.{Lacks};
ghost use Rattle.flux_types.specs.Read.{ty_of};
ghost use Rattle.flux_types.specs.Verdicts.{IsEvidence};
ghost use Rattle.flux_calculus.specs.Core.{proc_of, call};
ghost use Rattle.flux_typing.specs.Update.{Arguments};
ghost use Rattle.flux_typing.specs.Labels.{EachLabelOfQueries};
ghost use Rattle.flux_query.specs.Read.{query_of};
ghost use Rattle.flux_core.specs.Faults.{IsFault, IsUsable};
ghost use Rattle.flux_core.specs.Answers.{IsAnswer};
ghost use Rattle.flux_core.specs.Statements.{param_of, procs_of};
ghost use Rattle.flux_querytype.specs.Answers.{Leaves, QueryLacks, IsReady};
ghost use Rattle.flux_check.specs.Answers.{Comes, ArgumentsCome, ArePassable, IsPassed, InAnyCall, IsStage};
ghost use Rattle.flux_check.specs.Ones.{measured_type};

use crate::leaf::{compare, place};
use flux_calculus::Span;
use flux_core::{Gamma, KindFault, Measured, Param, Procs, copied};
use flux_query::Query;
use flux_querytype::type_query;
use flux_types::{Decider, Verdict};
use std::alloc::Global;

// A call: the index of the procedure, the arguments, and where it stands.
#[derive(Drop)]
pub(crate) struct Called<'c> {
    pub(crate) proc: u32,
    pub(crate) args: &'c [Query],
    pub(crate) span: Span,
}

// An argument, against the type of its parameter.
fn type_argument<D: Decider>(
    alloc: Global,
    param: &Param,
    arg: &Query,
    gamma: &mut Gamma,
    decider: &mut D,
) -> Result<(), KindFault>
    requires ready { IsReady (D.definitions decider.old) (D.unnamed decider.old) gamma.old }
    requires usable { IsUsable (D.definitions decider.old) (ty_of param.now.ty) }
    requires lacks { Lacks (D.unnamed decider.old) (ty_of param.now.ty) }
    requires arg_lacks { QueryLacks (D.unnamed decider.old) (query_of arg.now) }
    ensures answer { OnOk result
        (IsPassed (D.definitions decider.old) gamma.old (param_of param.now) (query_of arg.now)) }
    ensures fault { let defs = D.definitions decider.old in
        IfErr result (IsFault (IsEvidence defs (D.unnamed decider.old))
        (InAnyCall defs gamma.old (param_of param.now) (query_of arg.now))) }
    ensures left { Leaves D.definitions D.unnamed D.keeps D.known decider.old decider.new
        gamma.old gamma.new }
{
    let found = type_query(alloc, gamma, arg, decider)?;
    match compare(alloc, &found, &param.ty, decider)? {
        Verdict::Yes => Ok(()),
        Verdict::No(shown) => Err(KindFault::BadArgument {
            place: place(arg),
            shown,
        }),
    }
}

// The arguments of a call, each in turn.
fn type_arguments<D: Decider>(
    alloc: Global,
    params: &[Param],
    args: &[Query],
    gamma: &mut Gamma,
    decider: &mut D,
) -> Result<(), KindFault>
    requires ready { IsReady (D.definitions decider.old) (D.unnamed decider.old) gamma.old }
    requires passable { ArePassable (D.definitions decider.old) (D.unnamed decider.old)
        params.now args.now }
    ensures answer { OnOk result (Arguments (D.definitions decider.old) gamma.old
        (map param_of params.now) (map query_of args.now) None) }
    ensures fault { let defs = D.definitions decider.old in
        IfErr result (IsFault (IsEvidence defs (D.unnamed decider.old))
        (ArgumentsCome defs gamma.old (map param_of params.now) (map query_of args.now))) }
    ensures left { Leaves D.definitions D.unnamed D.keeps D.known decider.old decider.new
        gamma.old gamma.new }
{
    for (param, arg) in params.iter().zip(args) {
        type_argument(alloc, param, arg, gamma, decider)?;
    }
    Ok(())
}

// A call: the arguments, then the focus, against what the procedure declares.
pub(crate) fn type_call<D: Decider>(
    alloc: Global,
    procs: &Procs,
    focus: &Measured,
    called: &Called<'_>,
    gamma: &mut Gamma,
    decider: &mut D,
) -> Result<Measured, KindFault>
    requires stage { IsStage (D.definitions decider.old) (D.unnamed decider.old) gamma.old
        (procs_of procs.now) (measured_type focus.now) }
    requires args_lack { EachLabelOfQueries (λ m. ¬ (m ≡ D.unnamed decider.old))
        (map query_of called.now.args.now) }
    requires fits { IsSomeAnd (proc_of (procs_of procs.now) called.now.proc)
        (λ q. length (map query_of called.now.args.now) ≡ length q.params) }
    ensures answer { let defs = D.definitions decider.old in
        IsAnswer (IsEvidence defs (D.unnamed decider.old))
        (Comes (procs_of procs.now) defs gamma.old (measured_type focus.now)
        (call called.now.span called.now.proc (map query_of called.now.args.now))) result }
    ensures left { Leaves D.definitions D.unnamed D.keeps D.known decider.old decider.new
        gamma.old gamma.new }
{
    let proc = procs.get(called.proc);
    type_arguments(alloc, proc.params.as_slice(), called.args, gamma, decider)?;
    match compare(alloc, focus.ty.as_ref(), &proc.focus, decider)? {
        Verdict::Yes => Ok(copied(alloc, &proc.result)?),
        Verdict::No(shown) => Err(KindFault::BadFocus {
            place: called.span.from,
            shown,
        }),
    }
}
