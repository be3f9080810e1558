// The normal form of a script, and the order of its faults.
ghost use Rattle.std.specs.Prelude.{◌≡◌, map, flat_map, All, IfOk, IfErr, OnOk};
ghost use Rattle.flux_schema.specs.Definitions.{declared_names};
ghost use Rattle.flux_grammar.specs.NormalForm.{type_names, IsNormalForm};
ghost use Rattle.flux_core.specs.Normals.{normal_of};
ghost use Rattle.flux_grammar.specs.NormalFaults.{NamesDiffer, TypesAreKnown, TypesAreWithin, TypesAreGuarded, CallsFit, HasNoFault, all_calls};
ghost use Rattle.flux_normal.specs.Faults.{IsNormFault};
ghost use Rattle.flux_normal.specs.Heads.{Fits};
ghost use Rattle.flux_normal.specs.Procedures.{head_written};

use crate::NormFault;
use crate::bodies::written;
use crate::calls::{Misfit, check_calls};
use crate::headers::read_headers;
use crate::levels::check_nesting;
use crate::procedures::Procedures;
use crate::types::{declare, defined};
use crate::walk::{first_big, first_unknown};
use flux_core::Normal;
use flux_grammar::Script;
use flux_types::Draft;
use std::alloc::Global;

/// The normal form of a script: what it says in the core language. It goes as deep as statements
/// and queries lie inside one another in the script. Memory is also wanting where names, variables
/// or parameters are more than 32 bits can number.
pub fn normal(alloc: Global, script: &Script) -> Result<Normal, NormFault>
    ensures form { IfOk result (λ normal. IsNormalForm script.now (normal_of normal)) }
    ensures none { OnOk result (HasNoFault script.now) }
    ensures fault { IfErr result (IsNormFault script.now) }
{
    let names = match declared(alloc, script) {
        Ok(names) => names,
        Err(fault) => return Err(fault),
    };
    if let Err(fault) = check_types(script, &names.types) {
        return Err(fault);
    }
    let Names { types, procedures } = names;
    let headers = read_headers(alloc, script, &types)?;
    let defs = match defined(alloc, script, types) {
        Ok(defs) => defs,
        Err(fault) => return Err(fault),
    };
    if let Err(fault) = check_bodies(script, &procedures) {
        return Err(fault);
    }
    let normal = written(alloc, script, headers, defs, &procedures)?;
    Ok(normal)
}

// The names of types that are declared, and the procedures.
#[derive(Drop)]
struct Names {
    types: Draft,
    procedures: Procedures,
}

// The names of a script, where no two that must differ are the same.
fn declared(alloc: Global, script: &Script) -> Result<Names, NormFault>
    ensures types { IfOk result (λ tables.
        declared_names tables.types ≡ type_names script.now) }
    ensures procedures { IfOk result (λ tables.
        tables.procedures ≡ map head_written script.now.procs) }
    ensures differ { OnOk result (NamesDiffer script.now) }
    ensures fault { IfErr result (IsNormFault script.now) }
{
    let types = match declare(alloc, script.types.as_slice()) {
        Ok(types) => types,
        Err(fault) => return Err(fault),
    };
    match Procedures::of(alloc, script.procs.as_slice()) {
        Ok(procedures) => Ok(Names { types, procedures }),
        Err(fault) => Err(fault),
    }
}

// Whether each name of a type is declared, and each written type within the limits.
fn check_types(script: &Script, types: &Draft) -> Result<(), NormFault>
    requires declared { declared_names types.now ≡ type_names script.now }
    requires differ { NamesDiffer script.now }
    ensures ok { OnOk result (TypesAreWithin script.now) }
    ensures fault { IfErr result (IsNormFault script.now) }
{
    if let Some(place) = first_unknown(script, types) {
        return Err(NormFault::UnknownType { place });
    }
    match first_big(script) {
        Some(place) => Err(NormFault::BigType { place }),
        None => Ok(()),
    }
}

// Whether each call fits, and no node of the normal form lies too deep.
fn check_bodies(script: &Script, procedures: &Procedures) -> Result<(), NormFault>
    requires procedures { procedures.now ≡ map head_written script.now.procs }
    requires guarded { TypesAreGuarded script.now }
    ensures ok { OnOk result (HasNoFault script.now) }
    ensures fits { OnOk result (All (Fits procedures.now) (all_calls script.now)) }
    ensures fault { IfErr result (IsNormFault script.now) }
{
    match check_calls(script, procedures) {
        Ok(()) => match check_nesting(script) {
            Ok(()) => Ok(()),
            Err(place) => Err(NormFault::TooNested { place }),
        },
        Err(Misfit::NoProcedure(place)) => Err(NormFault::UnknownProc { place }),
        Err(Misfit::OtherNumber(place)) => Err(NormFault::Arity { place }),
    }
}
