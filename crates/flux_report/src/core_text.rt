// The text of a script in the core language.
ghost use Rattle.std.specs.Prelude.{◌≡◌, ◌<◌, ◌++◌, ℕ, All, Some, length, map, flat_map, OnOk, OnErr};
ghost use Rattle.flux_calculus.specs.Core.{Proc as Procedure, proc_of};
ghost use Rattle.flux_core.specs.Normals.{normal_of};
ghost use Rattle.flux_core.specs.Statements.{param_of, procedure_of, procs_of};
ghost use Rattle.flux_core.specs.WellFormed.{IsWellFormedProc};
ghost use Rattle.flux_grammar.specs.NormalNames.{ParamNames, ProcNames, NormalNames};
ghost use Rattle.flux_report.specs.CoreText.{with_commas, type_text, param_text, procedure_text, core_text};
ghost use Rattle.flux_schema.specs.Definitions.{IsKnown};
ghost use Rattle.flux_schema.specs.Labels.{EachLabelOf};
ghost use Rattle.flux_types.specs.Read.{ty_of};

use crate::queries::{push_name, push_var};
use crate::statements::push_statement;
use flux_atom::Names;
use flux_core::{Normal, Param, Proc, Procs};
use flux_types::{Defs, Ty, write_type};
use std::alloc::{AllocError, Global};

/// Appends the text of a script in the core language, for a person: a line for each procedure, and
/// one for the main statement. Where memory is wanting, `out` is as it was.
pub fn write_core(
    alloc: Global,
    normal: &Normal,
    names: &Names,
    out: &mut Vec<u8>,
) -> Result<(), AllocError>
    requires { NormalNames (λ a. a < length names.now) (normal_of normal.now) }
    ensures ok { OnOk result
        (out.new.items ≡ out.old.items ++ core_text names.now (normal_of normal.now)) }
    ensures err { OnErr result (out.new.items ≡ out.old.items) }
{
    let normal = normal.as_kept();
    let mut text = Vec::new(alloc);
    push_procedures(alloc, normal.defs(), normal.procs(), names, &mut text)?;
    push_statement(alloc, normal.main(), normal.procs(), names, &mut text)?;
    text.push(b'\n')?;
    out.extend_from_slice(&text)
}

// The functions below say nothing of what they leave behind them where they fail.
fn push_procedures(
    alloc: Global,
    defs: &Defs,
    procs: &Procs,
    names: &Names,
    out: &mut Vec<u8>,
) -> Result<(), AllocError>
    requires defs { All (λ d. d.name < length names.now) defs.now }
    requires procs { All (ProcNames (λ a. a < length names.now)) (procs_of procs.now) }
    requires kept { (p : ℕ) (q : Procedure) → proc_of (procs_of procs.now) p ≡ Some q →
        IsWellFormedProc defs.now (procs_of procs.now) q }
    ensures { OnOk result (out.new.items ≡ out.old.items
        ++ flat_map (procedure_text names.now defs.now (procs_of procs.now)) (procs_of procs.now)) }
{
    for index in 0..procs.len() {
        push_procedure(alloc, procs.get(index), defs, procs, names, out)?;
    }
    Ok(())
}

fn push_procedure(
    alloc: Global,
    proc: &Proc,
    defs: &Defs,
    procs: &Procs,
    names: &Names,
    out: &mut Vec<u8>,
) -> Result<(), AllocError>
    requires defs { All (λ d. d.name < length names.now) defs.now }
    requires procs { All (ProcNames (λ a. a < length names.now)) (procs_of procs.now) }
    requires names { ProcNames (λ a. a < length names.now) (procedure_of proc.now) }
    requires kept { IsWellFormedProc defs.now (procs_of procs.now) (procedure_of proc.now) }
    ensures { OnOk result (out.new.items ≡ out.old.items
        ++ procedure_text names.now defs.now (procs_of procs.now) (procedure_of proc.now)) }
{
    out.extend_from_slice(b"procedure ")?;
    push_name(proc.name, names, out)?;
    out.push(b'(')?;
    push_params(alloc, proc, defs, names, out)?;
    out.extend_from_slice(b"):")?;
    push_type(alloc, &proc.focus, defs, names, out)?;
    out.extend_from_slice(b"=>")?;
    push_type(alloc, &proc.result, defs, names, out)?;
    out.push(b'{')?;
    push_statement(alloc, &proc.body, procs, names, out)?;
    out.extend_from_slice(b"}\n")
}

// The parameters with commas between them.
fn push_params(
    alloc: Global,
    proc: &Proc,
    defs: &Defs,
    names: &Names,
    out: &mut Vec<u8>,
) -> Result<(), AllocError>
    requires defs { All (λ d. d.name < length names.now) defs.now }
    requires names { All (ParamNames (λ a. a < length names.now)) (procedure_of proc.now).params }
    requires known { All (λ x. IsKnown defs.now x.1) (procedure_of proc.now).params }
    ensures { OnOk result (out.new.items ≡ out.old.items
        ++ with_commas (map (param_text names.now defs.now) (procedure_of proc.now).params)) }
{
    let Some((first, others)) = proc.params.as_slice().split_first() else {
        return Ok(());
    };
    push_param(alloc, first, defs, names, out)?;
    for param in others {
        out.push(b',')?;
        push_param(alloc, param, defs, names, out)?;
    }
    Ok(())
}

fn push_param(
    alloc: Global,
    param: &Param,
    defs: &Defs,
    names: &Names,
    out: &mut Vec<u8>,
) -> Result<(), AllocError>
    requires defs { All (λ d. d.name < length names.now) defs.now }
    requires names { ParamNames (λ a. a < length names.now) (param_of param.now) }
    requires known { IsKnown defs.now (ty_of param.now.ty) }
    ensures { OnOk result
        (out.new.items ≡ out.old.items ++ param_text names.now defs.now (param_of param.now)) }
{
    push_var(alloc, &param.var, names, out)?;
    out.push(b':')?;
    push_type(alloc, &param.ty, defs, names, out)
}

fn push_type(
    alloc: Global,
    ty: &Ty,
    defs: &Defs,
    names: &Names,
    out: &mut Vec<u8>,
) -> Result<(), AllocError>
    requires defs { All (λ d. d.name < length names.now) defs.now }
    requires labels { EachLabelOf (λ a. a < length names.now) (ty_of ty.now) }
    requires known { IsKnown defs.now (ty_of ty.now) }
    ensures { OnOk result
        (out.new.items ≡ out.old.items ++ type_text names.now defs.now (ty_of ty.now)) }
{
    write_type(alloc, defs, ty, names, out)
}
