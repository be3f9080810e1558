// The types that a script writes beside its definitions: of parameters, focuses and results, of its
// documents and of its results. They are made while the names of types can still be looked up.
ghost use Rattle.std.specs.Prelude.{◌≡◌, map, flat_map, IfOk};
ghost use Rattle.std.specs.List.{AllZip};
ghost use Rattle.flux_schema.specs.Definitions.{declared_names};
ghost use Rattle.flux_types.specs.Read.{ty_of};
ghost use Rattle.flux_grammar.specs.NormalFaults.{written_types, written_in, output_types};
ghost use Rattle.flux_grammar.specs.TypeOf.{type_in};
ghost use Rattle.flux_normal.specs.Headers.{IsParamMade, IsHeaderOf, IsDeclaredMade};
ghost use Rattle.flux_normal.specs.Types.{AreFine, IsMade};

use crate::types::made_within;
use flux_atom::{Items, Name};
use flux_calculus::Var;
use flux_core::{Declared, Param};
use flux_grammar::{ParamDef, ProcDef, Script, TypeText};
use flux_types::{Draft, Ty};
use std::alloc::{AllocError, Global};

/// A procedure but for its body.
#[derive(Drop)]
pub(crate) struct Header {
    pub(crate) name: Name,
    pub(crate) params: Items<Param>,
    pub(crate) focus: Ty,
    pub(crate) result: Ty,
    pub(crate) result_at: u32,
}

/// The procedures of a script, the type of its documents, and the type that it declares for its
/// results.
#[derive(Drop)]
pub(crate) struct Headers {
    pub(crate) procs: Vec<Header>,
    pub(crate) input: Ty,
    pub(crate) declared: Option<Declared>,
}

pub(crate) fn read_headers(
    alloc: Global,
    script: &Script,
    known: &Draft,
) -> Result<Headers, AllocError>
    requires { AreFine (declared_names known.now) (written_types script.now) }
    ensures procs { IfOk result (λ headers.
        AllZip (IsHeaderOf (declared_names known.now)) script.now.procs headers.procs.items) }
    ensures input { IfOk result (λ headers. IsMade (declared_names known.now)
        (type_in (declared_names known.now) script.now.input) (ty_of headers.input)) }
    ensures declared { IfOk result (λ headers.
        IsDeclaredMade (declared_names known.now) script.now.output headers.declared) }
{
    let procs = read_procs(alloc, script.procs.as_slice(), known)?;
    let input = made_within(alloc, &script.input, known)?;
    let declared = read_output(alloc, &script.output, known)?;
    Ok(Headers {
        procs,
        input,
        declared,
    })
}

fn read_output(
    alloc: Global,
    output: &Option<TypeText>,
    known: &Draft,
) -> Result<Option<Declared>, AllocError>
    requires { AreFine (declared_names known.now) (output_types output.now) }
    ensures { IfOk result (IsDeclaredMade (declared_names known.now) output.now) }
{
    match output {
        None => Ok(None),
        Some(ty) => {
            let at = ty.span().from;
            let ty = made_within(alloc, ty, known)?;
            Ok(Some(Declared { ty, at }))
        }
    }
}

fn read_procs(alloc: Global, procs: &[ProcDef], known: &Draft) -> Result<Vec<Header>, AllocError>
    requires { AreFine (declared_names known.now) (flat_map written_in procs.now) }
    ensures { IfOk result (λ headers.
        AllZip (IsHeaderOf (declared_names known.now)) procs.now headers.items) }
{
    let mut headers = Vec::new(alloc);
    for proc in procs {
        headers.push(read_proc(alloc, proc, known)?)?;
    }
    Ok(headers)
}

fn read_proc(alloc: Global, proc: &ProcDef, known: &Draft) -> Result<Header, AllocError>
    requires { AreFine (declared_names known.now) (written_in proc.now) }
    ensures { IfOk result (IsHeaderOf (declared_names known.now) proc.now) }
{
    let params = read_params(alloc, proc.params.as_slice(), known)?;
    let focus = made_within(alloc, &proc.focus, known)?;
    let result = made_within(alloc, &proc.result, known)?;
    Ok(Header {
        name: proc.name,
        params,
        focus,
        result,
        result_at: proc.result.span().from,
    })
}

fn read_params(
    alloc: Global,
    params: &[ParamDef],
    known: &Draft,
) -> Result<Items<Param>, AllocError>
    requires { AreFine (declared_names known.now) (map (λ q. q.ty) params.now) }
    ensures { IfOk result (λ made.
        AllZip (IsParamMade (declared_names known.now)) params.now made) }
{
    let mut made = Items::new(alloc);
    for param in params {
        let ty = made_within(alloc, &param.ty, known)?;
        made.push(Param {
            var: Var::Named(param.var),
            ty,
        })?;
    }
    Ok(made)
}
