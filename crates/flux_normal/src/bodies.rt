// The bodies of a script, and the whole of its normal form.
ghost use Rattle.std.specs.Prelude.{◌≡◌, ◌∷◌, [], Some, ℕ, List, map, flat_map, All, IfOk};
ghost use Rattle.std.specs.List.{AllZip};
ghost use Rattle.flux_types.specs.Read.{ty_of};
ghost use Rattle.flux_core.specs.Normals.{normal_of};
ghost use Rattle.flux_core.specs.Statements.{core_of, procedure_of, procs_of};
ghost use Rattle.flux_grammar.specs.declared.tree.ProcDef.{ProcDef};
ghost use Rattle.flux_grammar.specs.NormalFaults.{calls, all_calls};
ghost use Rattle.flux_grammar.specs.NormalForm.{type_names, IsDefinitionOf, IsNormalForm};
ghost use Rattle.flux_grammar.specs.NormalQueries.{of_all};
ghost use Rattle.flux_grammar.specs.NormalStatements.{stmts_form};
ghost use Rattle.flux_grammar.specs.TypeOf.{type_in};
ghost use Rattle.flux_normal.specs.Bodies.{IsWritten};
ghost use Rattle.flux_normal.specs.Headers.{IsHeaderOf, IsDeclaredMade};
ghost use Rattle.flux_normal.specs.Heads.{names_in, Fits, AllFit};
ghost use Rattle.flux_normal.specs.Procedures.{head_written};
ghost use Rattle.flux_normal.specs.Types.{IsMade};

use crate::headers::{Header, Headers};
use crate::procedures::Procedures;
use crate::queries::Normalizer;
use flux_core::{Core, Normal, Proc, Procs};
use flux_grammar::Script;
use flux_types::Defs;
use std::alloc::{AllocError, Global};

pub(crate) fn written(
    alloc: Global,
    script: &Script,
    headers: Headers,
    defs: Defs,
    procedures: &Procedures,
) -> Result<Normal, AllocError>
    requires defs { AllZip (IsDefinitionOf (type_names script.now)) script.now.types defs }
    requires procs { AllZip (IsHeaderOf (type_names script.now)) script.now.procs headers.procs.items }
    requires input { IsMade (type_names script.now)
        (type_in (type_names script.now) script.now.input) (ty_of headers.input) }
    requires declared { IsDeclaredMade (type_names script.now) script.now.output headers.declared }
    requires procedures { procedures.now ≡ map head_written script.now.procs }
    requires fit { All (Fits procedures.now) (all_calls script.now) }
    ensures { IfOk result (λ normal. IsNormalForm script.now (normal_of normal)) }
{
    let Headers {
        procs,
        input,
        declared,
    } = headers;
    let _kept = defs.as_kept();
    let mut normalizer = Normalizer { alloc, made: 0 };
    let procs = written_procs(&mut normalizer, script, procs, procedures)?;
    let main = normalizer.body(script.body.as_slice(), procedures)?;
    Ok(Normal::new(defs, procs, input, declared, main))
}

fn written_procs(
    normalizer: &mut Normalizer,
    script: &Script,
    headers: Vec<Header>,
    procedures: &Procedures,
) -> Result<Procs, AllocError>
    requires headers { AllZip (IsHeaderOf (type_names script.now)) script.now.procs headers.items }
    requires fit { All (Fits procedures.now)
        (flat_map calls (flat_map (λ p. p.body) script.now.procs)) }
    ensures written { IfOk result (λ written.
        AllZip (IsWritten (type_names script.now) procedures.now) script.now.procs
        (procs_of written)) }
    ensures bodies { IfOk result (λ written.
        of_all (map (λ p. stmts_form (names_in procedures.now) p.body) script.now.procs)
        normalizer.old.made ≡ (map (λ p. p.body) (procs_of written), normalizer.new.made)) }
{
    let procs = script.procs.as_slice();
    if procs.len() > u32::MAX as usize {
        return Err(AllocError);
    }
    let mut written = Procs::new(normalizer.alloc);
    let mut index = 0;
    for header in headers {
        let body = normalizer.body(procs[index].body.as_slice(), procedures)?;
        written.push(with_body(header, body))?;
        index += 1;
    }
    Ok(written)
}

fn with_body(header: Header, body: Core) -> Proc
    ensures written { (names : List ℕ) (p : ProcDef) (procs : List (ℕ × ℕ)) → IsHeaderOf names p header →
        AllFit procs (core_of body) → IsWritten names procs p (procedure_of result) }
    ensures body { (procedure_of result).body ≡ core_of body }
{
    let Header {
        name,
        params,
        focus,
        result,
        result_at,
    } = header;
    Proc {
        name,
        params,
        focus,
        result,
        result_at,
        body,
    }
}
