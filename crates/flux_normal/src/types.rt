// The types that a script defines.
ghost use Rattle.std.specs.Prelude.{◌≡◌, ◌-◌, ◌^◌, ◌<◌, ◌++◌, ◌∷◌, [], List, ℕ, None, map, length, false, IfOk, IfErr, OnOk};
ghost use Rattle.std.specs.List.{AllZip};
ghost use Rattle.flux_schema.specs.Definitions.{declared_names, ReachesItself};
ghost use Rattle.flux_grammar.specs.NormalForm.{type_names, IsDefinitionOf};
ghost use Rattle.flux_grammar.specs.NormalFaults.{repeated, unknown_types, big_types, declarations, is_among};
ghost use Rattle.flux_grammar.specs.TypeOf.{type_in};
ghost use Rattle.flux_types.specs.Read.{ty_of};
ghost use Rattle.flux_normal.specs.Types.{mention_of, without_body, with_type, IsAgain, IsRepeated, IsCyclic, IsFine, AreFine, IsMade, IsPlaceOf};

use crate::NormFault;
use crate::written::made;
use flux_atom::Name;
use flux_grammar::{Script, TypeDef, TypeText};
use flux_types::{DefFault, Defs, Draft, Ty};
use std::alloc::{AllocError, Global};

/// The names of the types that are defined, in their order, where they differ. Memory is wanting
/// also where there are more than 32 bits can number.
pub(crate) fn declare(alloc: Global, types: &[TypeDef]) -> Result<Draft, NormFault>
    ensures draft { IfOk result (λ draft. draft ≡ map without_body types.now) }
    ensures names { IfOk result (λ draft. declared_names draft ≡ map (λ d. d.name) types.now) }
    ensures differ { OnOk result (repeated [] (map mention_of types.now) ≡ []) }
    ensures fault { IfErr result (IsRepeated types.now) }
{
    if types.len() > u32::MAX as usize {
        return Err(NormFault::Memory(AllocError));
    }
    let mut draft = Draft::new(alloc);
    for definition in types {
        declare_one(&mut draft, definition.name, definition.at.from)?;
    }
    Ok(draft)
}

fn declare_one(draft: &mut Draft, name: Name, place: u32) -> Result<(), NormFault>
    requires { length draft.old < 2 ^ 32 - 1 }
    ensures ok { OnOk result
        (draft.new ≡ draft.old ++ record { name = name; body = None } ∷ []) }
    ensures fresh { OnOk result (is_among name (declared_names draft.old) ≡ false) }
    ensures fault { IfErr result (IsAgain (declared_names draft.old) name place) }
{
    match draft.declare(name) {
        Ok(_) => Ok(()),
        Err(DefFault::Duplicate { index: _ }) => Err(NormFault::Duplicate { place }),
        Err(DefFault::Memory(error)) => Err(NormFault::Memory(error)),
        Err(DefFault::Unknown { index: _ } | DefFault::Unguarded { index: _ }) => {
            Err(NormFault::Memory(AllocError))
        }
    }
}

/// What the types of a script stand for, where none reaches itself without passing an element.
/// Memory is wanting also where there are more than 32 bits can number.
pub(crate) fn defined(alloc: Global, script: &Script, known: Draft) -> Result<Defs, NormFault>
    requires names { declared_names known ≡ type_names script.now }
    requires no_unknown { unknown_types script.now ≡ [] }
    requires no_big { big_types script.now ≡ [] }
    ensures ok { IfOk result (AllZip (IsDefinitionOf (type_names script.now)) script.now.types) }
    ensures guarded { OnOk result ((x : ℕ) → ¬ (ReachesItself (declarations script.now) x)) }
    ensures fault { IfErr result (IsCyclic script.now) }
{
    let mut known = known;
    define_all(alloc, script.types.as_slice(), &mut known)?;
    match known.close() {
        Ok(defs) => Ok(defs),
        Err(DefFault::Unguarded { index }) => Err(unguarded(script.types.as_slice(), index)),
        Err(DefFault::Memory(error)) => Err(NormFault::Memory(error)),
        Err(DefFault::Duplicate { index: _ } | DefFault::Unknown { index: _ }) => {
            Err(NormFault::Memory(AllocError))
        }
    }
}

fn unguarded(types: &[TypeDef], index: u32) -> NormFault
    ensures { IsPlaceOf types.now index result }
{
    match types.get(index as usize) {
        Some(definition) => NormFault::Unguarded {
            place: definition.at.from,
        },
        None => NormFault::Memory(AllocError),
    }
}

fn define_all(alloc: Global, types: &[TypeDef], known: &mut Draft) -> Result<(), AllocError>
    requires names { declared_names known.old ≡ map (λ d. d.name) types.now }
    requires fine { AreFine (declared_names known.old) (map (λ d. d.body) types.now) }
    ensures { OnOk result
        (known.new ≡ map (with_type (declared_names known.old)) types.now) }
{
    if types.len() > u32::MAX as usize {
        return Err(AllocError);
    }
    for (index, definition) in types.iter().enumerate() {
        let body = made_within(alloc, &definition.body, known)?;
        known.define(index as u32, body)?;
    }
    Ok(())
}

/// The type that a written type stands for, which is within the limits.
pub(crate) fn made_within(alloc: Global, ty: &TypeText, known: &Draft) -> Result<Ty, AllocError>
    requires { IsFine (declared_names known.now) ty.now }
    ensures { IfOk result (λ made. IsMade (declared_names known.now)
        (type_in (declared_names known.now) ty.now) (ty_of made)) }
{
    made(alloc, ty, known)
}
