// The written types of a script, in the order of the text.
ghost use Rattle.std.specs.Prelude.{◌≡◌, ◌∷◌, [], Some, None, map, flat_map, if◌then◌else◌};
ghost use Rattle.flux_schema.specs.Definitions.{declared_names};
ghost use Rattle.flux_grammar.specs.NormalForm.{type_names};
ghost use Rattle.flux_grammar.specs.NormalFaults.{first, unknown_types, big_types, written_types, written_in, output_types};
ghost use Rattle.flux_normal.specs.Types.{Answers, AnswersAll};

use crate::written::{is_big, unknown_in};
use flux_grammar::{ParamDef, ProcDef, Script, TypeDef, TypeText};
use flux_types::Draft;

// What is asked of each written type.
#[derive(Clone, Copy)]
enum Question<'d> {
    // Where a name stands in it that isn't declared.
    Unknown(&'d Draft),
    // Where it stands, if it is over the limits.
    Big,
}

/// The place of the first name of a type without a definition.
pub(crate) fn first_unknown(script: &Script, known: &Draft) -> Option<u32>
    requires { declared_names known.now ≡ type_names script.now }
    ensures { result ≡ first (unknown_types script.now) }
{
    in_script(script, &Question::Unknown(known))
}

/// The place of the first written type that is over the limits.
pub(crate) fn first_big(script: &Script) -> Option<u32>
    requires { unknown_types script.now ≡ [] }
    ensures { result ≡ first (big_types script.now) }
{
    in_script(script, &Question::Big)
}

fn in_script(script: &Script, question: &Question) -> Option<u32>
    ensures { AnswersAll question.now (written_types script.now) result }
{
    if let Some(place) = in_definitions(script.types.as_slice(), question) {
        return Some(place);
    }
    if let Some(place) = in_procs(script.procs.as_slice(), question) {
        return Some(place);
    }
    if let Some(place) = in_type(&script.input, question) {
        return Some(place);
    }
    in_output(&script.output, question)
}

fn in_definitions(types: &[TypeDef], question: &Question) -> Option<u32>
    ensures { AnswersAll question.now (map (λ d. d.body) types.now) result }
{
    for definition in types {
        if let Some(place) = in_type(&definition.body, question) {
            return Some(place);
        }
    }
    None
}

fn in_procs(procs: &[ProcDef], question: &Question) -> Option<u32>
    ensures { AnswersAll question.now (flat_map written_in procs.now) result }
{
    for one in procs {
        if let Some(place) = in_proc(one, question) {
            return Some(place);
        }
    }
    None
}

fn in_proc(definition: &ProcDef, question: &Question) -> Option<u32>
    ensures { AnswersAll question.now (written_in definition.now) result }
{
    if let Some(place) = in_params(definition.params.as_slice(), question) {
        return Some(place);
    }
    if let Some(place) = in_type(&definition.focus, question) {
        return Some(place);
    }
    in_type(&definition.result, question)
}

fn in_params(params: &[ParamDef], question: &Question) -> Option<u32>
    ensures { AnswersAll question.now (map (λ p. p.ty) params.now) result }
{
    for param in params {
        if let Some(place) = in_type(&param.ty, question) {
            return Some(place);
        }
    }
    None
}

fn in_output(output: &Option<TypeText>, question: &Question) -> Option<u32>
    ensures { AnswersAll question.now (output_types output.now) result }
{
    match output {
        None => None,
        Some(ty) => in_type(ty, question),
    }
}

fn in_type(ty: &TypeText, question: &Question) -> Option<u32>
    ensures one { Answers question.now ty.now result }
    ensures alone { AnswersAll question.now (ty.now ∷ []) result }
{
    match question {
        Question::Unknown(known) => unknown_in(ty, known),
        Question::Big => place_if(is_big(ty), ty.span().from),
    }
}

fn place_if(is_fault: bool, place: u32) -> Option<u32>
    ensures { result ≡ if is_fault then Some place else None }
{
    if is_fault { Some(place) } else { None }
}
