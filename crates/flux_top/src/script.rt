// What a script is read as, and the path that it deletes.
ghost use Rattle.std.specs.Prelude.{◌≡◌, ◌≢◌, ◌⊎◌, true, ◌-◌, ◌^◌, ◌<◌, ◌≤◌, ◌∷◌, [], ℕ, List, All, length, map, Some, MatchOption, IfSome, IfNone, IfOk, IfErr};
ghost use Rattle.flux_atom.specs.Names.{IsTable, name_text};
ghost use Rattle.flux_calculus.specs.declared.ask.Span.{Span};
ghost use Rattle.flux_grammar.specs.declared.tree.Path.{Path};
ghost use Rattle.flux_grammar.specs.declared.tree.Stmt.TheVariants.{Delete};
ghost use Rattle.flux_core.specs.Normals.{normal_of};
ghost use Rattle.flux_report.specs.Lines.{script_text, IsShown, HasLine};
ghost use Rattle.flux_top.specs.Script.{script_limit, lone_label, IsScriptOf, HasNormFault, IsNormalScript, IsDeletion, DeletesNone, DeletesPath};
ghost use Rattle.flux_top.specs.Prepare.{Tells, IsScriptRefusal, IsDeletionRefusal};

use crate::refusal::Refusal;
use flux_atom::{Name, Names};
use flux_core::Normal;
use flux_lex::lex;
use flux_normal::{NormFault, normal};
use flux_report::{LexFault, ScriptFault, SynFault, script_line};
use flux_syntax::{Path, Script, Step, Stmt, TestText, parse};
use std::alloc::{AllocError, Global};

/// A script that is read, with its normal form.
#[derive(Drop)]
pub struct Reading {
    pub tree: Script,
    pub normal: Normal,
}

/// The tree and the normal form of a script, over the table, which learns the names of the script.
/// After a refusal the table may hold further names.
pub fn read_script(alloc: Global, script: &[u8], names: &mut Names) -> Result<Reading, Refusal>
    requires empty { names.old ≡ [] }
    requires within { length script.now ≤ script_limit }
    ensures table { IsTable names.new }
    ensures room { length names.new ≤ length script.now }
    ensures normal { IfOk result (λ reading.
        IsNormalScript script.now reading.tree names.new (normal_of reading.normal)) }
    ensures refused { IfErr result (IsScriptRefusal script.now) }
{
    let tree = read_tree(alloc, script, names)?;
    match normal(alloc, &tree) {
        Ok(normal) => Ok(Reading { tree, normal }),
        Err(fault) => Err(norm_refusal(alloc, script, fault, names)),
    }
}

// The refusal of a script that has this fault and no normal form.
fn norm_refusal(alloc: Global, script: &[u8], fault: NormFault, names: &Names) -> Refusal
    requires within { length script.now ≤ script_limit }
    requires faulty { HasNormFault script.now fault }
    ensures { IsScriptRefusal script.now result }
{
    if !has_line(&fault) {
        return Refusal::NoMemory;
    }
    faulty(alloc, script, &ScriptFault::Norm(fault), names)
}

// Whether it isn't want of memory.
fn has_line(fault: &NormFault) -> bool
    ensures { result ≡ true → HasLine fault.now }
{
    !matches!(fault, NormFault::Memory(_))
}

/// The labels of the path that the script deletes, as names of the table, which learns the names
/// of the script. After a refusal the table may hold further names.
pub fn read_deletion(alloc: Global, script: &[u8], names: &mut Names) -> Result<Vec<Name>, Refusal>
    requires empty { names.old ≡ [] }
    requires within { length script.now ≤ script_limit }
    ensures table { IsTable names.new }
    ensures room { length names.new ≤ length script.now }
    ensures path { IfOk result (λ path.
        DeletesPath script.now (map (name_text names.new) path.items)) }
    ensures some { IfOk result (λ path. 0 < length path.items) }
    ensures known { IfOk result (λ path. All (λ n. n < length names.new) path.items) }
    ensures refused { IfErr result (IsDeletionRefusal script.now) }
{
    match read_script(alloc, script, names) {
        Ok(reading) => deleted_path(alloc, &reading.tree),
        Err(refusal) => Err(refusal),
    }
}

// The tree that the script reads as.
fn read_tree(alloc: Global, script: &[u8], names: &mut Names) -> Result<Script, Refusal>
    requires empty { names.old ≡ [] }
    requires within { length script.now ≤ script_limit }
    ensures table { IsTable names.new }
    ensures room { length names.new ≤ length script.now }
    ensures reads { IfOk result (λ tree. IsScriptOf script.now tree names.new) }
    ensures refused { IfErr result (IsScriptRefusal script.now) }
{
    let tokens = match lex(alloc, script) {
        Ok(tokens) => tokens,
        Err(LexFault::Bad { place }) => {
            let fault = ScriptFault::Lex(LexFault::Bad { place });
            return Err(faulty(alloc, script, &fault, names));
        }
        Err(LexFault::Memory(_)) => return Err(Refusal::NoMemory),
    };
    match parse(alloc, script, &tokens, names) {
        Ok(tree) => Ok(tree),
        Err(SynFault::Syntax { place }) => {
            let fault = ScriptFault::Syn(SynFault::Syntax { place });
            Err(faulty(alloc, script, &fault, names))
        }
        Err(SynFault::Memory(_)) => Err(Refusal::NoMemory),
    }
}

// The refusal of a script with this fault.
fn faulty(alloc: Global, script: &[u8], fault: &ScriptFault, names: &Names) -> Refusal
    requires shown { IsShown script.now fault.now }
    requires short { length script.now < 2 ^ 32 - 1 }
    ensures { Tells result (script_text script.now fault.now) }
{
    let mut line = Vec::new(alloc);
    match script_line(alloc, script, fault, names, &mut line) {
        Ok(()) => Refusal::FaultyScript(line),
        Err(_) => Refusal::NoMemory,
    }
}

// The labels of the path that the script deletes.
fn deleted_path(alloc: Global, script: &Script) -> Result<Vec<Name>, Refusal>
    ensures path { IfOk result (λ path. IsDeletion script.now path.items) }
    ensures refused { IfErr result (λ refusal. (refusal ≡ Refusal.NoMemory)
        ⊎ ((refusal ≡ Refusal.OtherScript) × DeletesNone script.now)) }
{
    let Some(deleted) = one_deletion(script.body.as_slice()) else {
        return Err(Refusal::OtherScript);
    };
    match lone_labels(alloc, deleted.steps.as_slice()) {
        Ok(Some(path)) => Ok(path),
        Ok(None) => Err(Refusal::OtherScript),
        Err(_) => Err(Refusal::NoMemory),
    }
}

// The path of a body that is one `DELETE`.
fn one_deletion(body: &[Stmt]) -> Option<&Path>
    ensures { MatchOption result
        ((deleted : Path) (at : Span) → body.now ≢ Delete deleted at ∷ [])
        (λ deleted. (at : Span) × (body.now ≡ Delete deleted.now at ∷ [])) }
{
    match body {
        [Stmt::Delete(deleted, _)] => Some(deleted),
        _ => None,
    }
}

// The labels that are all of the steps, or none where a step has more.
fn lone_labels(alloc: Global, steps: &[Step]) -> Result<Option<Vec<Name>>, AllocError>
    ensures labels { IfOk result (λ found. IfSome found (λ path.
        map lone_label steps.now ≡ map Some path.items)) }
    ensures more { IfOk result (λ found. IfNone found (
        (path : List ℕ) → map lone_label steps.now ≢ map Some path)) }
{
    let mut path = Vec::new(alloc);
    for step in steps {
        let Some(label) = lone_label(step) else {
            return Ok(None);
        };
        path.push(label)?;
    }
    Ok(Some(path))
}

// The label that is all of the step.
fn lone_label(step: &Step) -> Option<Name>
    ensures { result ≡ lone_label step.now }
{
    match step {
        Step {
            var: None,
            test: Some(TestText::Label(name)),
            filter: None,
            ..
        } => Some(*name),
        _ => None,
    }
}
