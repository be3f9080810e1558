// The words, the script, the document, in that order; then the write.
ghost use Rattle.std.specs.Prelude.{◌≡◌, ◌⊎◌, ◌+◌, ◌-◌, ◌^◌, ◌<◌, ◌≤◌, ◌++◌, ◌∷◌, [], ℕ, List, All, length, map, Some, None, IsSome, IfSome, IsSomeAnd, IfOk, IfErr, OnErr, IsErrOf};
ghost use Rattle.flux_atom.specs.Names.{IsName, IsTable};
ghost use Rattle.flux_io.specs.Outside.{file, Lacks, Rose};
ghost use Rattle.flux_trees.specs.Hedge.{Plain};
ghost use Rattle.flux_trees.specs.Draft.{done, depth, outer};
ghost use Rattle.flux_trees.specs.Each.{EachLabel};
ghost use Rattle.flux_calculus.specs.Derives.{Derives};
ghost use Rattle.flux_top.specs.Paths.{standard, delete_on};
ghost use Rattle.flux_doctext.specs.Text.{text, name_text};
ghost use Rattle.flux_top.specs.Script.{DeletesPath};
ghost use Rattle.flux_doctext.specs.Spells.{Spells};
ghost use Rattle.flux_top.specs.Words.{texts, form, run, core};
ghost use Rattle.flux_top.specs.Answer.{Lacking};
ghost use Rattle.flux_top.specs.Clauses.{IsStatus, IsComplete, IsOutput, Writes, ReadsBack, Shows};
ghost use Rattle.flux_top.specs.Prepare.{IsFileRefusal, IsNoForest, IsEarlyRefusal, WhereAsked};

use crate::Status;
use crate::delete::deleted;
use crate::refusal::{Refusal, refuse};
use crate::script::{read_deletion, read_script};
use crate::words::{Words, read_words};
use flux_atom::{Name, Names};
use flux_doctext::{DocFault, read_document, write_forest};
use flux_forest::Forest;
use flux_io::{Fault, Folder, Refused, Sink, read_all, write_all};
use flux_report::{line_and_column, write_core};
use std::alloc::{AllocError, Global};

// The most bytes of a script.
const SCRIPT_LIMIT: u32 = 1_048_576;

// The most bytes of a document.
const DOCUMENT_LIMIT: u32 = 33_554_432;

fn read_file<F: Folder>(
    alloc: Global,
    folder: &mut F,
    name: &str,
    limit: u32,
    too_long: Refusal,
) -> Result<Vec<u8>, Refusal>
    ensures same { F.holds folder.new ≡ F.holds folder.old }
    ensures later { F.faults folder.old ≤ F.faults folder.new }
    ensures whole { IfOk result (λ bytes.
        IfSome (F.holds folder.old) (λ held. file held name.now ≡ Some bytes.items)) }
    ensures within { IfOk result (λ bytes. length bytes.items ≤ limit) }
    ensures refused { IfErr result (IsFileRefusal (F.holds folder.old) name.now limit too_long
        (Rose (F.faults folder.old) (F.faults folder.new))) }
{
    match read_all(alloc, folder, name, limit) {
        Ok(bytes) => Ok(bytes),
        Err(Fault::Read) => Err(Refusal::NoRead),
        Err(Fault::TooLong) => Err(too_long),
        Err(Fault::Memory(_)) => Err(Refusal::NoMemory),
    }
}

// The forest that the document spells. The document is let go.
fn read_forest(alloc: Global, document: Vec<u8>, names: &mut Names) -> Result<Forest, Refusal>
    requires { length names.old + length document.items < 2 ^ 32 - 1 }
    ensures grown { (more : List (List ℕ)) × (names.new ≡ names.old ++ more) }
    ensures forest { IfOk result (λ forest.
        (v : Plain) × (forest ≡ done v) × Spells names.new document.items v) }
    ensures refused { IfErr result (λ refusal. (refusal ≡ Refusal.NoMemory)
        ⊎ IsNoForest document.items refusal) }
{
    match read_document(alloc, document.as_slice(), names) {
        Ok(forest) => Ok(forest),
        Err(DocFault::Text { place }) => {
            let (line, column) = line_and_column(document.as_slice(), place);
            Err(Refusal::NoForest(line, column))
        }
        Err(DocFault::Memory(_)) => Err(Refusal::NoMemory),
    }
}

// The canonical text of the forest without the elements on the path, and a newline.
fn result_text(
    alloc: Global,
    forest: &Forest,
    path: &[Name],
    names: &Names,
) -> Result<Vec<u8>, AllocError>
    requires whole { depth forest.now ≡ 0 }
    requires known { EachLabel (λ a. a < length names.now) (outer forest.now) }
    requires some { 0 < length path.now }
    ensures { IfOk result (λ output.
        (w : Plain) × Derives [] standard [] (outer forest.now) (delete_on path.now) w
        × (output.items ≡ text names.now w ++ 10 ∷ [])) }
{
    let result = deleted(alloc, forest.view(), path)?;
    let mut output = Vec::new(alloc);
    write_forest(alloc, result.view(), names, &mut output)?;
    output.push(b'\n')?;
    Ok(output)
}

// The text of a document after its update by a script.
fn updated<F: Folder>(
    alloc: Global,
    script: &str,
    document: &str,
    folder: &mut F,
) -> Result<Vec<u8>, Refusal>
    ensures same { F.holds folder.new ≡ F.holds folder.old }
    ensures later { F.faults folder.old ≤ F.faults folder.new }
    ensures output { IfOk result (λ output. WhereAsked (run script.now document.now) (λ words.
        IsOutput (F.holds folder.old) words output.items)) }
    ensures refused { IfErr result (λ refusal. WhereAsked (run script.now document.now) (λ words.
        IsEarlyRefusal (F.holds folder.old) words
        (Rose (F.faults folder.old) (F.faults folder.new)) refusal)) }
{
    let mut names = Names::new(alloc);
    let script = read_file(alloc, folder, script, SCRIPT_LIMIT, Refusal::LongScript)?;
    let path = read_deletion(alloc, script.as_slice(), &mut names)?;
    let document = read_file(
        alloc,
        folder,
        document,
        DOCUMENT_LIMIT,
        Refusal::LongDocument,
    )?;
    let forest = read_forest(alloc, document, &mut names)?;
    match result_text(alloc, &forest, path.as_slice(), &names) {
        Ok(output) => Ok(output),
        Err(_) => Err(Refusal::NoMemory),
    }
}

// The text of a script in the core language.
fn core_script<F: Folder>(alloc: Global, script: &str, folder: &mut F) -> Result<Vec<u8>, Refusal>
    ensures same { F.holds folder.new ≡ F.holds folder.old }
    ensures later { F.faults folder.old ≤ F.faults folder.new }
    ensures output { IfOk result (λ output. WhereAsked (core script.now) (λ words.
        IsOutput (F.holds folder.old) words output.items)) }
    ensures refused { IfErr result (λ refusal. WhereAsked (core script.now) (λ words.
        IsEarlyRefusal (F.holds folder.old) words
        (Rose (F.faults folder.old) (F.faults folder.new)) refusal)) }
{
    let mut names = Names::new(alloc);
    let script = read_file(alloc, folder, script, SCRIPT_LIMIT, Refusal::LongScript)?;
    let reading = read_script(alloc, script.as_slice(), &mut names)?;
    let mut output = Vec::new(alloc);
    match write_core(alloc, &reading.normal, &names, &mut output) {
        Ok(()) => Ok(output),
        Err(_) => Err(Refusal::NoMemory),
    }
}

// All that comes before the write: what is to be written, or the refusal.
fn prepare<F: Folder>(alloc: Global, words: &[String], folder: &mut F) -> Result<Vec<u8>, Refusal>
    ensures same { F.holds folder.new ≡ F.holds folder.old }
    ensures later { F.faults folder.old ≤ F.faults folder.new }
    ensures output { IfOk result (λ output.
        IsOutput (F.holds folder.old) (texts words.now) output.items) }
    ensures form { IfOk result (λ output. IsSome (form (texts words.now))) }
    ensures refused { IfErr result (IsEarlyRefusal (F.holds folder.old) (texts words.now)
        (Rose (F.faults folder.old) (F.faults folder.new))) }
    ensures no_form { form (texts words.now) ≡ None → IsErrOf result Refusal.WrongWords }
{
    match read_words(words) {
        Some(Words::Run(script, document)) => updated(alloc, script, document, folder),
        Some(Words::Core(script)) => core_script(alloc, script, folder),
        None => Err(Refusal::WrongWords),
    }
}

/// Runs the words over the folder: writes to `out` what they ask for, or one line to `err`. The
/// words are `run SCRIPT DOC` or `core SCRIPT`; all others are refused. A line that `err` doesn't take changes no
/// status, unless it is refused for want of memory.
pub fn flux<F: Folder, W: Sink, X: Sink>(
    alloc: Global,
    words: &Vec<String>,
    folder: &mut F,
    out: &mut W,
    err: &mut X,
) -> Status
    // Where the folder tells what it holds: the status is that of the answer, but for faults of the
    // outside and want of memory; a file that isn't there ends in a fault of reading or in want of
    // memory; a run that has something to write is done, but for these.
    ensures status { IfSome (F.holds folder.old) (λ held.
        IsStatus held (texts words.now.items)
        (Rose (F.faults folder.old) (F.faults folder.new))
        (Rose (W.faults out.old) (W.faults out.new)) result) }
    ensures missing { IfSome (F.holds folder.old) (λ held. Lacking held (texts words.now.items) →
        (result ≡ Status.ReadFault) ⊎ (result ≡ Status.Memory)) }
    ensures complete { IfSome (F.holds folder.old) (λ held.
        IsComplete held (texts words.now.items)
        (Rose (F.faults folder.old) (F.faults folder.new))
        (Rose (W.faults out.old) (W.faults out.new)) result) }

    // Whatever the folder tells: the words are refused exactly where they are no form, and faults
    // of reading and of writing come only where they were counted, or a file isn't there.
    ensures usage { result ≡ Status.Usage → form (texts words.now.items) ≡ None }
    ensures no_form { form (texts words.now.items) ≡ None →
        (result ≡ Status.Usage) ⊎ (result ≡ Status.Memory) }
    ensures read_fault { result ≡ Status.ReadFault →
        (Rose (F.faults folder.old) (F.faults folder.new) × IsSome (form (texts words.now.items)))
        ⊎ IsSomeAnd (F.holds folder.old) (λ held. Lacking held (texts words.now.items)) }
    ensures write_fault { result ≡ Status.WriteFault →
        Rose (W.faults out.old) (W.faults out.new) × IsSome (form (texts words.now.items)) }

    // What is written.
    ensures output { Writes (IsOutput (F.holds folder.old) (texts words.now.items))
        (W.written out.old) (W.written out.new) result }
    ensures reads_back { result ≡ Status.Done →
        ReadsBack (F.holds folder.old) (texts words.now.items)
        (W.written out.old) (W.written out.new) }
    ensures line { Shows (F.holds folder.old) (texts words.now.items)
        (X.written err.old) (X.written err.new)
        (Rose (X.faults err.old) (X.faults err.new)) result }

    // The folder holds what it held, and no count falls.
    ensures same { F.holds folder.new ≡ F.holds folder.old }
    ensures later { (F.faults folder.old ≤ F.faults folder.new)
        × (W.faults out.old ≤ W.faults out.new) × (X.faults err.old ≤ X.faults err.new) }
{
    let output = match prepare(alloc, words.as_slice(), folder) {
        Ok(output) => output,
        Err(refusal) => return refuse(alloc, err, refusal),
    };
    match write_all(out, output.as_slice()) {
        Ok(()) => Status::Done,
        Err(Refused::Failed) => refuse(alloc, err, Refusal::NoWrite),
        Err(Refused::Memory(_)) => refuse(alloc, err, Refusal::NoMemory),
    }
}
