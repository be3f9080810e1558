// A folder and a sink in memory.
ghost use Rattle.std.specs.Prelude.{◌≡◌, ◌⊎◌, ◌<◌, ◌≤◌, ◌↔◌, ◌++◌, [], length, min, take, Some, None, IfOk, OnOk, IfErr, OnErr, IfSome, IsErrOf};
ghost use Rattle.std.specs.Io.KnownBytes.{prepend_known};
ghost use Rattle.flux_io.specs.Outside.{IsFileOf, Lacks};
ghost use Rattle.flux_io.specs.Files.{listed};
ghost use Rattle.flux_io.specs.Memory.{taken_of};

use crate::files::{find, take_front};
use crate::{Folder, Refused, Sink};
use std::alloc::Global;

// Where the next bytes of a folder come from.
#[derive(Clone, Copy)]
enum Place {
    // No file was begun yet: nothing is left.
    Start,
    // The file at an index, after so many of its bytes.
    Within { index: usize, at: usize },
    // A call was refused: nothing is told.
    Lost,
}

/// A folder in memory, which holds the files that it was made of and no others, and tells what it
/// holds.
///
/// Its calls of `begin` and `read` are counted together from 1. Those whose numbers it was given
/// fail, and these alone are faults: a missing name is refused, and counts as none. Of two files of
/// one name the first counts. A `read` gives as many bytes as fit. It never runs out of memory.
#[derive(Drop)]
pub struct MemFolder {
    files: Vec<(String, Vec<u8>)>,
    fails: Vec<u64>,
    calls: u64,
    faults: u64,
    place: Place,
}

impl MemFolder {
    ghost use Rattle.flux_io.specs.declared.memory.Place.TheVariants.{Lost};
    ghost use Rattle.flux_io.specs.Memory.{files_of, fails_of, calls_of, faults_of, FailsNext, IsCall};

    /// A folder of these files, by their names, whose calls of the numbers in `fails` fail. It
    /// takes no memory of its own.
    pub fn new(_alloc: Global, files: Vec<(String, Vec<u8>)>, fails: Vec<u64>) -> MemFolder
        ensures holds { ⟦<MemFolder as Folder>⟧.holds result
            ≡ Some (record { map = listed files.items; rest = None }) }
        ensures left { ⟦<MemFolder as Folder>⟧.left result ≡ Some [] }
        ensures faults { ⟦<MemFolder as Folder>⟧.faults result ≡ 0 }
        ensures files { files_of result ≡ listed files.items }
        ensures fails { fails_of result ≡ fails.items }
        ensures calls { calls_of result ≡ 0 }
    {
        MemFolder {
            files,
            fails,
            calls: 0,
            faults: 0,
            place: Place::Start,
        }
    }

    // Counts a call, and refuses it if its number is one of those that fail.
    fn count_call(&mut self) -> Result<(), Refused>
        ensures call { IsCall self.old self.new }
        ensures later { faults_of self.old ≤ faults_of self.new }
        ensures failed { IsErrOf result Refused.Failed ↔ FailsNext self.old }
        ensures only { IfErr result (λ e. e ≡ Refused.Failed) }
        ensures files { self.new.files ≡ self.old.files }
        ensures place { OnOk result (self.new.place ≡ self.old.place) }
        ensures lost { OnErr result (self.new.place ≡ Lost) }
    {
        self.calls = self.calls.saturating_add(1);
        if self.fails.contains(&self.calls) {
            self.faults = self.faults.saturating_add(1);
            self.place = Place::Lost;
            return Err(Refused::Failed);
        }
        Ok(())
    }
}

impl Folder for MemFolder {
    ghost use Rattle.flux_io.specs.Memory.{faults_of, left_of, held_of, rest_of, FailsNext, IsCall};

    ghost holds = { λ f. Some (held_of f) };

    ghost left = { left_of };

    ghost faults = { faults_of };

    fn begin(&mut self, name: &str) -> Result<(), Refused>
        ensures begun { OnOk result (IsFileOf (left_of self.new) name.now (held_of self.old)) }
        ensures refused { OnErr result (left_of self.new ≡ None) }
        ensures failed { IsErrOf result Refused.Failed
            ↔ (FailsNext self.old ⊎ Lacks (Some (held_of self.old)) name.now) }
        ensures only { IfErr result (λ e. e ≡ Refused.Failed) }
        ensures call { IsCall self.old self.new }
        ensures later { faults_of self.old ≤ faults_of self.new }
    {
        self.count_call()?;
        match find(self.files.as_slice(), name) {
            Some(index) => {
                self.place = Place::Within { index, at: 0 };
                Ok(())
            }
            None => {
                self.place = Place::Lost;
                Err(Refused::Failed)
            }
        }
    }

    fn read(&mut self, buf: &mut [u8]) -> Result<usize, Refused>
        requires { 0 < length buf.old }
        ensures exact { IfOk result (λ n. n ≡ min (length buf.old) (length (rest_of self.old))) }
        ensures bound { IfOk result (λ n. n ≤ length buf.new) }
        ensures end { IfOk result (λ n.
            IfSome (left_of self.old) (λ bytes. (n ≡ 0) ↔ (bytes ≡ []))) }
        ensures taken { IfOk result (λ n.
            left_of self.old ≡ prepend_known (take n buf.new) (left_of self.new)) }
        ensures refused { OnErr result (left_of self.new ≡ None) }
        ensures failed { IsErrOf result Refused.Failed ↔ FailsNext self.old }
        ensures only { IfErr result (λ e. e ≡ Refused.Failed) }
        ensures call { IsCall self.old self.new }
        ensures later { faults_of self.old ≤ faults_of self.new }
    {
        self.count_call()?;
        let Place::Within { index, at } = self.place else {
            return Ok(0);
        };
        let n = take_front(self.files.as_slice(), index, at, buf);
        self.place = Place::Within { index, at: at + n };
        Ok(n)
    }
}

/// A sink in memory, which tells what it holds.
///
/// With a cap it takes bytes until it holds so many, of a longer write those that still fit. A
/// write that begins at the cap fails, which is its only failure.
#[derive(Drop)]
pub struct MemSink {
    bytes: Vec<u8>,
    cap: Option<u64>,
    faults: u64,
}

impl MemSink {
    ghost use Rattle.flux_io.specs.Memory.{bytes_of, cap_of};

    /// An empty sink, with no end or of at most `cap` bytes.
    pub fn new(alloc: Global, cap: Option<u64>) -> MemSink
        ensures written { ⟦<MemSink as Sink>⟧.written result ≡ Some [] }
        ensures faults { ⟦<MemSink as Sink>⟧.faults result ≡ 0 }
        ensures bytes { bytes_of result ≡ [] }
        ensures cap { cap_of result ≡ cap }
    {
        MemSink {
            bytes: Vec::new(alloc),
            cap,
            faults: 0,
        }
    }

    /// What the sink holds.
    pub fn bytes(&self) -> &[u8]
        ensures { result.now ≡ bytes_of self.now }
    {
        self.bytes.as_slice()
    }
}

// How many of so many bytes a sink of that cap takes, when it holds so many.
fn room(cap: Option<u64>, held: usize, asked: usize) -> usize
    ensures { result ≡ taken_of cap held asked }
{
    match cap {
        Some(cap) => asked.min(cap.saturating_sub(held as u64) as usize),
        None => asked,
    }
}

impl Sink for MemSink {
    ghost use Rattle.flux_io.specs.Memory.{bytes_of, cap_of, sink_faults_of, taken_of, one_more, AtCap};

    ghost written = { λ s. Some (bytes_of s) };

    ghost faults = { sink_faults_of };

    fn write(&mut self, bytes: &[u8]) -> Result<usize, Refused>
        requires { 0 < length bytes.now }
        // As many bytes are taken as fit under the cap.
        ensures exact { IfOk result (λ n.
            n ≡ taken_of (cap_of self.old) (length (bytes_of self.old)) (length bytes.now)) }
        ensures some { IfOk result (λ n. 0 < n) }
        ensures bound { IfOk result (λ n. n ≤ length bytes.now) }
        ensures taken { IfOk result (λ n.
            bytes_of self.new ≡ bytes_of self.old ++ take n bytes.now) }
        ensures refused { OnErr result (bytes_of self.new ≡ bytes_of self.old) }
        ensures cap { cap_of self.new ≡ cap_of self.old }

        // A failure comes at the cap, and is what counts as a fault.
        ensures failed { IsErrOf result Refused.Failed
            ↔ AtCap (cap_of self.old) (length (bytes_of self.old)) }
        ensures rose { IsErrOf result Refused.Failed
            → sink_faults_of self.new ≡ one_more (sink_faults_of self.old) }
        ensures stayed { IsErrOf result Refused.Failed
            ⊎ (sink_faults_of self.new ≡ sink_faults_of self.old) }
        ensures later { sink_faults_of self.old ≤ sink_faults_of self.new }
    {
        let n = room(self.cap, self.bytes.len(), bytes.len());
        if n == 0 {
            self.faults = self.faults.saturating_add(1);
            return Err(Refused::Failed);
        }
        match self.bytes.extend_from_slice(&bytes[..n]) {
            Ok(()) => Ok(n),
            Err(e) => Err(Refused::Memory(e)),
        }
    }
}
