// How a run ends.
ghost use Rattle.std.specs.Prelude.{◌≡◌};
ghost use Rattle.flux_top.specs.Lines.{number_of};

/// How a run ended. Later statuses fill the gaps in the numbers.
#[derive(Clone, Copy, Debug, PartialEq, Eq)]
pub enum Status {
    /// All was read to its end, and all was written.
    Done = 0,
    /// The script is over its limit, has no reading, or isn't built yet.
    Script = 1,
    /// The words are of no form.
    Usage = 2,
    /// The document is over its limit, or spells no forest.
    DocText = 3,
    /// A file couldn't be read.
    ReadFault = 6,
    /// The output couldn't be written.
    WriteFault = 7,
    /// There was no memory.
    Memory = 8,
}

impl Status {
    /// The number that the program ends with.
    pub fn number(self) -> u8
        ensures { result ≡ number_of self }
    {
        self as u8
    }
}
