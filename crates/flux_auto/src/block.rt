// Blocks of states.
ghost use Rattle.std.specs.Prelude.{◌≡◌, ◌||◌, ◌==◌, ℕ, IsTrue, false};
ghost use Rattle.flux_auto.specs.Set.{in_block};

/// States of one block: the number of the block, which has the 64 states from 64 times that number
/// on, and a bit for each of these, the lowest for the first.
#[derive(Clone, Copy, Debug, PartialEq, Eq, Hash)]
pub struct Block {
    pub(crate) number: u64,
    pub(crate) bits: u64,
}

impl Block {
    // A state alone.
    pub(crate) fn of(state: u64) -> Block
        ensures { (s : ℕ) → in_block result s ≡ (s == state) }
    {
        Block {
            number: state / 64,
            bits: 1u64 << (state % 64),
        }
    }

    // Adds the states of another, where the block is the same, and tells whether it is.
    pub(crate) fn join(&mut self, other: Block) -> bool
        ensures joined { IsTrue result → (s : ℕ)
            → in_block self.new s ≡ in_block self.old s || in_block other s }
        ensures same { result ≡ false → self.new ≡ self.old }
    {
        if self.number != other.number {
            return false;
        }
        self.bits |= other.bits;
        true
    }
}
