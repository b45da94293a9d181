//! Sets of rows.

ghost use Rattle.std.specs.Prelude.{◌≡◌, ◌≢◌, ◌↔◌, ℕ, ◌<◌, ◌≤◌, true, false, IsTrue};
ghost use Rattle.causal_history.specs.Bits.{mark};

use std::marker::Model;

/// A set of rows of one history: 4,096 bits, of which bit i stands for the row with number i. It takes no heap.
#[derive(Drop)]
pub struct Marks {
    words: [u64; 64],
}

// The words, of which a clause reads the bits.
impl Model for Marks {
    ghost use Rattle.std.specs.Prelude.{ℕ, List};

    ghost Value = { List ℕ };

    ghost view = { λ marks. marks.words };
}

impl Marks {
    /// No bit is set.
    pub fn new() -> Marks
        ensures { (i : ℕ) → mark result i ≡ false }
    {
        Marks { words: [0; 64] }
    }

    /// Whether the bit at an index below 4,096 is set.
    pub fn has(&self, index: u32) -> bool
        requires { index < 4096 }
        ensures { result ≡ mark self.now index }
    {
        self.words[index as usize / 64] >> (index % 64) & 1 == 1
    }

    /// Sets the bit at an index below 4,096.
    pub fn put(&mut self, index: u32)
        requires { index < 4096 }
        ensures set { mark self.new index ≡ true }
        ensures others { (i : ℕ) → i ≢ index → mark self.new i ≡ mark self.old i }
    {
        self.words[index as usize / 64] |= 1 << (index % 64);
    }

    /// Takes all bits away.
    pub fn clear(&mut self)
        ensures { (i : ℕ) → mark self.new i ≡ false }
    {
        self.words = [0; 64];
    }

    /// Sets exactly the first so many bits, at most 4,096.
    pub fn set_first(&mut self, count: u32)
        requires { count ≤ 4096 }
        ensures { (i : ℕ) → (mark self.new i ≡ true) ↔ (i < count) }
    {
        self.clear();
        for index in 0..count {
            self.put(index);
        }
    }

    /// Whether the two sets have the same of the first so many bits, at most 4,096.
    pub fn agrees_below(&self, other: &Marks, count: u32) -> bool
        requires { count ≤ 4096 }
        ensures { IsTrue result ↔ ((i : ℕ) → i < count → mark self.now i ≡ mark other.now i) }
    {
        for index in 0..count {
            if self.has(index) != other.has(index) {
                return false;
            }
        }
        true
    }
}
