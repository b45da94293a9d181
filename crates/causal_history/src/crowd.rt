//! Sets of members.

ghost use Rattle.std.specs.Prelude.{◌≡◌, ◌≢◌, ◌↔◌, ℕ, ◌<◌, ◌&&◌, ◌||◌, not, true, false, IsTrue};
ghost use Rattle.causal_history.specs.Bits.{bit};

/// A set of members of one history, by their places: bit p stands for place p.
#[derive(Drop, Clone, Copy, PartialEq, Eq, Debug)]
pub struct Crowd(pub u64);

impl Crowd {
    /// Nobody.
    pub fn new() -> Crowd
        ensures { (p : ℕ) → bit result.0 p ≡ false }
    {
        Crowd(0)
    }

    /// Whether the place, which is below 64, is in.
    pub fn has(self, place: u8) -> bool
        requires { place < 64 }
        ensures { result ≡ bit self.0 place }
    {
        self.0 >> place & 1 == 1
    }

    /// With one more place, which is below 64.
    pub fn with(self, place: u8) -> Crowd
        requires { place < 64 }
        ensures set { bit result.0 place ≡ true }
        ensures others { (p : ℕ) → p ≢ place → bit result.0 p ≡ bit self.0 p }
    {
        Crowd(self.0 | 1 << place)
    }

    /// Those of both crowds.
    pub fn union(self, other: Crowd) -> Crowd
        ensures { (p : ℕ) → bit result.0 p ≡ (bit self.0 p || bit other.0 p) }
    {
        Crowd(self.0 | other.0)
    }

    /// Without those of the other crowd.
    pub fn without(self, other: Crowd) -> Crowd
        ensures { (p : ℕ) → bit result.0 p ≡ (bit self.0 p && not (bit other.0 p)) }
    {
        Crowd(self.0 & !other.0)
    }

    /// Whether nobody is in.
    pub fn is_empty(self) -> bool
        ensures { IsTrue result ↔ ((p : ℕ) → bit self.0 p ≡ false) }
    {
        self.0 == 0
    }
}
