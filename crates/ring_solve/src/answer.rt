//! The answers of the solver.
use std::marker::Model;

/// A list of coefficients, that of x^0 first.
#[derive(Drop)]
pub struct Poly {
    coefficients: Vec<i16>,
}

impl Model for Poly {
    ghost use Rattle.std.specs.Prelude.{List, ℤ};

    ghost Value = { List ℤ };

    ghost view = { λ p. p.coefficients.items };
}

impl Poly {
    ghost use Rattle.std.specs.Prelude.{◌≡◌};

    /// The polynomial with these coefficients.
    pub fn from_vec(coefficients: Vec<i16>) -> Self
        ensures { result ≡ coefficients.items }
    {
        Poly { coefficients }
    }

    /// The coefficients.
    pub fn as_slice(&self) -> &[i16]
        ensures { result.now ≡ self.now }
    {
        self.coefficients.as_slice()
    }

    /// Gives the coefficients back, without taking memory.
    pub fn into_vec(self) -> Vec<i16>
        ensures { result.items ≡ self }
    {
        self.coefficients
    }
}

/// What the equations for an inverse answer.
#[derive(Drop)]
pub enum Solved {
    /// The inverse.
    Inverse(Poly),
    /// A polynomial that isn't 0 and whose product is 0: there is no inverse.
    Kernel(Poly),
}
