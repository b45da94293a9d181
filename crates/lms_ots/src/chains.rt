// The chains of hashes.

ghost use Rattle.std.specs.Prelude.{◌≡◌, ◌≤◌, ◌<◌, ◌-◌, ◌++◌, ◌∷◌};
ghost use Rattle.lms_ots.specs.OneTime.{chain, prefix, secret_element};

use crate::input::{PREFIX, prefix, put, step_input};
use sha2::{Digest, Sha256};

// A value taken from one step of its chain to another. One buffer serves all steps: each changes the step's number and the
// value.
pub(crate) fn chain(start: &[u8; 22], first: u8, end: u8, value: &[u8; 32]) -> [u8; 32]
    requires { first ≤ end }
    ensures { result ≡ chain start.now first (end - first) value.now }
{
    let mut input = step_input(start, first, value);
    let mut value = *value;
    'steps: for step in first..end {
        input[PREFIX] = step;
        value = Sha256::digest(input.as_slice());
        put(&mut input, PREFIX + 1, &value);
    }
    value
}

// Chain i from its private element up to a step.
#[tactic(auto, unfolding(crate::specs::OneTime::secret_element))]
pub(crate) fn chain_from_secret(
    identifier: &[u8; 16],
    q: u32,
    seed: &[u8; 32],
    i: u16,
    end: u8,
) -> [u8; 32]
    ensures { result ≡ chain (prefix identifier.now q i) 0 end (secret_element identifier.now q seed.now i) }
{
    let start = prefix(identifier, q, i);
    let secret = Sha256::digest(step_input(&start, 0xff, seed).as_slice());
    chain(&start, 0, end, &secret)
}
