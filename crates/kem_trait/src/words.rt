//! Streams of words.

ghost use Rattle.std.specs.Prelude.{◌≡◌, ◌^◌, ◌<◌, ℕ, suc, slice_index};
ghost use Rattle.rand_chacha.specs.ChaCha.{ChaCha, key_of, of_seed, word_at};
ghost use Rattle.kem_trait.specs.Streams.{Stream, words_of_seed};

use rand_chacha::ChaCha20Rng;
use rand_core::SeedableRng;
use rand_core::utils::NextWord;

/// A stream of words of 32 bits, which does not end.
pub trait Words {
    /// The words to come: that at each place, from 0 on.
    ghost upcoming: { Self → Stream };

    /// Takes the next word.
    fn next(&mut self) -> u32
        ensures word { result ≡ upcoming self.old 0 }
        ensures left { (n : ℕ) → upcoming self.new n ≡ upcoming self.old (suc n) };
}

/// The words of ChaCha with 20 rounds under a seed (RFC 8439, section 2.3; stream 0), from its start.
#[derive(Drop)]
pub struct SeedWords {
    generator: ChaCha20Rng,
    ghost in_range: { generator.word_pos < 2 ^ 68 },
}

impl SeedWords {
    ghost use Rattle.kem_trait.specs.Words.{seed_words};

    /// The words of this seed.
    pub fn new(seed: &[u8; 32]) -> SeedWords
        ensures { seed_words result ≡ words_of_seed seed.now }
    {
        SeedWords {
            generator: ChaCha20Rng::from_seed(*seed),
        }
    }
}

impl Words for SeedWords {
    ghost use Rattle.kem_trait.specs.Words.{seed_words};

    ghost upcoming = { seed_words };

    fn next(&mut self) -> u32 {
        self.generator.next_word()
    }
}

/// The words of a list, and then 0 without end.
#[derive(Drop)]
pub struct ListWords<'a> {
    words: &'a [u32],
}

impl<'a> ListWords<'a> {
    ghost use Rattle.kem_trait.specs.Words.{list_words};

    /// The words of this list.
    pub fn new(words: &'a [u32]) -> ListWords<'a>
        ensures { (n : ℕ) → list_words result n ≡ slice_index words.now n }
    {
        ListWords { words }
    }
}

impl<'a> Words for ListWords<'a> {
    ghost use Rattle.kem_trait.specs.Words.{list_words};

    ghost upcoming = { list_words };

    fn next(&mut self) -> u32 {
        match self.words.split_first() {
            Some((first, others)) => {
                self.words = others;
                *first
            }
            None => 0,
        }
    }
}
