ghost use Rattle.std.specs.Prelude.{◌≡◌, ℕ, not, ◌&&◌, ◌||◌, replicate, ◌==◌, nat_lt};
ghost use Rattle.stores.specs.Sets.{size_of, First};
ghost use Rattle.stores.specs.BitRows.{starts_of};

use crate::store::STARTS;
use crate::word::{count_bits, first_bit, has_bit, with_bit, without_bit};

/// How many words a row has.
const WORDS: usize = 4;

/// A set of starts: start t is bit t % 64 of word t / 64.
#[derive(Clone, Copy)]
pub(crate) struct Row {
    words: [u64; WORDS],
}

impl Row {
    /// No bit is set.
    pub(crate) fn empty() -> Row
        ensures { result.words ≡ replicate 4 0 }
    {
        Row { words: [0; WORDS] }
    }

    /// Whether the start is in.
    pub(crate) fn holds(&self, start: usize) -> bool
        ensures { result ≡ starts_of self.now start }
    {
        start < STARTS && has_bit(self.words[start / 64], start)
    }

    /// How many starts are in.
    pub(crate) fn size(&self) -> usize
        ensures { result ≡ size_of (starts_of self.now) }
    {
        self.words.iter().map(|word| count_bits(*word)).sum()
    }

    /// The first start at or after the given one.
    pub(crate) fn after(&self, start: usize) -> Option<usize>
        ensures { First (starts_of self.now) start result }
    {
        // Places are counted, since the answer is made of one, and only the first word is read from its middle.
        let mut from = start % 64;
        for place in start / 64..WORDS {
            if let Some(k) = first_bit(self.words[place], from) {
                return Some(64 * place + k);
            }
            from = 0;
        }
        None
    }

    /// Takes the start out, and tells whether it was there.
    pub(crate) fn take_out(&mut self, start: usize) -> bool
        ensures was { result ≡ starts_of self.old start }
        ensures left { (t : ℕ) → starts_of self.new t ≡ (starts_of self.old t && not (t == start)) }
    {
        if !self.holds(start) {
            return false;
        }
        self.words[start / 64] = without_bit(self.words[start / 64], start);
        true
    }

    /// Puts the start in, and tells whether it was missing.
    pub(crate) fn put_back(&mut self, start: usize) -> bool
        ensures was { result ≡ (nat_lt start 256 && not (starts_of self.old start)) }
        ensures left { (t : ℕ) → starts_of self.new t ≡ (starts_of self.old t || (nat_lt start 256 && t == start)) }
    {
        if start >= STARTS || self.holds(start) {
            return false;
        }
        self.words[start / 64] = with_bit(self.words[start / 64], start);
        true
    }
}
