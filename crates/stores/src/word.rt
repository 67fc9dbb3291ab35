ghost use Rattle.std.specs.Prelude.{◌≡◌, ℕ, ◌%◌, ◌<◌, ◌≤◌, not, ◌&&◌, ◌||◌, ◌==◌};
ghost use Rattle.stores.specs.Sets.{count};
ghost use Rattle.stores.specs.Words.{bit, FirstBit};

/// Whether the start's bit is set, which is bit `start % 64`.
pub(crate) fn has_bit(word: u64, start: usize) -> bool
    ensures { result ≡ bit word (start % 64) }
{
    (word >> (start % 64)) & 1 == 1
}

/// The word with the start's bit set.
pub(crate) fn with_bit(word: u64, start: usize) -> u64
    ensures { (k : ℕ) → bit result k ≡ (bit word k || k == start % 64) }
{
    word | (1 << (start % 64))
}

/// The word with the start's bit not set.
pub(crate) fn without_bit(word: u64, start: usize) -> u64
    ensures { (k : ℕ) → bit result k ≡ (bit word k && not (k == start % 64)) }
{
    word & !(1 << (start % 64))
}

/// How many bits are set.
pub(crate) fn count_bits(word: u64) -> usize
    ensures value { result ≡ count (bit word) 64 }
    ensures most { result ≤ 64 }
{
    // There is no `From<u32>` for `usize`, here and below.
    word.count_ones() as usize
}

/// The first bit that is set, from bit `from` on.
pub(crate) fn first_bit(word: u64, from: usize) -> Option<usize>
    requires { from < 64 }
    ensures { FirstBit (bit word) from result }
{
    match word >> from {
        0 => None,
        rest => Some(from + rest.trailing_zeros() as usize),
    }
}
