ghost use Rattle.std.specs.Prelude.{◌≡◌, Bool, true, false};
ghost use Rattle.std.specs.declared.cmp.Ordering.TheVariants.{Equal};

/// A kind of key: which of two keys comes before the other.
pub trait Order: Copy {
    ghost before: { Self → Self → Bool };

    /// Whether this key comes before the other.
    fn is_before(&self, other: &Self) -> bool
        ensures { result ≡ before self.now other.now };

    // No two keys are before each other.
    ghost asymmetric: { (a b : Self) → before a b ≡ true → before b a ≡ false };

    // What is not before passes on.
    ghost chains: { (a b c : Self) → before b a ≡ false → before c b ≡ false → before c a ≡ false };

    // Different keys never tie. A heap does not rest on it; it is for the users.
    ghost apart: { (a b : Self) → before a b ≡ false → before b a ≡ false → a ≡ b };
}

/// A kind of entry, which names its kind of key.
pub trait Entry: Copy {
    type Key: Ord + Copy;

    ghost keyed: { Self → Self.Key };

    /// The key by which the entry waits.
    fn key(&self) -> Self::Key
        ensures { result ≡ keyed self.now };

    // Different keys never tie. A heap does not rest on it; it is for the users.
    ghost apart: { (a b : Self.Key) → Self.Key.cmp a b ≡ Equal → a ≡ b };
}
