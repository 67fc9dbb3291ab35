ghost use Rattle.std.specs.Prelude.{ℕ, ◌+◌, ◌≤◌, List, [], ◌++◌, length};

/// What takes the bytes of a text, one piece after another.
pub(crate) trait Sink {
    /// For how many more bytes there is room.
    ghost room: { Self → ℕ };

    /// What it was, the bytes that it takes, and what it is then.
    ghost takes: { Self → List ℕ → Self → Type 0 };

    // How much room there must be hangs on the text that comes, so each text's clause says it.

    /// Takes the text.
    fn put(&mut self, text: &[u8])
        requires { length text.now ≤ room self.old }
        ensures { takes self.old text.now self.new };

    /// To take nothing is to stay the same.
    ghost nothing: { (s : Self) → takes s [] s };

    /// To take one text and then another is to take both.
    ghost both: { (s t u : Self) (a b : List ℕ) → takes s a t → takes t b u → takes s (a ++ b) u };

    /// A text takes no more room than it has bytes.
    ghost rest: { (s t : Self) (a : List ℕ) → takes s a t → room s ≤ length a + room t };
}
