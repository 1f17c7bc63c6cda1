// Readers that read ahead.

/// A reader that holds what it has read ahead until that is handed on.
pub trait ReadAhead {
    ghost use Rattle.std.specs.Prelude.{◌≡◌, ◌==◌, ℕ, List, length};

    // What it holds.
    ghost ahead: { Self → List ℕ };

    /// Whether it holds nothing.
    fn is_drained(&self) -> bool
        ensures { result ≡ (length (ahead self.now) == 0) };
}

impl<R: ReadAhead> ReadAhead for &mut R {
    ghost ahead = { λ reader. R.ahead reader.now };

    fn is_drained(&self) -> bool {
        R::is_drained(&**self)
    }
}
