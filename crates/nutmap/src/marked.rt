//! Values that may be marked, so that a map finds these without a look at the others.
ghost use Rattle.std.specs.Prelude.{◌≡◌, Bool};

/// A value of a map, which may be marked.
pub trait Marked: Drop {
    ghost marked: { Self → Bool };

    /// Whether it is marked, which is a function of the value.
    fn is_marked(&self) -> bool
        ensures { result ≡ marked self.now };
}

impl Marked for () {
    ghost use Rattle.std.specs.Prelude.{false};

    ghost marked = { λ _. false };

    fn is_marked(&self) -> bool {
        false
    }
}
