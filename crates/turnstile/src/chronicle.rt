//! What a turnstile guards: a value that is known by its history.
ghost use Rattle.std.specs.Prelude.{◌≡◌, List, length};

/// A value that is known by its history, a list of entries.
/// It is `Drop`, since a turnstile that gets no memory drops it.
pub trait Chronicle: Drop {
    type Entry;

    // The entries, oldest first.
    ghost history: { Self → List Self.Entry };

    // What each turn keeps of the value, beside its history.
    ghost kept: { Self → Type 0 };

    /// The number of entries.
    fn length(&self) -> u64
        ensures { result ≡ length (history self.now) };
}
