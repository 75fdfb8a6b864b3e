//! Values that keep what each pass did to them.
ghost use Rattle.std.specs.Prelude.{ℕ, List};

/// A value with a part that never changes, and with a list of entries for each number.
pub trait Stepped {
    type Entry;

    type Fixed;

    // The entries of a number.
    ghost entries: { Self → ℕ → List Self.Entry };

    // The part that never changes.
    ghost fixed: { Self → Self.Fixed };
}
