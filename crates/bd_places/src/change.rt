//! Changes of values.

ghost use Rattle.std.specs.Prelude.{◌≡◌, Bool};

/// What is to become of a value, if it is one of those that are meant.
pub trait Change<T>: Copy {
    ghost meant: { Self → T → Bool };

    ghost changed: { Self → T → T };

    /// Whether the value is meant.
    fn is_meant(self, value: T) -> bool
        ensures { result ≡ meant self value };

    /// What becomes of the value.
    fn apply(self, value: T) -> T
        ensures { result ≡ changed self value };
}
