// The numbers of repeat counts.

ghost use Rattle.std.specs.Prelude.{◌≡◌};

use declared_types::Outside;

/// What stands around an initial value: beside constants and names, the numbers of repeat counts.
pub trait Counts: Outside {
    ghost use Rattle.std.specs.Prelude.{ℕ, List};

    ghost repeats: { Self → List ℕ → ℕ };

    /// The number of a repeat count's text, or 2^32 - 1 where it is above.
    fn repeat(&self, text: &[u8]) -> u32
        ensures { result ≡ repeats self.now text.now };
}
