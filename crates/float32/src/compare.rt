// Comparison as IEEE 754-2019, 5.11, has it.
ghost use Rattle.std.specs.Prelude.{◌≡◌};
ghost use Rattle.float32.specs.Comparison.{relation_of};

use std::cmp::Ordering;

// Exactly one of four relations holds between two floats; where they are unordered it is `None`.
pub fn relate(a: f32, b: f32) -> Option<Ordering>
    ensures { result ≡ relation_of a b }
{
    // In this order no branch waits for which of two numbers is the lesser; `partial_cmp` was tried, and took three times as long there.
    if a.is_nan() | b.is_nan() {
        None
    } else if a < b {
        Some(Ordering::Less)
    } else if a == b {
        Some(Ordering::Equal)
    } else {
        Some(Ordering::Greater)
    }
}
