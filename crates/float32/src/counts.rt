// Whole numbers as floats, where every one is a float.
ghost use Rattle.std.specs.Prelude.{◌≡◌};
ghost use Rattle.float32.specs.Counts.{of_count};

// n, exactly.
pub fn of_count(n: u16) -> f32
    ensures { result ≡ of_count n }
{
    n as f32
}
