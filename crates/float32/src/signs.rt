// The sign of a float.
ghost use Rattle.std.specs.Prelude.{false, cond, ◌≡◌, pos};
ghost use Rattle.std.specs.Float.Ieee.{eq};
ghost use Rattle.std.specs.Float.{fin};
ghost use Rattle.float32.specs.Signs.{abs_of};

// x, and +0 for either zero.
fn zero_cleared(x: f32) -> f32
    ensures { result ≡ cond (eq x (fin false 0 (pos 0))) (fin false 0 (pos 0)) x }
{
    if x == 0.0 { 0.0 } else { x }
}

// |x|: the sign is cleared, of -0 too. Both values are made before the test, so that no branch waits for the sign.
pub fn abs(x: f32) -> f32
    ensures { result ≡ abs_of x }
{
    let cleared = zero_cleared(x);
    if x < 0.0 { -x } else { cleared }
}
