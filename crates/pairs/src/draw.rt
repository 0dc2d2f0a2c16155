// Numbers by a linear congruence, and boxes whose corners are whole numbers times a grain.
ghost use Rattle.std.specs.Prelude.{◌≡◌, ◌<◌};
ghost use Rattle.pairs.specs.Drawing.{next_of, three_on, below_of, whole_of, corner_of, drawn_box};

use math::aabb::Aabb;
use math::vec3::Vec3;

// What the boxes of a list are like.
#[derive(Clone, Copy)]
pub struct Shape {
    pub seed: u32,
    pub n: usize,
    // Of how many entries one is absent; 0 for none.
    pub absent: u32,
    // Least corners lie below these on x and y, and on z; sides below the third.
    pub span: u32,
    pub depth: u32,
    pub side: u32,
    pub grain: f32,
}

pub fn next(s: u32) -> u32
    ensures { result ≡ next_of s }
{
    ((s as u64 * 1664525 + 1013904223) % 4294967296) as u32
}

pub fn three_on(s: u32) -> u32
    ensures { result ≡ three_on s }
{
    next(next(next(s)))
}

// The upper half of a number, modulo n; 0 where n is 0.
pub fn below(s: u32, n: u32) -> u32
    ensures upper_bound { result < 65536 }
    ensures value { result ≡ below_of s n }
{
    if n == 0 {
        return 0;
    }
    s / 65536 % n
}

fn whole(s: u32, n: u32) -> f32
    ensures { result ≡ whole_of s n }
{
    float32::counts::of_count(below(s, n) as u16)
}

// By the three numbers after s.
fn corner(s: u32, x: u32, y: u32, z: u32) -> Vec3
    ensures { result ≡ corner_of s x y z }
{
    let a = next(s);
    let b = next(a);
    Vec3 {
        x: whole(a, x),
        y: whole(b, y),
        z: whole(next(b), z),
    }
}

// By the six numbers after s. Whole numbers are added exactly and rounding keeps order: min is at most max.
pub fn drawn_box(s: u32, shape: Shape) -> Aabb
    ensures { result ≡ drawn_box s shape }
{
    let min = math::vec3::vadd_f(corner(s, shape.span, shape.span, shape.depth), -100.0);
    let sides = corner(three_on(s), shape.side, shape.side, shape.side);
    Aabb {
        min: min.scale(shape.grain),
        max: min.add(sides).scale(shape.grain),
    }
}
