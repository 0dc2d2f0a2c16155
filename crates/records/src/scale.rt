// The units of a tree's records, from the box around all of its items.
ghost use Rattle.std.specs.Prelude.{◌≡◌};
ghost use Rattle.records.specs.Scale.{axis_scale_of, scale_of_box};

use math::vec3::Vec3;
use math::words3::Words3;

#[repr(C)]
#[derive(Clone, Copy)]
pub struct Scale {
    pub cen: Vec3,
    pub inverse: Vec3,
    pub quantum: Vec3,
}

// The same of one axis.
#[derive(Clone, Copy)]
pub struct AxisScale {
    pub cen: f32,
    pub inverse: f32,
    pub quantum: f32,
}

// The middle from lo to hi, the larger distance of the two from it in 32767 parts, and the inverse of such a part.
fn axis_scale(lo: f32, hi: f32) -> AxisScale
    ensures { result ≡ axis_scale_of lo hi }
{
    let cen = (lo + hi) * 0.5;
    let extent = float32::extremes::vmax(
        float32::signs::abs(lo - cen),
        float32::signs::abs(hi - cen),
    );
    let quantum = extent / 32767.0;
    AxisScale {
        cen: cen,
        inverse: 1.0 / quantum,
        quantum: quantum,
    }
}

// The centre of the box, the quantum and its inverse.
pub fn scale_of(min: Words3, max: Words3) -> Scale
    ensures { result ≡ scale_of_box min max }
{
    let low = math::words3::values(min);
    let high = math::words3::values(max);
    let x = axis_scale(low.x, high.x);
    let y = axis_scale(low.y, high.y);
    let z = axis_scale(low.z, high.z);
    Scale {
        cen: Vec3 {
            x: x.cen,
            y: y.cen,
            z: z.cen,
        },
        inverse: Vec3 {
            x: x.inverse,
            y: y.inverse,
            z: z.inverse,
        },
        quantum: Vec3 {
            x: x.quantum,
            y: y.quantum,
            z: z.quantum,
        },
    }
}
