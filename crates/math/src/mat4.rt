// A transform: four rows of four floats in D3D's order. A point goes through as p * M, with the translation in row 3.
ghost use Rattle.std.specs.Prelude.{◌≡◌};
ghost use Rattle.math.specs.Transform.{abs_row, abs_matrix, point_of, vector_of};

use crate::vec3::Vec3;

#[repr(C)]
#[derive(Clone, Copy)]
pub struct Vec4 {
    pub x: f32,
    pub y: f32,
    pub z: f32,
    pub w: f32,
}

#[repr(C)]
#[derive(Clone, Copy)]
pub struct Mat4 {
    pub row0: Vec4,
    pub row1: Vec4,
    pub row2: Vec4,
    pub row3: Vec4,
}

fn abs_row(r: Vec4) -> Vec4
    ensures { result ≡ abs_row r }
{
    Vec4 {
        x: float32::signs::abs(r.x),
        y: float32::signs::abs(r.y),
        z: float32::signs::abs(r.z),
        w: float32::signs::abs(r.w),
    }
}

impl Mat4 {
    // The matrix of absolute values.
    pub fn abs(self) -> Mat4
        ensures { result ≡ abs_matrix self }
    {
        Mat4 {
            row0: abs_row(self.row0),
            row1: abs_row(self.row1),
            row2: abs_row(self.row2),
            row3: abs_row(self.row3),
        }
    }

    // A point, of which w is 1.
    pub fn transform_point(self, p: Vec3) -> Vec4
        ensures { result ≡ point_of self p }
    {
        Vec4 {
            x: self.row0.x * p.x + self.row1.x * p.y + self.row2.x * p.z + self.row3.x,
            y: self.row0.y * p.x + self.row1.y * p.y + self.row2.y * p.z + self.row3.y,
            z: self.row0.z * p.x + self.row1.z * p.y + self.row2.z * p.z + self.row3.z,
            w: self.row0.w * p.x + self.row1.w * p.y + self.row2.w * p.z + self.row3.w,
        }
    }

    // A direction, of which w is 0: no translation.
    pub fn transform_vector(self, v: Vec3) -> Vec3
        ensures { result ≡ vector_of self v }
    {
        Vec3 {
            x: self.row0.x * v.x + self.row1.x * v.y + self.row2.x * v.z,
            y: self.row0.y * v.x + self.row1.y * v.y + self.row2.y * v.z,
            z: self.row0.z * v.x + self.row1.z * v.y + self.row2.z * v.z,
        }
    }
}
