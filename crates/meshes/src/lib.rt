// A mesh to prepare: its bound, its counts, the buffers that it is prepared in, and why it may be turned down.
#![tactic(auto)]

ghost use Rattle.std.specs.Prelude.{◌≡◌};
ghost use Rattle.meshes.specs.Checks.{refusal_number};

pub mod checking;
pub mod kind;

use math::mat4::Mat4;
use math::vec3::Vec3;
use math::words3::Words3;

// Box, centres and radius of a bound, as words: what is copied of them keeps its bits.
#[repr(C)]
#[derive(Clone, Copy)]
pub struct Frame {
    pub box_min: Words3,
    pub box_max: Words3,
    pub box_center: Words3,
    pub sphere_center: Words3,
    pub sphere_radius: u32,
}

// What preparing reads of a bound. `center` is the point that its vertices are about.
#[repr(C)]
#[derive(Clone, Copy)]
pub struct Bound {
    pub kind: u32,
    pub frame: Frame,
    pub margin: f32,
    pub center: Vec3,
    pub transform: Mat4,
}

#[repr(C)]
#[derive(Clone, Copy)]
pub struct Counts {
    pub polygons: usize,
    pub vertices: usize,
    pub materials: usize,
}

// The lengths of the lent buffers: what is given, what is written, and what is worked in.
#[derive(Clone, Copy)]
pub struct Lengths {
    pub polygons: usize,
    pub numbers: usize,
    pub mats: usize,
    pub vertices: usize,
    pub list: usize,
    pub indices: usize,
    pub polygons_out: usize,
    pub stored: usize,
    pub floats: usize,
    pub shrunk: usize,
    pub shrunk_floats: usize,
    pub octants: usize,
    pub node_bytes: usize,
    pub tree_bytes: usize,
    pub order: usize,
    pub entries: usize,
    pub places: usize,
    pub temp: usize,
    pub stack: usize,
    pub rows: usize,
    pub points: usize,
    pub sorted: usize,
    pub centres: usize,
    pub olds: usize,
    pub news: usize,
}

// Of them, those that kind 8 alone is lent, and those that kind 4 alone is: the other kind is told their lengths.
#[repr(C)]
#[derive(Clone, Copy)]
pub struct BvhLengths {
    pub node_bytes: usize,
    pub tree_bytes: usize,
    pub order: usize,
    pub sorted: usize,
}

#[repr(C)]
#[derive(Clone, Copy)]
pub struct GeometryLengths {
    pub shrunk: usize,
    pub shrunk_floats: usize,
    pub octants: usize,
    pub olds: usize,
    pub news: usize,
}

// Why a mesh is not prepared.
#[derive(Clone, Copy, Debug, PartialEq, Eq)]
pub enum PrepareRefusal {
    UnknownKind,
    TooMany,
    BufferTooShort,
    UnknownPolygon,
    TooManyMaterials,
    InfiniteMargin,
    TooManyNodes,
}

impl From<PrepareRefusal> for u32 {
    ghost from_gives = { λ why n. n ≡ refusal_number why };

    fn from(why: PrepareRefusal) -> u32 {
        match why {
            PrepareRefusal::UnknownKind => 6,
            PrepareRefusal::TooMany => 1,
            PrepareRefusal::BufferTooShort => 2,
            PrepareRefusal::UnknownPolygon => 6,
            PrepareRefusal::TooManyMaterials => 8,
            PrepareRefusal::InfiniteMargin => 7,
            PrepareRefusal::TooManyNodes => 4,
        }
    }
}
