// What preparing a mesh answers, and its frame.
#![tactic(auto)]

pub mod frames;

use bvh::slices::BuiltTree;
use math::vec3::Vec3;
use meshes::Frame;
use octants::lists::OctantCounts;

// What a prepared geometry then has besides its lists. `materials` are counted before the list is filled.
#[derive(Clone, Copy)]
pub struct Values {
    pub frame: Frame,
    pub quantum: Vec3,
    pub materials: usize,
}

// Kind 4, with how many each octant has; kind 8 with its tree; kind 8 without polygons, and so without a tree.
#[derive(Clone, Copy)]
pub enum Prepared {
    Geometry(Values, OctantCounts),
    Bvh(Values, BuiltTree),
    Empty(Values),
}
