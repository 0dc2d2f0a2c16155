// The dump of a mesh of kind 4, which is prepared in buffers that are long enough for one of 8,192 bytes: at most 473 polygons or 670 vertices.
#![tactic(auto)]

ghost use Rattle.dump_sections.specs.Sizes.{Small};

use dump_sections::printing::print_geometry;
use geometry::prepare_geometry;
use meshes::{Bound, BvhLengths, Counts};

pub fn dump_geometry(
    to: i32,
    bound: Bound,
    counts: Counts,
    polygons: &[u8],
    numbers: &[u8],
    mats: &[u32],
    vertices: &[u32],
)
    requires { Small counts }
{
    let mut list = [0u8; 2048];
    let mut indices = [0u8; 512];
    let mut polygons_out = [0u8; 8192];
    let mut stored = [0u8; 4096];
    let mut floats = [0u32; 2048];
    let mut shrunk = [0u8; 4096];
    let mut shrunk_floats = [0u32; 2048];
    let mut octants = [0u32; 5376];
    let mut entries = [0u32; 3328];
    let mut places = [0u32; 2048];
    let mut temp = [0u32; 1536];
    let mut stack = [0u32; 1536];
    let mut rows = [0u32; 7680];
    let mut points = [0u32; 2048];
    let mut centres = [0.0f32; 1920];
    let mut olds = [0.0f32; 4352];
    let mut news = [0.0f32; 4352];
    let others = BvhLengths {
        node_bytes: 15360,
        tree_bytes: 15360,
        order: 512,
        sorted: 512,
    };
    let answer = prepare_geometry(
        bound,
        counts,
        others,
        polygons,
        numbers,
        mats,
        vertices,
        &mut list,
        &mut indices,
        &mut polygons_out,
        &mut stored,
        &mut floats,
        &mut shrunk,
        &mut shrunk_floats,
        &mut octants,
        &mut entries,
        &mut places,
        &mut temp,
        &mut stack,
        &mut rows,
        &mut points,
        &mut centres,
        &mut olds,
        &mut news,
    );
    print_geometry(
        to,
        counts,
        answer,
        &list,
        &indices,
        &polygons_out,
        &stored,
        &floats,
        &shrunk,
        &shrunk_floats,
        &octants,
    );
}
