// The dump of a mesh of another kind, which is prepared in buffers that are long enough for one of 8,192 bytes: at most 473 polygons or 670 vertices.
#![tactic(auto)]

ghost use Rattle.dump_sections.specs.Sizes.{Small};

use dump_sections::printing::print_bvh;
use geometry_bvh::prepare_bvh;
use meshes::{Bound, Counts, GeometryLengths};

// Not one function with `dump_geometry`: four buffers are made for this kind alone and five for that one, and there is no heap to hold either.
pub fn dump_bvh(
    to: i32,
    bound: Bound,
    counts: Counts,
    polygons: &[u8],
    numbers: &[u8],
    mats: &[u32],
    vertices: &[u32],
)
    requires { Small counts }
{
    let mut list = [0u8; 2048];
    let mut indices = [0u8; 512];
    let mut polygons_out = [0u8; 8192];
    let mut stored = [0u8; 4096];
    let mut floats = [0u32; 2048];
    let mut node_bytes = [0u8; 15360];
    let mut tree_bytes = [0u8; 15360];
    let mut order = [0u16; 512];
    let mut entries = [0u32; 3328];
    let mut places = [0u32; 2048];
    let mut temp = [0u32; 1536];
    let mut stack = [0u32; 1536];
    let mut rows = [0u32; 7680];
    let mut points = [0u32; 2048];
    let mut sorted = [0u8; 512];
    let mut centres = [0.0f32; 1920];
    let others = GeometryLengths {
        shrunk: 4096,
        shrunk_floats: 2048,
        octants: 5376,
        olds: 4352,
        news: 4352,
    };
    let answer = prepare_bvh(
        bound,
        counts,
        others,
        polygons,
        numbers,
        mats,
        vertices,
        &mut list,
        &mut indices,
        &mut polygons_out,
        &mut stored,
        &mut floats,
        &mut node_bytes,
        &mut tree_bytes,
        &mut order,
        &mut entries,
        &mut places,
        &mut temp,
        &mut stack,
        &mut rows,
        &mut points,
        &mut sorted,
        &mut centres,
    );
    print_bvh(
        to,
        counts,
        answer,
        &list,
        &indices,
        &polygons_out,
        &stored,
        &floats,
        &node_bytes,
        &tree_bytes,
        &order,
    );
}
