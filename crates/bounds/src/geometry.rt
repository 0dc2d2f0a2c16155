// Polygons, the links of their triangles, their materials, and stored vertices.
ghost use Rattle.std.specs.Prelude.{◌≡◌, length};
ghost use Rattle.materials.specs.Materials.{values_of};
ghost use Rattle.polygon.specs.Answers.{read_of};
ghost use Rattle.math.specs.Stored.{values_of as point_of};
ghost use Rattle.polygon_boxes.specs.Boxes.{vertex_words, grown_box, pair_box, four_box, triangle_box};
ghost use Rattle.float_boxes.specs.Floats.{triangle_floats, moved_floats};
ghost use Rattle.vertices.specs.Vertices.{quantum_of_box, stored_of, read_back_of};
ghost use Rattle.polygon_answers.specs.Geometry.{read_answer, WroteStruct, box_answer, ItemsAnswered, edges_work_len, EdgesAnswered, MaterialsAnswered};

use edges::entry::update_edge_indices;
use float_boxes::{
    FloatBox, box_of_three, moved_box, nan_in_sums, nan_in_three, not_told, vertices_at, within,
};
use materials::building::build_materials;
use math::aabb::Aabb;
use math::vec3::Vec3;
use polygon_answers::{BoxAnswer, MaterialsAnswer, PolygonC, ReadAnswer};
use polygon_boxes::PolygonBox;
use polygon_items::polygon_items;
use records::BoundVertex;

// The polygon of a record's first 16 bytes.
#[unsafe(no_mangle)]
pub extern "C" fn bounds_polygon_read(bytes: &[u8]) -> ReadAnswer
    ensures { result ≡ read_answer (read_of bytes.now) }
{
    polygon_answers::read_struct(bytes)
}

// ---- writing

// The 16 bytes of a polygon; 01's number, 0 where it is not refused.
#[unsafe(no_mangle)]
pub extern "C" fn bounds_polygon_write(out: &mut [u8], polygon: PolygonC) -> u32
    ensures { WroteStruct polygon out.old out.new result }
{
    polygon_answers::write_struct(out, polygon)
}

// ---- the box

// The box of a polygon over its vertices, three words each.
#[unsafe(no_mangle)]
pub extern "C" fn bounds_polygon_bbox(polygon: PolygonC, vertices: &[u32]) -> BoxAnswer
    ensures { result ≡ box_answer polygon vertices.now }
{
    polygon_answers::struct_box(polygon, vertices)
}

// ---- the box by the kind: numbers go in registers, where a polygon is copied

// Bit 15 of a triangle's vertex numbers is left out.
#[unsafe(no_mangle)]
pub extern "C" fn bounds_triangle_word_box(
    v1: u16,
    v2: u16,
    v3: u16,
    vertices: &[u32],
) -> PolygonBox
    ensures { result ≡ triangle_box vertices.now v1 v2 v3 }
{
    polygon_boxes::kinds::triangle_box(v1, v2, v3, vertices)
}

// The same by floats, where none of them is a NaN. The two spare floats have no meaning.
#[unsafe(no_mangle)]
pub extern "C" fn bounds_triangle_float_box(v1: u16, v2: u16, v3: u16, vertices: &[f32]) -> FloatBox
    ensures { result ≡ triangle_floats vertices.now v1 v2 v3 }
{
    let i = (v1 % 32768) as u32;
    let j = (v2 % 32768) as u32;
    let k = (v3 % 32768) as u32;
    if within(i, j, k, k, vertices.len()) {
        let v = vertices_at(vertices, i, j, k, k);
        if nan_in_three(v) {
            return not_told();
        }
        return box_of_three(v);
    }
    not_told()
}

// The same of the other kinds, with no branch on the kind. Numbers of 32 bits come as they are, where those of 16 are widened.
#[unsafe(no_mangle)]
pub extern "C" fn bounds_moved_float_box(
    i1: u32,
    i2: u32,
    i3: u32,
    i4: u32,
    low: f32,
    high: f32,
    vertices: &[f32],
) -> FloatBox
    ensures { result ≡ moved_floats vertices.now i1 i2 i3 i4 low high }
{
    if within(i1, i2, i3, i4, vertices.len()) {
        let v = vertices_at(vertices, i1, i2, i3, i4);
        if nan_in_sums(v, low, high) {
            return not_told();
        }
        return moved_box(v, low, high);
    }
    not_told()
}

#[unsafe(no_mangle)]
pub extern "C" fn bounds_sphere_bbox(index: u16, radius: f32, vertices: &[u32]) -> PolygonBox
    ensures { result ≡ grown_box (point_of (vertex_words vertices.now index)) (point_of (vertex_words vertices.now index)) radius }
{
    polygon_boxes::kinds::sphere_box(index, radius, vertices)
}

// Of a cylinder too.
#[unsafe(no_mangle)]
pub extern "C" fn bounds_capsule_bbox(i1: u16, i2: u16, radius: f32, vertices: &[u32]) -> PolygonBox
    ensures { result ≡ pair_box (vertex_words vertices.now i1) (vertex_words vertices.now i2) radius }
{
    polygon_boxes::kinds::capsule_box(i1, i2, radius, vertices)
}

#[unsafe(no_mangle)]
pub extern "C" fn bounds_box_bbox(
    i1: u16,
    i2: u16,
    i3: u16,
    i4: u16,
    vertices: &[u32],
) -> PolygonBox
    ensures { result ≡ four_box (vertex_words vertices.now i1) (vertex_words vertices.now i2)
        (vertex_words vertices.now i3)
        (vertex_words vertices.now i4) }
{
    polygon_boxes::kinds::box_box(i1, i2, i3, i4, vertices)
}

// ---- the boxes of a list

// The boxes of n records over their vertices, three words each, as the entries that a build takes: the mark 1 and six words.
#[unsafe(no_mangle)]
pub extern "C" fn bounds_polygon_items(
    polygons: &[u8],
    polygon_count: usize,
    vertices: &[u32],
    items: &mut [u32],
) -> u32
    ensures { ItemsAnswered polygon_count polygons.now vertices.now items.old items.new result }
{
    polygon_answers::polygons_number(polygon_items(polygon_count, polygons, vertices, items))
}

// ---- links

// The words that linking n polygons works in, all parts together: 3n for each of the five.
#[unsafe(no_mangle)]
pub extern "C" fn bounds_edges_work_len(polygons: u32) -> u64
    ensures { result ≡ edges_work_len polygons }
{
    polygon_answers::edges_work_len(polygons)
}

// Stores the links of the triangles among n records. What it works in is lent in five parts: corners, keys, sides, spare and links.
#[unsafe(no_mangle)]
pub extern "C" fn bounds_update_edge_indices(
    polygons: &mut [u8],
    polygon_count: usize,
    corners: &mut [u32],
    keys: &mut [u32],
    sides: &mut [u32],
    spare: &mut [u32],
    links: &mut [u32],
) -> u32
    ensures { EdgesAnswered polygon_count
        (record {
          polygons = length polygons.old;
          corners = length corners.old;
          keys = length keys.old;
          sides = length sides.old;
          spare = length spare.old;
          links = length links.old;
        })
        polygons.old polygons.new result }
{
    polygon_answers::polygons_number(update_edge_indices(
        polygons,
        polygon_count,
        corners,
        keys,
        sides,
        spare,
        links,
    ))
}

// ---- materials

// The materials that the polygons use, each once, and each polygon's index among them: `numbers` has the number of each polygon's
// material, `mats` the materials, two words each.
#[unsafe(no_mangle)]
pub extern "C" fn bounds_build_materials(
    polygon_count: usize,
    numbers: &[u8],
    material_count: usize,
    mats: &[u32],
    list: &mut [u8],
    indices: &mut [u8],
) -> MaterialsAnswer
    ensures { MaterialsAnswered polygon_count material_count
        (record {
          numbers = length numbers.now;
          mats = length mats.now;
          list = length list.old;
          indices = length indices.old;
        })
        (values_of material_count mats.now polygon_count numbers.now)
        list.old list.new indices.old indices.new result }
{
    polygon_answers::materials_answer(build_materials(
        polygon_count,
        numbers,
        material_count,
        mats,
        list,
        indices,
    ))
}

// ---- stored vertices

#[unsafe(no_mangle)]
pub extern "C" fn bounds_quantum(b: Aabb) -> Vec3
    ensures { result ≡ quantum_of_box b }
{
    vertices::quantum(b)
}

#[unsafe(no_mangle)]
pub extern "C" fn bounds_stored_vertex(v: Vec3, quantum: Vec3) -> BoundVertex
    ensures { result ≡ stored_of v quantum }
{
    vertices::stored(v, quantum)
}

#[unsafe(no_mangle)]
pub extern "C" fn bounds_read_back(v: BoundVertex, quantum: Vec3) -> Vec3
    ensures { result ≡ read_back_of v quantum }
{
    vertices::read_back(v, quantum)
}
