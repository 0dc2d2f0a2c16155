// The sections of a dump. Counts that preparing answered are clamped to what the buffers hold, so that any answer can be printed.
ghost use Rattle.std.specs.Prelude.{◌+◌, ◌≤◌, length};
ghost use Rattle.dump_sections.specs.Sizes.{Small};

use bvh::slices::BuiltTree;
use hex_lines::lines::{bytes_line, spelled_line, words_part};
use io::write_all;
use math::vec3::Vec3;
use math::words3::bits;
use meshes::{Counts, Frame};
use octants::lists::OctantCounts;
use prepared::Values;

// The low 32 bits.
fn low_word(n: usize) -> u32 {
    (n % 4294967296) as u32
}

fn frame_line(to: i32, f: Frame) {
    let a = f.box_min;
    let b = f.box_max;
    let c = f.box_center;
    let s = f.sphere_center;
    let words = [
        a.x,
        a.y,
        a.z,
        b.x,
        b.y,
        b.z,
        c.x,
        c.y,
        c.z,
        s.x,
        s.y,
        s.z,
        f.sphere_radius,
    ];
    spelled_line(to, b"frame ", &words, 13);
}

fn quantum_line(to: i32, quantum: Vec3) {
    let q = bits(quantum);
    spelled_line(to, b"quantum ", &[q.x, q.y, q.z], 3);
}

// What both kinds have besides their lists.
pub fn values_lines(to: i32, values: Values) {
    frame_line(to, values.frame);
    quantum_line(to, values.quantum);
    spelled_line(to, b"materials ", &[low_word(values.materials)], 1);
}

fn octant_counts(c: OctantCounts) -> [u32; 8] {
    [c.c0, c.c1, c.c2, c.c3, c.c4, c.c5, c.c6, c.c7]
}

// How many each octant has: none where no octants are listed.
pub fn octants_line(to: i32, c: Option<OctantCounts>) {
    let words = c.map_or([0; 8], octant_counts);
    spelled_line(to, b"octants ", &words, 8);
}

fn tree_words(t: BuiltTree) -> [u32; 19] {
    let a = t.min;
    let b = t.max;
    let scale = t.scale;
    let c = bits(scale.cen);
    let i = bits(scale.inverse);
    let q = bits(scale.quantum);
    let n = low_word(t.nodes);
    let m = low_word(t.capacity);
    let k = low_word(t.trees);
    let p = low_word(t.present);
    [
        n, m, k, p, a.x, a.y, a.z, b.x, b.y, b.z, c.x, c.y, c.z, i.x, i.y, i.z, q.x, q.y, q.z,
    ]
}

// The values of a tree: zeros where there is none.
pub fn tree_line(to: i32, t: Option<BuiltTree>) {
    let words = t.map_or([0; 19], tree_words);
    spelled_line(to, b"tree ", &words, 19);
}

// The materials of the list, which is filled to four.
fn list_line(to: i32, materials: usize, list: &[u8])
    requires { 2048 ≤ length list.now }
{
    bytes_line(to, b"list ", list, 8 * materials.clamp(4, 256));
}

// The lists that both kinds have.
pub fn lists_lines(
    to: i32,
    c: Counts,
    materials: usize,
    list: &[u8],
    indices: &[u8],
    polygons: &[u8],
    stored: &[u8],
    floats: &[u32],
)
    requires { (Small c) × (2048 ≤ length list.now) × (512 ≤ length indices.now) × (8192 ≤ length polygons.now)
        × (4096 ≤ length stored.now) × (2048 ≤ length floats.now) }
{
    let p = c.polygons;
    let v = c.vertices;
    list_line(to, materials, list);
    bytes_line(to, b"indices ", indices, p);
    bytes_line(to, b"polygons ", polygons, 16 * p);
    bytes_line(to, b"vertices ", stored, 6 * v);
    spelled_line(to, b"floats ", floats, 3 * v);
}

// An octant's list, which stands at the start of its part of v words.
fn write_octant(to: i32, octants: &[u32], at: usize, v: usize, count: u32)
    requires { (at + v ≤ length octants.now) × (v ≤ 670) }
{
    words_part(to, octants, at, v.min(count as usize));
}

fn octant_lists_line(to: i32, v: usize, c: OctantCounts, octants: &[u32])
    requires { (v ≤ 670) × (5376 ≤ length octants.now) }
{
    write_all(to, b"lists ");
    for (k, count) in octant_counts(c).iter().enumerate() {
        write_octant(to, octants, k * v, v, *count);
    }
    write_all(to, b"\n");
}

// What kind 4 alone has.
pub fn hull_lines(
    to: i32,
    v: usize,
    c: OctantCounts,
    shrunk: &[u8],
    shrunk_floats: &[u32],
    octants: &[u32],
)
    requires { (v ≤ 670) × (4096 ≤ length shrunk.now) × (2048 ≤ length shrunk_floats.now) × (5376 ≤ length octants.now) }
{
    bytes_line(to, b"shrunk ", shrunk, 6 * v);
    spelled_line(to, b"shrunk_floats ", shrunk_floats, 3 * v);
    octant_lists_line(to, v, c, octants);
}

// The first `count` records of 16 bytes.
fn records_line(to: i32, name: &[u8], bytes: &[u8], count: usize)
    requires { 15360 ≤ length bytes.now }
{
    bytes_line(to, name, bytes, 16 * count.min(960));
}

// What kind 8 alone has.
pub fn tree_lines(
    to: i32,
    p: usize,
    t: BuiltTree,
    node_bytes: &[u8],
    tree_bytes: &[u8],
    order: &[u16],
)
    requires { (p ≤ 473) × (15360 ≤ length node_bytes.now) × (15360 ≤ length tree_bytes.now) × (512 ≤ length order.now) }
{
    records_line(to, b"nodes ", node_bytes, t.capacity);
    records_line(to, b"trees ", tree_bytes, t.trees);
    spelled_line(to, b"order ", order, p);
}
