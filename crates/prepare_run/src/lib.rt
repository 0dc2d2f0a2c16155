// The turns of the program `prepare`, over descriptors: an input is read, and the dump of its mesh is written.
#![tactic(auto)]

ghost use Rattle.std.specs.Prelude.{◌≡◌, ◌+◌, ◌*◌, ◌≤◌, length};
ghost use Rattle.io.specs.Counts.{IsPrefixLen as CountsIn};
ghost use Rattle.mesh_input.specs.Input.{length_of};
ghost use Rattle.dump_sections.specs.Sizes.{Small};

use dumping::dump_geometry;
use dumping_bvh::dump_bvh;
use hex_lines::lines::refused_line;
use mesh_input::{bound_of, check, counts_of, length_of, put_words};
use meshes::kind::Kind;
use meshes::{Bound, Counts};

fn dump_mesh(
    to: i32,
    bound: Bound,
    counts: Counts,
    polygons: &[u8],
    numbers: &[u8],
    mats: &[u32],
    vertices: &[u32],
)
    requires { Small counts }
{
    match Kind::try_from(bound.kind) {
        Ok(Kind::Geometry) => dump_geometry(to, bound, counts, polygons, numbers, mats, vertices),
        _ => dump_bvh(to, bound, counts, polygons, numbers, mats, vertices),
    }
}

// Materials and vertices are lent as words, the records and the numbers as they stand in the input.
fn dump_counted(to: i32, bound: Bound, counts: Counts, input: &[u8])
    requires { (length_of counts ≡ length input.now) × (length input.now ≤ 8192) }
{
    let m = counts.materials;
    let v = counts.vertices;
    let first_vertex = 148 + 8 * m;
    let first_polygon = first_vertex + 12 * v;
    let first_number = first_polygon + 16 * counts.polygons;
    let mut mats = [0u32; 2048];
    put_words(&mut mats, input, 148, 2 * m);
    let mut vertices = [0u32; 2048];
    put_words(&mut vertices, input, first_vertex, 3 * v);
    dump_mesh(
        to,
        bound,
        counts,
        &input[first_polygon..first_number],
        &input[first_number..],
        &mats,
        &vertices,
    );
}

// What `prepare` prints for an input.
fn dump(to: i32, input: &[u8]) {
    match check(input) {
        Ok(()) => dump_counted(to, bound_of(input), counts_of(input), input),
        Err(why) => refused_line(to, u64::from(why)),
    }
}

// Reads an input and writes what `prepare` prints for it. One byte over the limit is enough to know that an input is over it.
pub fn run(from: i32, to: i32) {
    let mut input = [0u8; 8193];
    let n = io::read_full(from, &mut input);
    dump(to, &input[..n]);
}

// How many bytes of an input stand behind its header; none over the limit is read.
fn rest_of(input: &[u8]) -> usize
    requires { 148 ≤ length input.now }
    ensures { result ≤ 8044 }
{
    let length = length_of(input);
    if length > 8192 { 8044 } else { length - 148 }
}

fn read_header(from: i32, input: &mut [u8]) -> usize
    requires { 148 ≤ length input.old }
{
    io::read_full(from, &mut input[..148])
}

// Reads what stands behind the header; how many bytes there are with it.
fn read_rest(from: i32, input: &mut [u8], rest: usize) -> usize
    requires { (rest ≤ 8044) × (8192 ≤ length input.old) }
    ensures { CountsIn result input.new }
{
    let end = 148 + rest;
    148 + io::read_full(from, &mut input[148..end])
}

// Reads the next of several inputs, which stand one after another, and writes what `prepare` prints for it. The answer is whether there was one.
pub fn run_next(from: i32, to: i32) -> bool {
    let mut input = [0u8; 8192];
    if read_header(from, &mut input) < 148 {
        return false;
    }
    let rest = rest_of(&input);
    let read = read_rest(from, &mut input, rest);
    dump(to, &input[..read]);
    true
}
