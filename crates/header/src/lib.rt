// The header of a tree: where its nodes and ranges are, the box around its items, and the units of its records.
#![tactic(auto)]

ghost use Rattle.std.specs.Prelude.{◌≡◌, ◌+◌, ◌≤◌, length};
ghost use Rattle.std.proofs.lemmas.List.Edits.{sets};
ghost use Rattle.header.specs.Header.{node_list_bytes, point_bytes, points_bytes, tree_list_bytes, Headed};

use base::little_endian::put_le;
use math::words3::Words3;

// Every point is words, which are copied: a NaN in it keeps its bits.
#[repr(C)]
#[derive(Clone, Copy)]
pub struct Bvh {
    pub nodes_address: u64,
    pub nodes_count: u32,
    pub nodes_capacity: u32,
    pub bb_min: Words3,
    pub bb_max: Words3,
    pub bb_center: Words3,
    pub quantum_inverse: Words3,
    pub quantum: Words3,
    pub trees_address: u64,
    pub trees_count: u32,
}

#[derive(Clone, Copy)]
pub enum HeaderRefusal {
    TooManyTrees,
    BufferTooShort,
}

fn put_node_list(out: &mut [u8], h: Bvh)
    requires { 32 ≤ length out.old }
    ensures { out.new ≡ sets out.old 0 (node_list_bytes h) }
{
    put_le(out, 0, 8, h.nodes_address);
    put_le(out, 8, 4, h.nodes_count as u64);
    put_le(out, 12, 4, h.nodes_capacity as u64);
    put_le(out, 16, 16, 0);
}

// A point, with a NaN of the source's for its w.
fn put_point(out: &mut [u8], at: usize, p: Words3)
    requires { at + 16 ≤ length out.old }
    ensures { out.new ≡ sets out.old at (point_bytes p) }
{
    put_le(out, at, 4, p.x as u64);
    put_le(out, at + 4, 4, p.y as u64);
    put_le(out, at + 8, 4, p.z as u64);
    put_le(out, at + 12, 4, 0xffc0_0000);
}

fn put_points(out: &mut [u8], h: Bvh)
    requires { 112 ≤ length out.old }
    ensures { out.new ≡ sets out.old 32 (points_bytes h) }
{
    put_point(out, 32, h.bb_min);
    put_point(out, 48, h.bb_max);
    put_point(out, 64, h.bb_center);
    put_point(out, 80, h.quantum_inverse);
    put_point(out, 96, h.quantum);
}

fn put_tree_list(out: &mut [u8], h: Bvh)
    requires { 128 ≤ length out.old }
    ensures { out.new ≡ sets out.old 112 (tree_list_bytes h) }
{
    put_le(out, 112, 8, h.trees_address);
    put_le(out, 120, 2, h.trees_count as u64);
    put_le(out, 122, 2, h.trees_count as u64);
    put_le(out, 124, 4, 0);
}

// The 128 bytes of the header, or a refusal that changes no byte.
pub fn tree_header(out: &mut [u8], h: Bvh) -> Result<(), HeaderRefusal>
    ensures { Headed h out.old out.new result }
{
    if h.trees_count > 65535 {
        return Err(HeaderRefusal::TooManyTrees);
    }
    if out.len() < 128 {
        return Err(HeaderRefusal::BufferTooShort);
    }
    put_node_list(out, h);
    put_points(out, h);
    put_tree_list(out, h);
    Ok(())
}
