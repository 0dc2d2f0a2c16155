// Lists of polygon records: their kinds, and the corners and links of their triangles. Both are three words a polygon; 65535 is none.
#![tactic(auto)]

ghost use Rattle.std.specs.Prelude.{◌≡◌, [], ◌∷◌, ◌+◌, ◌*◌, ◌%◌, ◌<◌, ◌≤◌, length};
ghost use Rattle.std.proofs.lemmas.List.Edits.{sets};
ghost use Rattle.base.specs.Lists.{over};
ghost use Rattle.base.specs.LittleEndian.{little_endian};
ghost use Rattle.corners.specs.Corners.{kinds_known, corner_of, corners_at, corners_of, link_bytes, linked_record, links_put};

use base::little_endian::{put_le, two_at};
use polygon::reading::kind_at;

// Whether none of the first n records is of kind 5, 6 or 7.
pub fn kinds_known(polygons: &[u8], n: usize) -> bool
    requires { 16 * n ≤ length polygons.now }
    ensures { result ≡ kinds_known n polygons.now }
{
    (0..n).all(|i| kind_at(polygons, 16 * i) <= 4)
}

// A vertex number without its flag, bit 15.
fn unflagged(v: u32) -> u32
    ensures { result ≡ v % 32768 }
{
    v % 32768
}

// The corner of a triangle.
pub fn corner(polygons: &[u8], p: usize, slot: usize) -> u32
    requires { (16 * p + 16 ≤ length polygons.now) × (slot < 3) }
    ensures { result ≡ corner_of polygons.now p slot }
{
    unflagged(two_at(polygons, 16 * p + 4 + 2 * slot))
}

fn set_three(words: &mut [u32], at: usize, a: u32, b: u32, c: u32)
    requires { at + 3 ≤ length words.old }
    ensures { words.new ≡ sets words.old at (a ∷ b ∷ c ∷ []) }
{
    words[at] = a;
    words[at + 1] = b;
    words[at + 2] = c;
}

// The three corners of polygon p, at their place in the list.
fn unpack_one(polygons: &[u8], p: usize, corners: &mut [u32])
    requires { (16 * p + 16 ≤ length polygons.now) × (3 * p + 3 ≤ length corners.old) }
    ensures { corners.new ≡ sets corners.old (3 * p) (corners_at polygons.now p) }
{
    if kind_at(polygons, 16 * p) == 0 {
        let first = corner(polygons, p, 0);
        let second = corner(polygons, p, 1);
        let third = corner(polygons, p, 2);
        set_three(corners, 3 * p, first, second, third);
    } else {
        set_three(corners, 3 * p, 65535, 65535, 65535);
    }
}

// The corners of the first n polygons.
pub fn unpack_corners(polygons: &[u8], n: usize, corners: &mut [u32])
    requires { (16 * n ≤ length polygons.now) × (3 * n ≤ length corners.old) }
    ensures { corners.new ≡ over (corners_of n polygons.now) corners.old }
{
    for i in 0..n {
        unpack_one(polygons, i, corners);
    }
}

fn put_half(out: &mut [u8], at: usize, link: u32)
    requires { at + 2 ≤ length out.old }
    ensures { out.new ≡ sets out.old at (little_endian 2 link) }
{
    put_le(out, at, 2, link as u64);
}

// The links of polygon p, at the end of its record.
fn put_three(polygons: &mut [u8], p: usize, links: &[u32])
    requires { (16 * p + 16 ≤ length polygons.old) × (3 * p + 3 ≤ length links.now) }
    ensures { polygons.new ≡ sets polygons.old (16 * p + 10) (link_bytes links.now p) }
{
    let at = 16 * p + 10;
    put_half(polygons, at, links[3 * p]);
    put_half(polygons, at + 2, links[3 * p + 1]);
    put_half(polygons, at + 4, links[3 * p + 2]);
}

// The links of polygon p, if it is a triangle.
fn put_one(polygons: &mut [u8], p: usize, links: &[u32])
    requires { (16 * p + 16 ≤ length polygons.old) × (3 * p + 3 ≤ length links.now) }
    ensures { polygons.new ≡ sets polygons.old (16 * p) (linked_record links.now polygons.old p) }
{
    if kind_at(polygons, 16 * p) == 0 {
        put_three(polygons, p, links);
    }
}

// The links of the first n polygons, in the records of the triangles; no other byte is changed.
pub fn put_links(polygons: &mut [u8], n: usize, links: &[u32])
    requires { (16 * n ≤ length polygons.old) × (3 * n ≤ length links.now) }
    ensures { polygons.new ≡ links_put n links.now polygons.old }
{
    for i in 0..n {
        put_one(polygons, i, links);
    }
}
