// The lines of the listing, put into a lent buffer as text is.
ghost use Rattle.std.specs.Prelude.{◌≡◌, ℕ, ◌+◌, ◌*◌, ◌<◌, ◌≤◌, List, length};
ghost use Rattle.records.specs.Records.{node_at, tree_at};
ghost use Rattle.listing.specs.Lines.{vertex_fields, record_line, node_line, tree_line, lines, counts_line, refused_line};
ghost use Rattle.listing.specs.Text.{Put};

use crate::text::{put_byte, put_decimal, put_field, put_text};
use records::{BoundVertex, BvhNode, BvhTree};

fn put_vertex(out: &mut [u8], at: usize, v: BoundVertex) -> usize
    requires { at + 21 ≤ length out.old }
    ensures { Put 21 (vertex_fields v) out.old at out.new result }
{
    let y = put_field(out, at, v.0);
    let z = put_field(out, y, v.1);
    put_field(out, z, v.2)
}

// The line of a record: what it is, its number, its box and its two numbers.
fn put_record(
    out: &mut [u8],
    at: usize,
    word: &[u8],
    number: usize,
    min: BoundVertex,
    max: BoundVertex,
    one: i16,
    two: i16,
) -> usize
    requires { (at + 67 ≤ length out.old) × (length word.now ≡ 5) × (number < 100000) }
    ensures { Put 67 (record_line word.now number min max one two) out.old at out.new result }
{
    let numbered = put_text(out, at, word);
    let low = put_decimal(out, numbered, number as u64);
    let high = put_vertex(out, low, min);
    let first = put_vertex(out, high, max);
    let second = put_field(out, first, one);
    let end = put_field(out, second, two);
    put_byte(out, end, b'\n')
}

// A record of which the listing has lines.
pub trait Shown: Copy {
    // The line of a record by its number, and the record that stands in some bytes from a place on.
    ghost line: { ℕ → Self → List ℕ };

    ghost stands: { List ℕ → ℕ → Self };

    fn read(bytes: &[u8], i: usize) -> Self
        requires { 16 * i + 16 ≤ length bytes.now }
        ensures { result ≡ stands bytes.now (16 * i) };

    fn put_line(self, out: &mut [u8], at: usize, number: usize) -> usize
        requires { (at + 67 ≤ length out.old) × (number < 100000) }
        ensures { Put 67 (line number self) out.old at out.new result };
}

impl Shown for BvhNode {
    ghost line = { node_line };

    ghost stands = { node_at };

    fn read(bytes: &[u8], i: usize) -> BvhNode {
        walk::reader::read_node(bytes, i)
    }

    fn put_line(self, out: &mut [u8], at: usize, number: usize) -> usize {
        put_record(
            out,
            at,
            b"node ",
            number,
            self.min,
            self.max,
            self.item_id,
            self.item_count,
        )
    }
}

impl Shown for BvhTree {
    ghost line = { tree_line };

    ghost stands = { tree_at };

    fn read(bytes: &[u8], i: usize) -> BvhTree {
        records::tree_at(bytes, 16 * i)
    }

    fn put_line(self, out: &mut [u8], at: usize, number: usize) -> usize {
        put_record(
            out,
            at,
            b"tree ",
            number,
            self.min,
            self.max,
            self.node_index1,
            self.node_index2,
        )
    }
}

// The lines of the first `count` records of a kind.
pub fn put_lines<R: Shown>(out: &mut [u8], at: usize, bytes: &[u8], count: usize) -> usize
    requires { (at + 67 * count ≤ length out.old) × (16 * count ≤ length bytes.now) × (count ≤ 100000) }
    ensures { Put (67 * count) (lines (λ i. R.line i (R.stands bytes.now (16 * i))) count) out.old at out.new result }
{
    let mut end = at;
    for i in 0..count {
        end = R::read(bytes, i).put_line(out, end, i);
    }
    end
}

// The line of count and capacity.
pub fn put_counts(out: &mut [u8], at: usize, count: usize, capacity: usize) -> usize
    requires { (at + 18 ≤ length out.old) × (count < 100000) × (capacity < 100000) }
    ensures { Put 18 (counts_line count capacity) out.old at out.new result }
{
    let first = put_text(out, at, b"nodes ");
    let space = put_decimal(out, first, count as u64);
    let second = put_byte(out, space, b' ');
    let end = put_decimal(out, second, capacity as u64);
    put_byte(out, end, b'\n')
}

// The line of a refusal.
pub fn put_refusal(out: &mut [u8], at: usize, number: u64) -> usize
    requires { (at + 14 ≤ length out.old) × (number < 100000) }
    ensures { Put 14 (refused_line number) out.old at out.new result }
{
    let first = put_text(out, at, b"refused ");
    let end = put_decimal(out, first, number);
    put_byte(out, end, b'\n')
}
