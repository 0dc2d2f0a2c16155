// A record whose two numbers are read apart from its box. The eight shorts of a record are compared with the query as one vector, and numbers
// taken out of a vector keep the loops waiting; four bytes in one expression are a load of their own.
ghost use Rattle.std.specs.Prelude.{◌≡◌, ◌+◌, ◌/◌, ◌%◌, ◌≤◌, ◌<◌, length};
ghost use Rattle.base.specs.LittleEndian.{le_at};
ghost use Rattle.float32.specs.Casts.{signed16};
ghost use Rattle.records.specs.Shorts.{short_at};
ghost use Rattle.records.specs.Records.{node_at, tree_at};

use records::{BvhNode, BvhTree};

#[derive(Clone, Copy)]
pub struct Numbers {
    pub first: i16,
    pub second: i16,
}

fn wide(byte: u8) -> u32
    ensures { (result ≡ byte) × (result < 256) }
{
    byte as u32
}

// The numbers of two bytes and two from `at` on, the second in the upper half.
fn two_and_two(bytes: &[u8], at: usize) -> u32
    requires { at + 4 ≤ length bytes.now }
    ensures { (result % 65536 ≡ le_at 2 bytes.now at) × (result / 65536 ≡ le_at 2 bytes.now (at + 2)) }
{
    let a = wide(bytes[at]);
    let b = wide(bytes[at + 1]);
    let c = wide(bytes[at + 2]);
    let d = wide(bytes[at + 3]);
    a + 256 * b + 65536 * c + 16777216 * d
}

fn short(bits: u32) -> i16
    requires { bits < 65536 }
    ensures { result ≡ signed16 bits }
{
    float32::casts::wrap_i16(bits as i32)
}

fn numbers_at(bytes: &[u8], at: usize) -> Numbers
    requires { at + 4 ≤ length bytes.now }
    ensures { (result.first ≡ short_at bytes.now at) × (result.second ≡ short_at bytes.now (at + 2)) }
{
    let word = two_and_two(bytes, at);
    Numbers {
        first: short(word % 65536),
        second: short(word / 65536),
    }
}

// Two functions, here and below: the records name their two numbers differently, and their readers node_at and tree_at are two as well.
pub fn node_apart(bytes: &[u8], at: usize) -> BvhNode
    requires { at + 16 ≤ length bytes.now }
    ensures { result ≡ node_at bytes.now at }
{
    let n = records::node_at(bytes, at);
    let m = numbers_at(bytes, at + 12);
    BvhNode {
        item_id: m.first,
        item_count: m.second,
        ..n
    }
}

pub fn tree_apart(bytes: &[u8], at: usize) -> BvhTree
    requires { at + 16 ≤ length bytes.now }
    ensures { result ≡ tree_at bytes.now at }
{
    let t = records::tree_at(bytes, at);
    let m = numbers_at(bytes, at + 12);
    BvhTree {
        node_index1: m.first,
        node_index2: m.second,
        ..t
    }
}
