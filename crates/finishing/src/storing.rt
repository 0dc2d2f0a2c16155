// Vertices in units of a quantum, as three numbers of 16 bits each, and as the floats that are read back.
ghost use Rattle.std.specs.Prelude.{◌≡◌, ◌+◌, ◌*◌, ◌≤◌, length};
ghost use Rattle.std.proofs.lemmas.List.Edits.{sets};
ghost use Rattle.points.specs.Points.{words_of};
ghost use Rattle.records.specs.Records.{vertex_bytes};
ghost use Rattle.finishing.specs.Stored.{stored_at, back_at};
ghost use Rattle.finishing.specs.Steps.Finishing.{StoreRoom, Stored};

use math::vec3::Vec3;
use points::{put_point, vertex_at};
use records::BoundVertex;
use records::shorts::put_short;

fn put_triple(out: &mut [u8], at: usize, v: BoundVertex)
    requires { at + 6 ≤ length out.old }
    ensures { out.new ≡ sets out.old at (vertex_bytes v) }
{
    put_short(out, at, v.0);
    put_short(out, at + 2, v.1);
    put_short(out, at + 4, v.2);
}

// Vertex i, stored and read back, each at its place.
fn put_one(words: &[u32], i: usize, quantum: Vec3, stored: &mut [u8], floats: &mut [u32])
    requires { StoreRoom (i + 1) words.now stored.old floats.old }
    ensures { (stored.new ≡ sets stored.old (6 * i) (vertex_bytes (stored_at quantum words.now i)))
        × (floats.new ≡ sets floats.old (3 * i) (words_of (back_at quantum words.now i))) }
{
    let vertex = vertices::stored(vertex_at(words, i), quantum);
    put_triple(stored, 6 * i, vertex);
    put_point(floats, i, vertices::read_back(vertex, quantum));
}

// The first v vertices, stored and read back; what stands behind them stays.
pub fn put_stored(words: &[u32], v: usize, quantum: Vec3, stored: &mut [u8], floats: &mut [u32])
    requires { StoreRoom v words.now stored.old floats.old }
    ensures { Stored quantum words.now v stored.old stored.new floats.old floats.new }
{
    for i in 0..v {
        put_one(words, i, quantum, stored, floats);
    }
}
