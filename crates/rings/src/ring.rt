// The polygons around a vertex, walked from one to the next over their links.
ghost use Rattle.std.specs.Prelude.{MatchOption, ◌+◌, ◌*◌, ◌/◌, ◌≤◌, ◌<◌, length, ◌≡◌};
ghost use Rattle.corners.specs.Corners.{next_of};
ghost use Rattle.rings.specs.Firsts.{no_side};
ghost use Rattle.rings.specs.Rings.{side_to, other_link, arrived, onward, first_link, ring_of};
ghost use Rattle.rings.specs.Steps.Stored.{Linked, Begins};

// The polygon that the walk came from, and the one where it is. A walk that has ended is at 65535, the links' own word, which `onward` of specs/Rings compares.
#[derive(Clone, Copy)]
pub struct Walker {
    pub prev: u32,
    pub at: u32,
}

fn next_side(s: usize) -> usize
    requires { s < 98304 }
    ensures { (result ≡ next_of s) × (result / 3 ≡ s / 3) }
{
    if s % 3 == 2 { s - 2 } else { s + 1 }
}

// The first side of polygon p that leads to the vertex.
fn side_to(corners: &[u32], p: usize, v: u32) -> Option<usize>
    requires { (3 * p + 3 ≤ length corners.now) × (p < 32768) }
    ensures { MatchOption result (side_to corners.now p v ≡ no_side) (λ s. (s ≡ side_to corners.now p v) × (s / 3 ≡ p)) }
{
    let at = 3 * p;
    if corners[at + 1] == v {
        return Some(at);
    }
    if corners[at + 2] == v {
        return Some(at + 1);
    }
    if corners[at] == v {
        return Some(at + 2);
    }
    None
}

// The link that does not lead back.
fn other_link(links: &[u32], s: usize, prev: u32) -> u32
    requires { (3 * (s / 3) + 3 ≤ length links.now) × (s < 98304) }
    ensures { result ≡ other_link links.now s prev }
{
    let link = links[s];
    if link == prev {
        let t = next_side(s);
        return links[t];
    }
    link
}

// The walk ends where it comes back to the polygon of its start.
fn arrived(poly: u32, from: u32, to: u32) -> Walker
    ensures { result ≡ arrived poly from to }
{
    if to == poly {
        return Walker {
            prev: from,
            at: 65535,
        };
    }
    Walker { prev: from, at: to }
}

// One polygon further.
fn onward(corners: &[u32], links: &[u32], n: usize, v: u32, poly: u32, w: Walker) -> Walker
    requires { (Linked corners.now links.now n) × (w.at < n) }
    ensures { result ≡ onward corners.now links.now v poly w }
{
    let Some(s) = side_to(corners, w.at as usize, v) else {
        return w;
    };
    arrived(poly, w.at, other_link(links, s, w.prev))
}

// The first neighbour: over the side before s, or where there is none over s.
fn first_link(links: &[u32], s: usize) -> u32
    requires { (3 * (s / 3) + 3 ≤ length links.now) × (s < 98304) }
    ensures { result ≡ first_link links.now s }
{
    let before = next_side(next_side(s));
    let link = links[before];
    if link == 65535 {
        return links[s];
    }
    link
}

// The ring of vertex v, whose first side is s: at most 63 polygons, written to the front of `out`, and how many.
pub fn ring(corners: &[u32], links: &[u32], n: usize, v: u32, s: usize, out: &mut [u32]) -> usize
    requires { (Linked corners.now links.now n) × (s < 3 * n) × (63 ≤ length out.old) }
    ensures { Begins (ring_of corners.now links.now v s) out.new result }
{
    let start = (s / 3) as u32;
    let mut w = Walker {
        prev: start,
        at: first_link(links, s),
    };
    for count in 0..63 {
        let p = w.at;
        if p == 65535 {
            return count;
        }
        out[count] = p;
        w = onward(corners, links, n, v, start, w);
    }
    63
}
