// The links of the sides of chains: of a chain, those with one higher corner lie on one edge.
ghost use Rattle.std.specs.Prelude.{◌≡◌, List, ℕ, ◌<◌, length};
ghost use Rattle.base.specs.Every.{Every};
ghost use Rattle.side_chains.specs.Steps.Chains.{low_of, later_linked, Chained, Walkable, Walked, Linkable};
ghost use Rattle.sides.specs.Steps.Linked.{Linked};

use sides::{NONE, Side, polygon_of};

// Links a side to the first on its edge, and the first to the side, unless it has a link.
fn link_later(links: &mut [u32], first: Side, later: Side)
    requires { (first.0 < length links.old) × (later.0 < length links.old) }
    ensures { links.new ≡ later_linked links.old first.0 later.0 }
{
    let f = first.0 as usize;
    let s = later.0 as usize;
    links[s] = polygon_of(first);
    if links[f] == NONE {
        links[f] = polygon_of(later);
    }
}

// Links the sides of a chain. `firsts` has for a higher corner `base` and what leads to the first side with it; less, as long as there is none:
// no Option, since a word that an earlier chain left stands for none too, and is not cleared between chains.
fn link_chain(nexts: &[u32], head: u32, base: u32, firsts: &mut [u32], links: &mut [u32])
    requires { Walkable nexts.now head base firsts.old links.old }
    ensures { Walked nexts.now head base firsts.new links.old links.new }
{
    // no `for`: what leads to the next side stands in the side's word
    let mut e = head;
    while e > 0 {
        let side = e - 1;
        let next = nexts[side as usize];
        let high = (next / 131072) as usize;
        let first = firsts[high];
        if first > base {
            link_later(links, Side(first - base - 1), Side(side));
            e = next % 131072;
        } else {
            firsts[high] = base + e;
            links[side as usize] = NONE;
            e = next % 131072;
        }
    }
}

// Links the sides of all chains.
pub fn link_chains(heads: &[u32], nexts: &[u32], firsts: &mut [u32], links: &mut [u32])
    requires { Linkable heads.now nexts.now firsts.old links.old }
    ensures { (key : ℕ → ℕ) (ss : List ℕ) → Chained key ss heads.now nexts.now
        → Every (λ s. low_of key s < length heads.now) ss → Linked key ss links.old links.new }
{
    for (a, head) in heads.iter().enumerate() {
        link_chain(nexts, *head, a as u32 * 131072, firsts, links);
    }
}
