// The links of sides that stand by their edges: the sides of an edge are a run.
ghost use Rattle.std.specs.Prelude.{◌≡◌, ◌≢◌, ◌+◌, ◌<◌, length, drop, MatchOption};
ghost use Rattle.base.specs.Every.{Every};
ghost use Rattle.sides.specs.Lists.{RisingBy};
ghost use Rattle.sides.specs.Steps.Grouped.{key_in, code_of, Sides};
ghost use Rattle.sides.specs.Steps.Linked.{link_of_first, Linked};
ghost use Rattle.side_order.specs.Steps.Runs.{past_run, first_of};

use sides::{NONE, Side, key_at, polygon_of};

// The link of the side at i, the first of its run.
fn link_of_first(keys: &[u32], sides: &[u32], i: usize) -> u32
    requires { (Sides keys.now sides.now) × (i < length sides.now) }
    ensures { result ≡ link_of_first (key_in keys.now) (drop i sides.now) }
{
    let next = i + 1;
    if next < sides.len() {
        if key_at(keys, Side(sides[next])) == key_at(keys, Side(sides[i])) {
            return polygon_of(Side(sides[next]));
        }
    }
    NONE
}

// Sides of one key that stand behind each other.
#[derive(Clone, Copy)]
pub struct Run {
    pub key: u32,
    pub first: Side,
}

// The first side of the run, if the run has the key.
fn first_with(run: Option<Run>, key: u32) -> Option<Side>
    ensures { MatchOption result (key + 1 ≢ past_run run) (λ side. (key + 1 ≡ past_run run) × (side.0 ≡ first_of run)) }
{
    match run {
        Some(r) if r.key == key => Some(r.first),
        _ => None,
    }
}

// Links each side of the list.
pub fn link_runs(keys: &[u32], sides: &[u32], links: &mut [u32])
    requires { (Sides keys.now sides.now) × (RisingBy (code_of (key_in keys.now)) sides.now) × (Every (λ s. s < length links.old) sides.now) }
    ensures { Linked (key_in keys.now) sides.now links.old links.new }
{
    let mut run = None;
    for (i, side) in sides.iter().enumerate() {
        let s = *side as usize;
        let key = key_at(keys, Side(*side));
        if let Some(first) = first_with(run, key) {
            links[s] = polygon_of(first);
        } else {
            links[s] = link_of_first(keys, sides, i);
            run = Some(Run {
                key,
                first: Side(*side),
            });
        }
    }
}
