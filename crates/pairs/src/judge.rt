// An answer, held against comparing every box.
ghost use Rattle.std.specs.Prelude.{◌≡◌, ◌+◌, ◌<◌, ◌≤◌, length, not, ◌&&◌};
ghost use Rattle.base.specs.Lists.{one_if};
ghost use Rattle.pairs.specs.Judging.{meets_at, seen_at, count_of, Compared, item_handed, had_mark, with_mark, marks, twice_at};

use crate::lists::{box_of, is_present};
use base::numbers::{Place, Position};
use math::aabb::Aabb;

// Boxes that meet the query; of those, how many were not handed out; and how many handed out are not present.
#[derive(Clone, Copy)]
pub struct Met {
    pub meeting: u64,
    pub missed: u64,
    pub stray: u64,
}

// A position that is in no order stands for no item.
fn item_handed(threshold: u32, order: &[u16; 700], position: Position) -> Place
    ensures { result.0 ≡ item_handed threshold order.now position.0 }
{
    let at = position.0;
    if at >= 700 {
        return Place(at);
    }
    tree::pair::item_at(position, threshold, order)
}

// Marks the item, and says whether it had its mark already, or is none.
fn mark(seen: &mut [u8; 700], item: Place) -> bool
    ensures value { result ≡ had_mark seen.old item.0 }
    ensures seen_after { seen.new ≡ with_mark seen.old item.0 }
{
    let at = item.0 as usize;
    if at >= 700 {
        return true;
    }
    let before = seen[at];
    seen[at] = 1;
    before != 0
}

// One more, where it is so.
fn plus_if(n: u64, yes: bool) -> u64
    requires { n < 700 }
    ensures { result ≡ n + one_if yes }
{
    n + u64::from(yes)
}

// Marks the items of the positions handed out, and counts those that had their mark.
pub fn mark_all(seen: &mut [u8; 700], handed: &[u16], order: &[u16; 700], threshold: u32) -> u64
    requires { length handed.now ≤ 700 }
    ensures value { result ≡ count_of (twice_at threshold order.now handed.now seen.old) (length handed.now) }
    ensures seen_after { seen.new ≡ marks threshold order.now handed.now seen.old (length handed.now) }
{
    let mut twice: u64 = 0;
    for position in handed {
        let item = item_handed(threshold, order, Position(u32::from(*position)));
        twice = plus_if(twice, mark(seen, item));
    }
    twice
}

fn and_not(a: bool, b: bool) -> bool
    ensures { result ≡ a && not b }
{
    a && !b
}

// Whether the entry at a place is present and its box meets the query as floats.
fn meets_at(list: &[u32; 4900], query: Aabb, place: Place) -> bool
    requires { place.0 < 700 }
    ensures { result ≡ meets_at list.now query place.0 }
{
    is_present(list, place) && walk_steps::boxes::meets_box(box_of(list, place), query)
}

fn is_seen(seen: &[u8; 700], place: Place) -> bool
    requires { place.0 < 700 }
    ensures { result ≡ seen_at seen.now place.0 }
{
    let at = place.0 as usize;
    seen[at] != 0
}

// One more place is compared.
fn judged(m: Met, list: &[u32; 4900], query: Aabb, seen: &[u8; 700], place: Place) -> Met
    requires place_bound { place.0 < 700 }
    requires compared { Compared list.now query seen.now place.0 m }
    ensures { Compared list.now query seen.now (place.0 + 1) result }
{
    let present = is_present(list, place);
    let meets = meets_at(list, query, place);
    let handed = is_seen(seen, place);
    let missed = and_not(meets, handed);
    let stray = and_not(handed, present);
    Met {
        meeting: plus_if(m.meeting, meets),
        missed: plus_if(m.missed, missed),
        stray: plus_if(m.stray, stray),
    }
}

// Every place is compared, also those behind the list, which are not present.
pub fn judge_all(list: &[u32; 4900], query: Aabb, seen: &[u8; 700]) -> Met
    ensures { Compared list.now query seen.now 700 result }
{
    let mut m = Met {
        meeting: 0,
        missed: 0,
        stray: 0,
    };
    for i in 0..700 {
        m = judged(m, list, query, seen, Place(i));
    }
    m
}
