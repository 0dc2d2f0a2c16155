// The new number of each polygon: the position at which an order has its place.
ghost use Rattle.std.specs.Prelude.{◌≡◌, ◌≤◌, ◌<◌, length, get_or, take, set};
ghost use Rattle.reorder.specs.Reordering.{lookup_of};
ghost use Rattle.reorder.specs.Steps.Lent.{Numbering};

use base::numbers::{Place, Position};

// The place that an order has at a position.
pub fn place_at(order: &[u16], new: Position) -> Place
    requires { new.0 < length order.now }
    ensures { result.0 ≡ get_or order.now new.0 0 }
{
    Place(u32::from(order[new.0 as usize]))
}

fn put_position(lookup: &mut [u32], old: Place, new: Position)
    requires { old.0 < length lookup.old }
    ensures { lookup.new ≡ set lookup.old old.0 new.0 }
{
    lookup[old.0 as usize] = new.0;
}

// For each of n places the position at which the order has it.
pub fn fill_lookup(order: &[u16], n: usize, lookup: &mut [u32])
    requires { (Numbering n order.now) × (n ≤ length lookup.old) }
    ensures { take n lookup.new ≡ lookup_of n (take n order.now) }
{
    for i in 0..n {
        let new = Position(i as u32);
        put_position(lookup, place_at(order, new), new);
    }
}

// The position that a place comes to.
pub fn position_of(lookup: &[u32], old: Place) -> Position
    requires { old.0 < length lookup.now }
    ensures { result.0 ≡ get_or lookup.now old.0 0 }
{
    Position(lookup[old.0 as usize])
}
