// An item is known by its place in the list of entries, and by its position in the order of the leaves. Neither stands for the other.
#[derive(Clone, Copy)]
pub struct Place(pub u32);

#[derive(Clone, Copy)]
pub struct Position(pub u32);
