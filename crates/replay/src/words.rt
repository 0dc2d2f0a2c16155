// Answers as words.
ghost use Rattle.std.specs.Prelude.{◌≡◌};
ghost use Rattle.std.specs.Ordering.{ordering_index};
ghost use Rattle.replay.specs.Numbers.{relation_number, signed_word};

use std::cmp::Ordering;

pub fn relation(r: Option<Ordering>) -> u32
    ensures { result ≡ relation_number r }
{
    match r {
        Some(o) => ordering(o),
        None => 3,
    }
}

pub fn ordering(o: Ordering) -> u32
    ensures { result ≡ ordering_index o }
{
    match o {
        Ordering::Less => 0,
        Ordering::Equal => 1,
        Ordering::Greater => 2,
    }
}

// Two's complement.
pub fn signed(n: i32) -> u32
    ensures { result ≡ signed_word n }
{
    n.cast_unsigned()
}

pub fn signed_short(n: i16) -> u32
    ensures { result ≡ signed_word n }
{
    signed(i32::from(n))
}
