// The numbers that stand for an enum's cases.
ghost use Rattle.std.specs.Prelude.{◌≡◌};
ghost use Rattle.header.specs.Header.{header_number};
ghost use Rattle.answers.specs.Numbers.{relation_number, ordering_number};

use header::HeaderRefusal;
use std::cmp::Ordering;

pub fn relation_number(r: Option<Ordering>) -> u32
    ensures { result ≡ relation_number r }
{
    match r {
        Some(Ordering::Less) => 0,
        Some(Ordering::Equal) => 1,
        Some(Ordering::Greater) => 2,
        None => 3,
    }
}

pub fn ordering_number(o: Ordering) -> i32
    ensures { result ≡ ordering_number o }
{
    match o {
        Ordering::Less => -1,
        Ordering::Equal => 0,
        Ordering::Greater => 1,
    }
}

pub fn header_number(h: Result<(), HeaderRefusal>) -> u32
    ensures { result ≡ header_number h }
{
    match h {
        Ok(()) => 0,
        Err(HeaderRefusal::TooManyTrees) => 1,
        Err(HeaderRefusal::BufferTooShort) => 2,
    }
}
