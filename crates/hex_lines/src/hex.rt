// Bytes in hexadecimal, and numbers as bytes, at the start of a lent buffer.
ghost use Rattle.std.specs.Prelude.{◌≡◌, refl, ℕ, ◌+◌, ◌*◌, ◌≤◌, ◌<◌, List, length};
ghost use Rattle.std.proofs.lemmas.List.Edits.{sets};
ghost use Rattle.base.specs.Lists.{over};
ghost use Rattle.base.specs.LittleEndian.{little_endian};
ghost use Rattle.base.proofs.LittleEndian.{number_bytes};
ghost use Rattle.hex_lines.specs.Hex.{each_of, digit_of, byte_text, hex_of, word_bytes, place_bytes};

use base::little_endian::put_le;

// A digit below 16.
fn digit(n: u8) -> u8
    requires { n < 16 }
    ensures { result ≡ digit_of n }
{
    if n < 10 { 48 + n } else { 55 + n }
}

fn put_byte(out: &mut [u8], at: usize, byte: u8)
    requires { at + 2 ≤ length out.old }
    ensures { out.new ≡ sets out.old at (byte_text byte) }
{
    out[at] = digit(byte / 16);
    out[at + 1] = digit(byte % 16);
}

pub fn put_hex(out: &mut [u8], bytes: &[u8])
    requires { 2 * length bytes.now ≤ length out.old }
    ensures { out.new ≡ over (hex_of bytes.now) out.old }
{
    for (i, byte) in bytes.iter().enumerate() {
        put_byte(out, 2 * i, *byte);
    }
}

// A number as it stands in a dump before it is written in hexadecimal.
pub trait Number: Copy {
    // Its bytes, the lowest first.
    ghost bytes_of: { Self → List ℕ };

    ghost SIZE: { ℕ };

    const SIZE: usize;

    fn put(self, out: &mut [u8], at: usize)
        requires { at + SIZE ≤ length out.old }
        ensures { out.new ≡ sets out.old at (bytes_of self) };

    ghost as_many: { (x : Self) → length (bytes_of x) ≡ SIZE };
}

// A number whose lists a rule of the dump spells. One that no rule speaks of is put by `put_numbers`.
pub trait Spelled: Number {
    // The bytes of a list of such numbers.
    ghost all_bytes: { List Self → List ℕ };

    ghost in_turn: { (xs : List Self) → all_bytes xs ≡ each_of Self.bytes_of xs };
}

impl Number for u32 {
    ghost bytes_of = { little_endian 4 };

    ghost SIZE = { 4 };

    const SIZE: usize = 4;

    fn put(self, out: &mut [u8], at: usize) {
        put_le(out, at, 4, u64::from(self));
    }

    ghost as_many = { λ x. (number_bytes 4 x).size };
}

impl Spelled for u32 {
    ghost all_bytes = { word_bytes };

    ghost in_turn = { λ xs. refl };
}

impl Number for u16 {
    ghost bytes_of = { little_endian 2 };

    ghost SIZE = { 2 };

    const SIZE: usize = 2;

    fn put(self, out: &mut [u8], at: usize) {
        put_le(out, at, 2, u64::from(self));
    }

    ghost as_many = { λ x. (number_bytes 2 x).size };
}

impl Spelled for u16 {
    ghost all_bytes = { place_bytes };

    ghost in_turn = { λ xs. refl };
}

pub fn put_numbers<T: Number>(out: &mut [u8], numbers: &[T])
    requires { T.SIZE * length numbers.now ≤ length out.old }
    ensures { out.new ≡ over (each_of T.bytes_of numbers.now) out.old }
{
    for (i, number) in numbers.iter().enumerate() {
        number.put(out, T::SIZE * i);
    }
}

// Numbers as the rule spells a list of them.
pub fn put_spelled<T: Spelled>(out: &mut [u8], numbers: &[T])
    requires { T.SIZE * length numbers.now ≤ length out.old }
    ensures { out.new ≡ over (T.all_bytes numbers.now) out.old }
{
    put_numbers(out, numbers);
}
