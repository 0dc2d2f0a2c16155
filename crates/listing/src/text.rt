// Text in a lent buffer. Each function puts its text from `at` on and answers where it ends.
// `write!` would be no plainer: `Put` says each byte, so that a sink of `fmt` would have to say it over again.
ghost use Rattle.std.specs.Prelude.{◌+◌, ◌<◌, ◌≤◌, [], ◌∷◌, length};
ghost use Rattle.listing.specs.Text.{Put, decimal, signed, field};

pub fn put_text(out: &mut [u8], at: usize, text: &[u8]) -> usize
    requires { at + length text.now ≤ length out.old }
    ensures { Put (length text.now) text.now out.old at out.new result }
{
    let end = at + text.len();
    out[at..end].copy_from_slice(text);
    end
}

pub fn put_byte(out: &mut [u8], at: usize, byte: u8) -> usize
    requires { at + 1 ≤ length out.old }
    ensures { Put 1 (byte ∷ []) out.old at out.new result }
{
    out[at] = byte;
    at + 1
}

// A number of at most five digits.
pub fn put_decimal(out: &mut [u8], at: usize, n: u64) -> usize
    requires { (at + 5 ≤ length out.old) × (n < 100000) }
    ensures { Put 5 (decimal n) out.old at out.new result }
{
    let mut digits = [0u8; 20];
    let k = io::decimal(n, &mut digits);
    put_text(out, at, &digits[..k])
}

// The sign is read from the bits, in two's complement.
fn put_signed(out: &mut [u8], at: usize, v: i16) -> usize
    requires { at + 6 ≤ length out.old }
    ensures { Put 6 (signed v) out.old at out.new result }
{
    let bits = float32::casts::low_bits(v as i32);
    if bits < 32768 {
        return put_decimal(out, at, bits as u64);
    }
    let digits = put_byte(out, at, b'-');
    put_decimal(out, digits, (65536 - bits) as u64)
}

// A number after a space.
pub fn put_field(out: &mut [u8], at: usize, v: i16) -> usize
    requires { at + 7 ≤ length out.old }
    ensures { Put 7 (field v) out.old at out.new result }
{
    let number = put_byte(out, at, b' ');
    put_signed(out, number, v)
}
