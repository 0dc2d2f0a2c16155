// Whole numbers as bytes, the lowest byte first.
ghost use Rattle.std.specs.Prelude.{◌≡◌, ◌+◌, ◌≤◌, ◌<◌, length};
ghost use Rattle.std.proofs.lemmas.List.Edits.{sets};
ghost use Rattle.base.specs.LittleEndian.{little_endian, le_at};

// The `size` low bytes of n, from `at` on.
pub fn put_le(out: &mut [u8], at: usize, size: usize, n: u64)
    requires { at + size ≤ length out.old }
    ensures { out.new ≡ sets out.old at (little_endian size n) }
{
    let mut rest = n;
    for i in 0..size {
        out[at + i] = (rest % 256) as u8;
        rest /= 256;
    }
}

// The number of the two bytes from `at` on.
pub fn two_at(bytes: &[u8], at: usize) -> u32
    requires { at + 2 ≤ length bytes.now }
    ensures { (result ≡ le_at 2 bytes.now at) × (result < 65536) }
{
    u16::from_le_bytes([bytes[at], bytes[at + 1]]) as u32
}

// The number of the four bytes from `at` on.
pub fn word_at(bytes: &[u8], at: usize) -> u32
    requires { at + 4 ≤ length bytes.now }
    ensures { result ≡ le_at 4 bytes.now at }
{
    u32::from_le_bytes([bytes[at], bytes[at + 1], bytes[at + 2], bytes[at + 3]])
}
