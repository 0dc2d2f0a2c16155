// An i16 as two bytes, and back.
ghost use Rattle.std.specs.Prelude.{◌≡◌, ◌+◌, ◌≤◌, length};
ghost use Rattle.std.proofs.lemmas.List.Edits.{sets};
ghost use Rattle.records.specs.Shorts.{short_bytes, short_at};

// The two bytes of v, from `at` on.
pub fn put_short(out: &mut [u8], at: usize, v: i16)
    requires { at + 2 ≤ length out.old }
    ensures { out.new ≡ sets out.old at (short_bytes v) }
{
    out[at..at + 2].copy_from_slice(&v.to_le_bytes());
}

// The i16 that stands at `at`.
pub fn short_at(bytes: &[u8], at: usize) -> i16
    requires { at + 2 ≤ length bytes.now }
    ensures { result ≡ short_at bytes.now at }
{
    i16::from_le_bytes([bytes[at], bytes[at + 1]])
}
