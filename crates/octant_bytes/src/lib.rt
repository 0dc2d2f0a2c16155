// The bytes of the octants' eight lists: their lengths, where each stands, and the lists themselves.
#![tactic(auto)]

ghost use Rattle.std.specs.Prelude.{◌≡◌, ◌++◌, ◌+◌, ◌*◌, ◌≤◌, ◌<◌, length, replicate};
ghost use Rattle.std.proofs.lemmas.List.Edits.{sets};
ghost use Rattle.base.specs.LittleEndian.{little_endian};
ghost use Rattle.octant_bytes.specs.Answers.{many, answer_of, number_of, Answered};
ghost use Rattle.octant_bytes.specs.Bytes.{all_of, lengths_of, counts_bytes, pointers_bytes, lists_bytes};
ghost use Rattle.octant_bytes.specs.Steps.Counts.{Few, listed, eight, four_bytes, ListPut};

use base::little_endian::put_le;

// Why no octants are written, by the number that C is told.
#[derive(Clone, Copy)]
pub enum OctantBytesRefusal {
    TooManyIndices = 1,
    BufferTooShort = 2,
    AddressTooHigh = 12,
}

// The lengths of the eight lists.
#[derive(Clone, Copy)]
pub struct Counts {
    pub c0: usize,
    pub c1: usize,
    pub c2: usize,
    pub c3: usize,
    pub c4: usize,
    pub c5: usize,
    pub c6: usize,
    pub c7: usize,
}

// Whether a list has more indices than there may be.
fn too_many(c: Counts) -> bool
    ensures { result ≡ many (listed c) }
{
    c.c0 > 32768
        || c.c1 > 32768
        || c.c2 > 32768
        || c.c3 > 32768
        || c.c4 > 32768
        || c.c5 > 32768
        || c.c6 > 32768
        || c.c7 > 32768
}

// How many indices there are in all.
fn all_of(c: Counts) -> usize
    requires { Few (listed c) }
    ensures { (result ≡ all_of (listed c)) × (result ≤ 262144) }
{
    c.c0 + c.c1 + c.c2 + c.c3 + c.c4 + c.c5 + c.c6 + c.c7
}

// The checks. The address is compared with what is left of the numbers, so that no sum overflows.
fn judged(address: u64, c: Counts, room: usize) -> Result<(), OctantBytesRefusal>
    ensures { result ≡ answer_of address (listed c) room }
{
    if too_many(c) {
        return Err(OctantBytesRefusal::TooManyIndices);
    }
    let all = all_of(c);
    if room < 128 + 4 * all {
        return Err(OctantBytesRefusal::BufferTooShort);
    }
    if address > 18446744073709551615 - (96 + 4 * all) as u64 {
        return Err(OctantBytesRefusal::AddressTooHigh);
    }
    Ok(())
}

// Four numbers of `size` bytes each, from `at` on.
fn put_four(out: &mut [u8], at: usize, size: usize, a: u64, b: u64, c: u64, d: u64)
    requires { (at + 4 * size ≤ length out.old) × (size ≤ 8) }
    ensures { out.new ≡ sets out.old at (four_bytes size a b c d) }
{
    put_le(out, at, size, a);
    put_le(out, at + size, size, b);
    put_le(out, at + 2 * size, size, c);
    put_le(out, at + 3 * size, size, d);
}

// Where the next list stands.
fn behind(p: u64, count: usize) -> u64
    requires { (p + 4 * count ≤ 18446744073709551615) × (count ≤ 32768) }
    ensures { result ≡ p + 4 * count }
{
    p + 4 * (count as u64)
}

// The lengths, and where each list stands: the first at p, the others behind it.
fn put_head(out: &mut [u8], p: u64, c: Counts)
    requires { (96 ≤ length out.old) × (Few (listed c)) × (p + 4 * all_of (listed c) ≤ 18446744073709551615) }
    ensures { out.new ≡ sets out.old 0 (counts_bytes (listed c) ++ pointers_bytes p (listed c)) }
{
    put_four(
        out,
        0,
        4,
        c.c0 as u64,
        c.c1 as u64,
        c.c2 as u64,
        c.c3 as u64,
    );
    put_four(
        out,
        16,
        4,
        c.c4 as u64,
        c.c5 as u64,
        c.c6 as u64,
        c.c7 as u64,
    );
    let p1 = behind(p, c.c0);
    let p2 = behind(p1, c.c1);
    let p3 = behind(p2, c.c2);
    let p4 = behind(p3, c.c3);
    let p5 = behind(p4, c.c4);
    let p6 = behind(p5, c.c5);
    let p7 = behind(p6, c.c6);
    put_four(out, 32, 8, p, p1, p2, p3);
    put_four(out, 64, 8, p4, p5, p6, p7);
}

fn put_word(out: &mut [u8], at: usize, word: u32)
    requires { at + 4 ≤ length out.old }
    ensures { out.new ≡ sets out.old at (little_endian 4 word) }
{
    put_le(out, at, 4, word as u64);
}

// A list's indices, from `at` on; the place behind them.
fn put_list(out: &mut [u8], at: usize, list: &[u32]) -> usize
    requires { at + 4 * length list.now ≤ length out.old }
    ensures { ListPut list.now out.old out.new at result }
{
    for (i, index) in list.iter().enumerate() {
        put_word(out, at + 4 * i, *index);
    }
    at + 4 * list.len()
}

// The eight lists, from byte 96 on, and 32 zeros.
fn put_lists(
    out: &mut [u8],
    l0: &[u32],
    l1: &[u32],
    l2: &[u32],
    l3: &[u32],
    l4: &[u32],
    l5: &[u32],
    l6: &[u32],
    l7: &[u32],
)
    requires { 128 + 4 * all_of (lengths_of (eight l0.now l1.now l2.now l3.now l4.now l5.now l6.now l7.now)) ≤ length out.old }
    ensures { out.new ≡ sets out.old 96 (lists_bytes (eight l0.now l1.now l2.now
        l3.now l4.now l5.now l6.now l7.now) ++ replicate 32 0) }
{
    let a1 = put_list(out, 96, l0);
    let a2 = put_list(out, a1, l1);
    let a3 = put_list(out, a2, l2);
    let a4 = put_list(out, a3, l3);
    let a5 = put_list(out, a4, l4);
    let a6 = put_list(out, a5, l5);
    let a7 = put_list(out, a6, l6);
    let a8 = put_list(out, a7, l7);
    put_le(out, a8, 32, 0);
}

// The bytes of eight lists whose first byte stands at the address, or a refusal that changes no byte.
pub fn write_octants(
    address: u64,
    l0: &[u32],
    l1: &[u32],
    l2: &[u32],
    l3: &[u32],
    l4: &[u32],
    l5: &[u32],
    l6: &[u32],
    l7: &[u32],
    out: &mut [u8],
) -> Result<(), OctantBytesRefusal>
    ensures { Answered address (eight l0.now l1.now l2.now l3.now l4.now
        l5.now l6.now l7.now) out.old out.new result }
{
    let counts = Counts {
        c0: l0.len(),
        c1: l1.len(),
        c2: l2.len(),
        c3: l3.len(),
        c4: l4.len(),
        c5: l5.len(),
        c6: l6.len(),
        c7: l7.len(),
    };
    judged(address, counts, out.len())?;
    put_head(out, address + 96, counts);
    put_lists(out, l0, l1, l2, l3, l4, l5, l6, l7);
    Ok(())
}

// An answer's number, for a caller that no Result can be given to.
pub fn number(answer: Result<(), OctantBytesRefusal>) -> u32
    ensures { result ≡ number_of answer }
{
    match answer {
        Ok(()) => 0,
        Err(why) => why as u32,
    }
}
