// The entries that a build is lent, and the places of the present ones.
ghost use Rattle.std.specs.Prelude.{◌≡◌, ◌*◌, ◌<◌, ◌≤◌, length};
ghost use Rattle.base.specs.Lists.{one_if};
ghost use Rattle.bvh.specs.Items.{is_marked};
ghost use Rattle.bvh.specs.Steps.Gather.{Gathered};

use math::words3::Words3;

// An entry: a mark, 0 for absent, and a box, in the place of the source's `Option`. It is known by its place in the list.
// Seven words without padding: every pattern of bits has a meaning.
#[repr(C)]
#[derive(Clone, Copy)]
pub struct BvhItem {
    pub present: u32,
    pub min: Words3,
    pub max: Words3,
}

// 1 where the mark says that the entry is present, else 0.
fn one_if_marked(mark: u32) -> usize
    ensures { result ≡ one_if (is_marked mark) }
{
    if mark == 0 { 0 } else { 1 }
}

// The places of the present ones among the first n entries, rising; how many they are.
// Each place is stored and then kept or overwritten, so that no branch waits for the mark.
pub fn gather(entries: &[u32], n: usize, places: &mut [u32]) -> usize
    requires { (7 * n ≤ length entries.now) × (n ≤ length places.old) × (n < 65536) }
    ensures { Gathered n entries.now places.new result }
{
    let mut k = 0;
    for p in 0..n {
        places[k] = p as u32;
        k += one_if_marked(entries[7 * p]);
    }
    k
}
