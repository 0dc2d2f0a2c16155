// The child box records of the input, as the entries of a build.
ghost use Rattle.std.specs.Prelude.{◌≡◌, ◌+◌, ◌*◌, ◌≤◌, ◌∷◌, length};
ghost use Rattle.std.proofs.lemmas.List.Edits.{sets};
ghost use Rattle.base.specs.Lists.{over};
ghost use Rattle.entries.specs.Boxes.{box_words};
ghost use Rattle.listing.specs.Reading.{corner_at, child_box, child_words};

use base::little_endian::word_at;
use entries::boxes::BoxWords;
use math::words3::Words3;

// The three words from `at` on. The fourth, w, is not read.
fn corner_at(bytes: &[u8], at: usize) -> Words3
    requires { at + 16 ≤ length bytes.now }
    ensures { result ≡ corner_at bytes.now at }
{
    Words3 {
        x: word_at(bytes, at),
        y: word_at(bytes, at + 4),
        z: word_at(bytes, at + 8),
    }
}

fn child_box(bytes: &[u8], at: usize) -> BoxWords
    requires { at + 32 ≤ length bytes.now }
    ensures { result ≡ child_box bytes.now at }
{
    BoxWords {
        min: corner_at(bytes, at),
        max: corner_at(bytes, at + 16),
    }
}

// Record i as entry i, which is present.
fn put_child(entries: &mut [u32], bytes: &[u8], i: usize)
    requires { (7 * i + 7 ≤ length entries.old) × (32 * i + 32 ≤ length bytes.now) }
    ensures { entries.new ≡ sets entries.old (7 * i) (1 ∷ box_words (child_box bytes.now (32 * i))) }
{
    let at = 7 * i;
    entries[at] = 1;
    entries::boxes::put_box(entries, at + 1, child_box(bytes, 32 * i));
}

// The first n records as entries.
pub fn read_children(entries: &mut [u32], bytes: &[u8], n: usize)
    requires { (7 * n ≤ length entries.old) × (32 * n ≤ length bytes.now) }
    ensures { entries.new ≡ over (child_words bytes.now n) entries.old }
{
    for i in 0..n {
        put_child(entries, bytes, i);
    }
}
