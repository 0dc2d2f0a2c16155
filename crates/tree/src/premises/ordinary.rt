// Whether the entries meet the premises of point 3: the first entry that breaks them, else the box of all.
ghost use Rattle.std.specs.Prelude.{◌≡◌, ◌+◌, ◌*◌, ◌<◌, ◌≤◌, length, take, if◌then◌else◌, slice_index};
ghost use Rattle.bvh.specs.Entry.{entries_in};
ghost use Rattle.bvh.specs.Items.{is_marked, marked};
ghost use Rattle.entries.specs.Boxes.{box_at};
ghost use Rattle.entries.specs.Folding.{fold_step, fold_box};
ghost use Rattle.tree.specs.premises.Faults.{box_fault};
ghost use Rattle.tree.specs.premises.Judgement.{first_fault, judgement_of, Judged};

use base::numbers::Place;
use entries::boxes::BoxWords;

// What is found: a refusal by Build's number, 0 where the entries were read; the number of the first fault, 0 where there is none; and the
// place of the entry that has it, 0 where it is no entry's. Numbers and no Option, here and in what makes it: it is what C's bounds_ordinary
// answers, and Judged promises it whole.
#[repr(C)]
#[derive(Clone, Copy)]
pub struct Premises {
    pub refusal: u32,
    pub fault: u32,
    pub place: u32,
}

// What breaks the premises in the entry at p, if it is present.
fn entry_fault(entries: &[u32], p: Place) -> u32
    requires { 7 * p.0 + 7 ≤ length entries.now }
    ensures { result ≡ (if is_marked (slice_index entries.now (7 * p.0)) then box_fault (box_at entries.now p.0) else 0) }
{
    if entries[7 * (p.0 as usize)] == 0 {
        return 0;
    }
    crate::premises::faults::box_fault(entries::boxes::box_at(entries, p))
}

// The first of n entries that breaks the premises by itself.
fn first_fault(entries: &[u32], n: usize) -> Premises
    requires { (7 * n ≤ length entries.now) × (n ≤ 32767) }
    ensures { result ≡ first_fault (box_at entries.now) (marked 0 n entries.now) }
{
    for p in 0..n {
        let fault = entry_fault(entries, Place(p as u32));
        if fault != 0 {
            return Premises {
                refusal: 0,
                fault,
                place: p as u32,
            };
        }
    }
    Premises {
        refusal: 0,
        fault: 0,
        place: 0,
    }
}

// The box so far and that of the entry at p, if it is present.
fn fold_entry(entries: &[u32], p: Place, acc: BoxWords) -> BoxWords
    requires { 7 * p.0 + 7 ≤ length entries.now }
    ensures { result ≡ (if is_marked (slice_index entries.now (7 * p.0)) then fold_step acc (box_at entries.now p.0) else acc) }
{
    if entries[7 * (p.0 as usize)] == 0 {
        return acc;
    }
    let b = entries::boxes::box_at(entries, p);
    BoxWords {
        min: math::words3::vmin_words(acc.min, b.min),
        max: math::words3::vmax_words(acc.max, b.max),
    }
}

// The box of all present ones of n entries.
fn fold_present(entries: &[u32], n: usize) -> BoxWords
    requires { (7 * n ≤ length entries.now) × (n ≤ 32767) }
    ensures { result ≡ fold_box (box_at entries.now) (marked 0 n entries.now) }
{
    let mut acc = entries::boxes::start_box();
    for p in 0..n {
        acc = fold_entry(entries, Place(p as u32), acc);
    }
    acc
}

fn judge(entries: &[u32], n: usize) -> Premises
    requires { (7 * n ≤ length entries.now) × (n ≤ 32767) }
    ensures { result ≡ judgement_of (entries_in n entries.now) }
{
    let first = first_fault(entries, n);
    if first.fault != 0 {
        return first;
    }
    Premises {
        refusal: 0,
        fault: crate::premises::faults::extent_fault(fold_present(entries, n)),
        place: 0,
    }
}

// Whether the first n entries, seven words each, meet the premises of point 3, and what breaks them first where not.
pub fn ordinary(n: usize, entries: &[u32]) -> Premises
    ensures { Judged (entries_in n (take (7 * n) entries.now)) (length entries.now) result }
{
    if n > 32767 {
        return Premises {
            refusal: 1,
            fault: 0,
            place: 0,
        };
    }
    let words = 7 * n;
    if entries.len() < words {
        return Premises {
            refusal: 2,
            fault: 0,
            place: 0,
        };
    }
    judge(&entries[..words], n)
}
