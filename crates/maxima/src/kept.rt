// The source's own loop: a vertex that a kept one shadows is passed over, else those that it shadows go and it comes last.
ghost use Rattle.std.specs.Prelude.{◌≡◌, true, not, ◌+◌, ◌*◌, ◌≤◌, ◌<◌, length, take, IfSome};
ghost use Rattle.base.specs.Lists.{sift, Below};
ghost use Rattle.shadows.specs.Kept.{some, admit, kept_of};
ghost use Rattle.far_order.specs.Rows.{shadowed_at};
ghost use Rattle.maxima.specs.Steps.Keeping.{Begins, Testable, Admissible};

// Whether vertex i is shadowed by vertex j.
fn shadowed(n: usize, rows: &[u32], i: usize, j: usize) -> bool
    requires { (4 * n ≤ length rows.now) × (i < n) × (j < n) }
    ensures { result ≡ shadowed_at n rows.now i j }
{
    rows[j] <= rows[i] && rows[n + j] <= rows[n + i] && rows[2 * n + j] <= rows[3 * n + i]
}

// Whether the kept vertex at place `first`, if there is one, shadows vertex i.
fn first_shadows(n: usize, rows: &[u32], i: usize, kept: &[u32], first: usize) -> bool
    requires { Testable n rows.now i kept.now }
    ensures { result ≡ true → some (shadowed_at n rows.now i) kept.now ≡ true }
{
    match kept.get(first) {
        Some(k) => shadowed(n, rows, i, *k as usize),
        None => false,
    }
}

// Whether one of the kept vertices shadows vertex i.
fn some_shadows(n: usize, rows: &[u32], i: usize, kept: &[u32]) -> bool
    requires { Testable n rows.now i kept.now }
    ensures { result ≡ some (shadowed_at n rows.now i) kept.now }
{
    kept.iter().any(|k| shadowed(n, rows, i, *k as usize))
}

// The same, with the one at place `first` tested before all others.
fn shadowed_first(n: usize, rows: &[u32], i: usize, kept: &[u32], first: usize) -> bool
    requires { Testable n rows.now i kept.now }
    ensures { result ≡ some (shadowed_at n rows.now i) kept.now }
{
    first_shadows(n, rows, i, kept, first) || some_shadows(n, rows, i, kept)
}

// Takes those out of `kept` that vertex i shadows; how many are left.
fn retain(n: usize, rows: &[u32], i: usize, kept: &mut [u32]) -> usize
    requires { Testable n rows.now i kept.old }
    ensures { Begins (sift (λ k. not (shadowed_at n rows.now k i)) kept.old) kept.new result }
{
    let mut left = 0;
    for k in 0..kept.len() {
        let p = kept[k];
        if !shadowed(n, rows, p as usize, i) {
            kept[left] = p;
            left += 1;
        }
    }
    left
}

// How near vertex p is on the axis on which it is nearest.
fn nearest(n: usize, rows: &[u32], p: usize) -> u32
    requires { (4 * n ≤ length rows.now) × (p < n) }
{
    rows[p].max(rows[n + p]).max(rows[2 * n + p])
}

// The place of the kept vertex that is far on every axis, and so shadows most. Nothing but time depends on it.
fn furthest(n: usize, rows: &[u32], kept: &[u32]) -> usize
    requires { (4 * n ≤ length rows.now) × (Below n kept.now) }
{
    let mut best = u32::MAX;
    let mut place = 0;
    for (k, p) in kept.iter().enumerate() {
        let near = nearest(n, rows, *p as usize);
        if near < best {
            best = near;
            place = k;
        }
    }
    place
}

// How many are kept, and the place of the one to test first.
#[derive(Clone, Copy)]
pub struct Kept {
    pub count: usize,
    pub first: usize,
}

// Takes vertex i into the list that the first places of `kept` hold.
fn admit(n: usize, rows: &[u32], i: usize, kept: &mut [u32], s: Kept) -> Kept
    requires { Admissible n rows.now i kept.old s.count }
    ensures { Begins (admit (shadowed_at n rows.now) (take s.count kept.old) i) kept.new result.count }
{
    if shadowed_first(n, rows, i, &kept[..s.count], s.first) {
        return s;
    }
    let left = retain(n, rows, i, &mut kept[..s.count]);
    kept[left] = i as u32;
    let count = left + 1;
    let first = furthest(n, rows, &kept[..count]);
    Kept { count, first }
}

// The list of n vertices at the start of `kept`, and how many it has; none where the places of `kept` do not suffice.
pub fn gather(n: usize, rows: &[u32], kept: &mut [u32]) -> Option<usize>
    requires { (4 * n ≤ length rows.now) × (n ≤ 32768) }
    ensures { IfSome result (Begins (kept_of (shadowed_at n rows.now) n) kept.new) }
{
    let mut s = Kept { count: 0, first: 0 };
    for i in 0..n {
        if s.count == kept.len() {
            return None;
        }
        s = admit(n, rows, i, kept, s);
    }
    Some(s.count)
}
