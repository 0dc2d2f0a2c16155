// A whole walk over lent records, by plain slices.
ghost use Rattle.std.specs.Prelude.{◌≡◌, ◌+◌, ◌*◌, ◌<◌, ◌≤◌, true, false, length, slice_set};
ghost use Rattle.std.proofs.lemmas.List.Edits.{sets};
ghost use Rattle.base.specs.Lists.{up_from};
ghost use Rattle.records.specs.Records.{tree_at};
ghost use Rattle.walk_steps.specs.Step.{lent_of, started, more};
ghost use Rattle.walk.specs.Walks.{left, walk_from, status_number, number_of, counts_of, unread, too_many, too_short, walk_of, Promise};
ghost use Rattle.walk_steps.specs.Steps.Contracts.{Steppable, Ran, inside_range};
ghost use Rattle.walk_steps.specs.Steps.Lanes.{plain_of, Topped};
ghost use Rattle.walk.specs.Steps.Passing.{passes_over, PassedUpTo, Ready, Came};

use base::numbers::Position;
use math::aabb::Aabb;
use math::vec3::Vec3;
use walk_steps::boxes::{Lanes, Query};
use walk_steps::refusals::WalkRefusal;
use walk_steps::state::{Sizes, WalkState};

// Records read, and positions handed out.
#[derive(Clone, Copy, Debug, PartialEq, Eq)]
pub struct Counts {
    pub reads: usize,
    pub handed: usize,
}

// Why a walk is refused, and the counts so far: the refused record is one of those read.
#[derive(Clone, Copy, Debug, PartialEq, Eq)]
pub struct Refused {
    pub refusal: WalkRefusal,
    pub counts: Counts,
}

// Refusal 1.
fn too_many(sizes: Sizes) -> bool
    ensures { result ≡ too_many sizes }
{
    sizes.nodes > 65535 || (sizes.trees > 65535 || sizes.items > 65535)
}

// Refusal 2, by the lengths of the buffers.
fn too_short(sizes: Sizes, node_bytes: usize, tree_bytes: usize, out: usize) -> bool
    requires { (sizes.nodes ≤ 65535) × (sizes.trees ≤ 65535) }
    ensures { result ≡ too_short sizes node_bytes tree_bytes out }
{
    node_bytes < 16 * sizes.nodes || (tree_bytes < 16 * sizes.trees || out < sizes.items)
}

// The position i behind `first`, stored i places behind `from`.
fn put_one(out: &mut [u16], from: usize, first: Position, i: usize)
    requires { (from + i < length out.old) × (first.0 + i < 65536) }
    ensures { out.new ≡ slice_set out.old (from + i) (first.0 + i) }
{
    out[from + i] = (first.0 as usize + i) as u16;
}

// One to four positions, always in four stores and without a branch: where there are fewer, the last of them is stored again.
fn hand_few(out: &mut [u16], from: usize, first: Position, n: usize)
    requires { (from + n ≤ length out.old) × (first.0 + n ≤ 65536) × (1 ≤ n) × (n ≤ 4) }
    ensures { out.new ≡ sets out.old from (up_from first.0 n) }
{
    let last = n - 1;
    put_one(out, from, first, 0);
    put_one(out, from, first, last.min(1));
    put_one(out, from, first, last.min(2));
    put_one(out, from, first, last);
}

// Any number of positions, one after another.
fn hand_many(out: &mut [u16], from: usize, first: Position, n: usize)
    requires { (from + n ≤ length out.old) × (first.0 + n ≤ 65536) }
    ensures { out.new ≡ sets out.old from (up_from first.0 n) }
{
    let id = first.0 as usize;
    for i in 0..n {
        out[from + i] = (id + i) as u16;
    }
}

// The n positions from `first` on, stored from place `from` on.
fn hand_out(out: &mut [u16], from: usize, first: Position, n: usize)
    requires { (from + n ≤ length out.old) × (first.0 + n ≤ 65536) }
    ensures { out.new ≡ sets out.old from (up_from first.0 n) }
{
    if n == 0 {
        return;
    }
    if n <= 4 {
        hand_few(out, from, first, n);
        return;
    }
    hand_many(out, from, first, n);
}

// Whether a tree misses and is sound, so that nothing below it is read.
fn passes(query: Lanes, nodes: usize, tree_bytes: &[u8], at: usize) -> bool
    requires { (Topped query) × (at + 16 ≤ length tree_bytes.now) }
    ensures { result ≡ passes_over (plain_of query) nodes (tree_at tree_bytes.now at) }
{
    let t = records::tree_at(tree_bytes, at);
    if walk_steps::boxes::meets(query, t.min, t.max, t.node_index1, t.node_index2) {
        return false;
    }
    !walk_steps::refusals::range_refused(walk_steps::numbers::tree_apart(tree_bytes, at), nodes)
}

// The first tree from `from` on that is refused or meets, or `upto`.
fn pass_trees(query: Lanes, nodes: usize, tree_bytes: &[u8], from: usize, upto: usize) -> usize
    requires from_le_upto { (from ≤ upto) × (upto ≤ 65535) × (16 * upto ≤ length tree_bytes.now) }
    requires topped { Topped query }
    ensures { PassedUpTo (plain_of query) nodes tree_bytes.now from upto result }
{
    // No `for`: left by return or by `continue` it takes the comparison of a record apart, into two of four and of two lanes.
    let mut t = from;
    while t < upto && passes(query, nodes, tree_bytes, 16 * t) {
        t += 1;
    }
    t
}

// The nodes of the range are read. The one place where a walk stores. No `for`: a node that misses takes the state past all below it.
fn through(
    s: WalkState,
    query: Lanes,
    sizes: Sizes,
    node_bytes: &[u8],
    tree_bytes: &[u8],
    out: &mut [u16],
) -> WalkState
    requires ready { Ready (lent_of (plain_of query) sizes node_bytes.now tree_bytes.now) out.old s }
    requires topped { Topped query }
    ensures { (Came (lent_of (plain_of query) sizes node_bytes.now tree_bytes.now)
        s out.old out.new result) × (inside_range result ≡ false) }
{
    let mut s = s;
    while s.inside() {
        let step = s.at_node(query, sizes.items, node_bytes);
        hand_out(out, s.handed, step.first, step.count);
        s = step.state;
    }
    s
}

// Trees are passed over, and the first that is not is read, with its range.
fn advance(
    s: WalkState,
    upto: usize,
    query: Lanes,
    sizes: Sizes,
    node_bytes: &[u8],
    tree_bytes: &[u8],
    out: &mut [u16],
) -> WalkState
    requires ready { Ready (lent_of (plain_of query) sizes node_bytes.now tree_bytes.now) out.old s }
    requires s_value { (more upto s ≡ true) × (inside_range s ≡ false) × (upto ≤ sizes.trees) }
    requires topped { Topped query }
    ensures { (Came (lent_of (plain_of query) sizes node_bytes.now tree_bytes.now)
        s out.old out.new result) × (inside_range result ≡ false)
        × (left (lent_of (plain_of query) sizes node_bytes.now tree_bytes.now) result
        < left (lent_of (plain_of query) sizes node_bytes.now tree_bytes.now) s) }
{
    let t = pass_trees(query, sizes.nodes, tree_bytes, s.tree, upto);
    let p = s.ahead(t);
    if t < upto {
        let e = p.at_tree(query, sizes.nodes, tree_bytes);
        return through(e, query, sizes, node_bytes, tree_bytes, out);
    }
    p
}

// On from s, which stands outside a range, up to the tree `upto`. No `for`: an advance passes over any number of trees.
fn read_trees(
    s: WalkState,
    upto: usize,
    query: Lanes,
    sizes: Sizes,
    node_bytes: &[u8],
    tree_bytes: &[u8],
    out: &mut [u16],
) -> WalkState
    requires ready { Ready (lent_of (plain_of query) sizes node_bytes.now tree_bytes.now) out.old s }
    requires s_value { (inside_range s ≡ false) × (upto ≤ sizes.trees) }
    requires topped { Topped query }
    ensures { (Came (lent_of (plain_of query) sizes node_bytes.now tree_bytes.now)
        s out.old out.new result) × (inside_range result ≡ false) × (more upto result ≡ false) }
{
    let mut s = s;
    while s.unfinished(upto) {
        s = advance(s, upto, query, sizes, node_bytes, tree_bytes, out);
    }
    s
}

// Records are read until none is left. `read_trees` is called at two places, so that it is compiled by itself: in sight of what turned
// the query, the compiler would turn it back and compare number by number.
pub fn run(
    query: Query,
    sizes: Sizes,
    node_bytes: &[u8],
    tree_bytes: &[u8],
    out: &mut [u16],
) -> WalkState
    requires steppable { Steppable sizes node_bytes.now tree_bytes.now started }
    requires sizes_in_bounds { sizes.items ≤ length out.old }
    ensures { Ran (walk_from (lent_of query sizes node_bytes.now tree_bytes.now) started)
        out.old out.new result }
{
    let lanes = walk_steps::boxes::lanes_of(query);
    let start = WalkState::start();
    let few = sizes.trees.min(1024);
    let s = read_trees(start, few, lanes, sizes, node_bytes, tree_bytes, out);
    if few < sizes.trees {
        return read_trees(s, sizes.trees, lanes, sizes, node_bytes, tree_bytes, out);
    }
    s
}

// The answer that a finished state stands for.
fn answer(s: WalkState) -> Result<Counts, Refused>
    ensures { (number_of result ≡ status_number s.status) × (counts_of result ≡ record { reads = s.reads; handed = s.handed }) }
{
    let counts = Counts {
        reads: s.reads,
        handed: s.handed,
    };
    match s.status {
        Ok(()) => Ok(counts),
        Err(refusal) => Err(Refused { refusal, counts }),
    }
}

// A refusal before anything is read.
fn unread(refusal: WalkRefusal) -> Result<Counts, Refused>
    ensures { (number_of result ≡ (unread refusal).number) × (counts_of result ≡ (unread refusal).counts) }
{
    Err(Refused {
        refusal,
        counts: Counts {
            reads: 0,
            handed: 0,
        },
    })
}

// Which positions the query may meet, into the first places of `out`.
pub fn walk_core(
    query: Aabb,
    cen: Vec3,
    inverse: Vec3,
    sizes: Sizes,
    node_bytes: &[u8],
    tree_bytes: &[u8],
    out: &mut [u16],
) -> Result<Counts, Refused>
    ensures { Promise (walk_of query cen inverse sizes node_bytes.now tree_bytes.now (length out.old))
        out.old out.new result }
{
    if too_many(sizes) {
        return unread(WalkRefusal::TooMany);
    }
    if too_short(sizes, node_bytes.len(), tree_bytes.len(), out.len()) {
        return unread(WalkRefusal::BufferTooShort);
    }
    let q = walk_steps::boxes::quantise_box(query, cen, inverse);
    let s = run(q, sizes, node_bytes, tree_bytes, out);
    answer(s)
}
