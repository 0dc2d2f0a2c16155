// The build on plain slices: the checks, the tree in the work buffers, and last the outputs, so that a refusal changes none of them.
// The work buffer is lent in five parts, since two parts of one slice cannot be lent at once.
ghost use Rattle.std.specs.Prelude.{◌≡◌, ◌+◌, ◌*◌, ◌<◌, ◌≤◌, length, take};
ghost use Rattle.base.specs.Lists.{over};
ghost use Rattle.bvh.specs.Build.{short};
ghost use Rattle.bvh.specs.Entry.{entries_in, outputs, lent, lengths_of, AnsweredBy};
ghost use Rattle.bvh.specs.Items.{marked};
ghost use Rattle.rows.specs.Output.{order_of};
ghost use Rattle.bvh.specs.Steps.Core.{NodesWritten, OrderFits, WorkRoom, TreePlanted, Writable, Written};
ghost use Rattle.rows.specs.Steps.Decode.{RowsFit};

use math::words3::Words3;
use records::scale::Scale;

#[derive(Clone, Copy)]
pub struct BuiltTree {
    pub nodes: usize,
    pub capacity: usize,
    pub trees: usize,
    pub present: usize,
    pub min: Words3,
    pub max: Words3,
    pub scale: Scale,
}

// Why a build is refused.
#[derive(Clone, Copy)]
pub enum BuildRefusal {
    TooManyEntries,
    ThresholdOutside,
    BufferTooShort,
    TooManyNodes,
}

// The lengths of the lent buffers.
#[derive(Clone, Copy)]
pub struct Lengths {
    pub nodes: usize,
    pub trees: usize,
    pub order: usize,
    pub entries: usize,
    pub places: usize,
    pub temp: usize,
    pub stack: usize,
    pub rows: usize,
    pub centres: usize,
}

// How many entries there are, how many items a leaf may have, and how many nodes a range.
#[derive(Clone, Copy)]
pub struct Task {
    pub n: usize,
    pub threshold: usize,
    pub limit: usize,
}

// How many entries are present, and how many nodes their tree has.
#[derive(Clone, Copy)]
pub struct Planted {
    pub present: usize,
    pub nodes: usize,
}

// Whether a buffer is too short for n entries.
fn too_short(n: usize, l: Lengths) -> bool
    requires { n ≤ 32767 }
    ensures { result ≡ short n l }
{
    let rows = 2 * n + 1;
    l.nodes < 16 * rows
        || l.trees < 16 * rows
        || l.order < n
        || l.entries < 7 * n
        || l.places < n
        || l.temp < n
        || l.stack < n
        || l.rows < 8 * rows
        || l.centres < 4 * n
}

// The records of m rows and, at threshold 1, the padding; how many records that is.
fn write_nodes(
    node_bytes: &mut [u8],
    rows: &[u32],
    m: usize,
    leaf_order: &[u32],
    scale: Scale,
    task: Task,
) -> usize
    requires { (RowsFit task.threshold m leaf_order.now rows.now node_bytes.old) × (task.n ≤ 32767) × (m ≤ 2 * task.n + 1)
        × (16 * (2 * task.n + 1) ≤ length node_bytes.old) }
    ensures { NodesWritten scale task m leaf_order.now rows.now node_bytes.old
        node_bytes.new result }
{
    rows::emit::put_nodes(node_bytes, rows, m, leaf_order, scale, task.threshold);
    if task.threshold == 1 {
        let capacity = 2 * task.n + 1;
        rows::emit::pad_nodes(node_bytes, m, capacity);
        return capacity;
    }
    m
}

// The order list: at threshold 1 the present places again, rising, else the leaf order.
fn write_order(order: &mut [u16], entries: &[u32], leaf_order: &[u32], temp: &mut [u32], task: Task)
    requires { OrderFits task entries.now leaf_order.now temp.old order.old }
    ensures { order.new ≡ over (order_of task.threshold (marked 0 task.n entries.now)
        leaf_order.now) order.old }
{
    if task.threshold == 1 {
        let k = crate::items::gather(entries, task.n, temp);
        rows::emit::put_order(order, &temp[..k]);
    } else {
        rows::emit::put_order(order, leaf_order);
    }
}

// The present places, and their tree in the work buffers.
fn plant(
    entries: &[u32],
    places: &mut [u32],
    temp: &mut [u32],
    stack: &mut [u32],
    rows: &mut [u32],
    centres: &mut [f32],
    task: Task,
) -> Planted
    requires { WorkRoom task (lent entries.now places.old temp.old stack.old rows.old centres.old) }
    ensures { TreePlanted task entries.now places.new rows.new result }
{
    let k = crate::items::gather(entries, task.n, places);
    let m = growth::grow::grow_tree(
        &mut places[..k],
        temp,
        entries,
        stack,
        rows,
        centres,
        task.threshold,
    );
    Planted {
        present: k,
        nodes: m,
    }
}

// The outputs of a planted tree, and the values of the answer.
fn write_tree(
    entries: &[u32],
    node_bytes: &mut [u8],
    tree_bytes: &mut [u8],
    order: &mut [u16],
    places: &[u32],
    temp: &mut [u32],
    rows: &[u32],
    task: Task,
    planted: Planted,
) -> BuiltTree
    requires { Writable task planted entries.now places.now temp.old rows.now
        (outputs node_bytes.old tree_bytes.old order.old) }
    ensures { Written task.limit (entries_in task.n entries.now) task.threshold result
        (outputs node_bytes.old tree_bytes.old order.old)
        (outputs node_bytes.new tree_bytes.new order.new) }
{
    let m = planted.nodes;
    let k = planted.present;
    let all = rows::table::row_box(rows, 0);
    let min = all.min;
    let max = all.max;
    let scale = records::scale::scale_of(min, max);
    let capacity = write_nodes(node_bytes, rows, m, &places[..k], scale, task);
    let parts = rows::ranges::put_trees(tree_bytes, rows, m, scale, task.limit);
    write_order(order, entries, &places[..k], temp, task);
    BuiltTree {
        nodes: m,
        capacity: capacity,
        trees: parts,
        present: k,
        min: min,
        max: max,
        scale: scale,
    }
}

// The tree of the present ones among n entries, seven words each: a mark, then the box. No range has more than `limit` nodes.
pub fn build_core(
    n: usize,
    threshold: u32,
    limit: usize,
    entries: &[u32],
    node_bytes: &mut [u8],
    tree_bytes: &mut [u8],
    order: &mut [u16],
    places: &mut [u32],
    temp: &mut [u32],
    stack: &mut [u32],
    rows: &mut [u32],
    centres: &mut [f32],
) -> Result<BuiltTree, BuildRefusal>
    requires { 0 < limit }
    ensures { AnsweredBy limit (entries_in n (take (7 * n) entries.now)) threshold
        (lengths_of (outputs node_bytes.old tree_bytes.old order.old)
        (lent entries.now places.old temp.old stack.old rows.old centres.old)) result
        (outputs node_bytes.old tree_bytes.old order.old)
        (outputs node_bytes.new tree_bytes.new order.new) }
{
    if 32767 < n {
        return Err(BuildRefusal::TooManyEntries);
    }
    if threshold < 1 || 32767 < threshold {
        return Err(BuildRefusal::ThresholdOutside);
    }
    let lengths = Lengths {
        nodes: node_bytes.len(),
        trees: tree_bytes.len(),
        order: order.len(),
        entries: entries.len(),
        places: places.len(),
        temp: temp.len(),
        stack: stack.len(),
        rows: rows.len(),
        centres: centres.len(),
    };
    if too_short(n, lengths) {
        return Err(BuildRefusal::BufferTooShort);
    }
    let task = Task {
        n: n,
        threshold: threshold as usize,
        limit: limit,
    };
    let listed = &entries[..7 * n];
    let planted = plant(listed, places, temp, stack, rows, centres, task);
    if 32767 < planted.nodes {
        return Err(BuildRefusal::TooManyNodes);
    }
    Ok(write_tree(
        listed, node_bytes, tree_bytes, order, places, temp, rows, task, planted,
    ))
}
