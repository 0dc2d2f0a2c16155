// A walk's state goes in by value and comes back one record further, with its read count and the run of positions that it hands out.
// A step stores nothing.
ghost use Rattle.std.specs.Prelude.{◌≡◌, true, ◌+◌, ◌*◌, ◌≤◌, ◌<◌, length};
ghost use Rattle.records.specs.Records.{node_at, tree_at};
ghost use Rattle.walk_steps.specs.Step.{lent_of, quiet, refused, at_tree, stride_of, leaf_status, handing, started, at_node, more, step_of};
ghost use Rattle.walk_steps.specs.Steps.Contracts.{Steppable, Stepped, ahead_at, inside_range};
ghost use Rattle.walk_steps.specs.Steps.Lanes.{plain_of, Topped};

use crate::boxes::{Lanes, Query};
use crate::refusals::WalkRefusal;
use base::numbers::Position;
use records::BvhNode;

// How many nodes, trees and items there are.
#[derive(Clone, Copy)]
pub struct Sizes {
    pub nodes: usize,
    pub trees: usize,
    pub items: usize,
}

// The next tree to read, the next node and one past the last of the range, the counts so far, and whether the walk goes on or what it was
// refused for.
#[derive(Clone, Copy)]
pub struct WalkState {
    pub tree: usize,
    pub at: usize,
    pub last: usize,
    pub reads: usize,
    pub handed: usize,
    pub status: Result<(), WalkRefusal>,
}

// One record further: the state, and the run of `count` positions from `first` on that is handed out.
#[derive(Clone, Copy)]
pub struct Step {
    pub state: WalkState,
    pub first: Position,
    pub count: usize,
}

// A step that hands out nothing.
fn quiet(state: WalkState) -> Step
    ensures { Stepped (quiet state) result }
{
    Step {
        state,
        first: Position(0),
        count: 0,
    }
}

// Refusal 11, where a node has more positions than there is room for.
fn leaf_status(room: usize, count: usize) -> Result<(), WalkRefusal>
    ensures { result ≡ leaf_status room count }
{
    if room < count {
        Err(WalkRefusal::TooManyHandedOut)
    } else {
        Ok(())
    }
}

// How far on the next node is after one that misses.
fn stride(n: BvhNode) -> usize
    ensures { (result ≡ stride_of n) × (result < 32768) }
{
    let count = crate::refusals::number(n.item_count);
    if count == 0 {
        crate::refusals::skip(n.item_id)
    } else {
        1
    }
}

// The node record of the number given.
pub fn node_numbered(node_bytes: &[u8], number: usize) -> BvhNode
    requires { 16 * number + 16 ≤ length node_bytes.now }
    ensures { result ≡ node_at node_bytes.now (16 * number) }
{
    records::node_at(node_bytes, 16 * number)
}

impl WalkState {
    pub fn start() -> WalkState
        ensures { result ≡ started }
    {
        WalkState {
            tree: 0,
            at: 0,
            last: 0,
            reads: 0,
            handed: 0,
            status: Ok(()),
        }
    }

    // Whether a record is left to read.
    pub fn unfinished(self, trees: usize) -> bool
        ensures { result ≡ more trees self }
    {
        self.status.is_ok() && (self.at < self.last || self.tree < trees)
    }

    // Whether a node of the range is left to read.
    pub fn inside(self) -> bool
        ensures { result ≡ inside_range self }
    {
        self.status.is_ok() && self.at < self.last
    }

    // The trees before `tree` are passed over, each of them read.
    pub fn ahead(self, tree: usize) -> WalkState
        requires { (self.tree ≤ tree) × (tree ≤ 65535) × (self.reads < 4294967296) }
        ensures { result ≡ ahead_at tree self }
    {
        let read = self.reads + (tree - self.tree);
        WalkState {
            tree,
            at: self.at,
            last: self.last,
            reads: read,
            handed: self.handed,
            status: Ok(()),
        }
    }

    // The walk stops at the record just read, which counts.
    fn refused(self, why: WalkRefusal) -> WalkState
        requires { self.reads < 4294967296 }
        ensures { result ≡ refused why self }
    {
        let read = self.reads + 1;
        WalkState {
            tree: self.tree,
            at: self.at,
            last: self.last,
            reads: read,
            handed: self.handed,
            status: Err(why),
        }
    }

    // The next tree record is read.
    pub fn at_tree(self, query: Lanes, nodes: usize, tree_bytes: &[u8]) -> WalkState
        requires tree_in_bounds { (16 * self.tree + 16 ≤ length tree_bytes.now) × (self.tree < 65536) × (self.reads < 4294967296) }
        requires topped { Topped query }
        ensures { result ≡ at_tree (plain_of query) nodes (tree_at tree_bytes.now (16 * self.tree)) self }
    {
        let t = records::tree_at(tree_bytes, 16 * self.tree);
        if crate::refusals::range_refused(t, nodes) {
            return self.refused(WalkRefusal::TreeRange);
        }
        if crate::boxes::meets(query, t.min, t.max, t.node_index1, t.node_index2) {
            let first = crate::refusals::number(t.node_index1);
            let last = crate::refusals::number(t.node_index2);
            WalkState {
                tree: self.tree + 1,
                at: first,
                last,
                reads: self.reads + 1,
                handed: self.handed,
                status: Ok(()),
            }
        } else {
            WalkState {
                tree: self.tree + 1,
                at: self.at,
                last: self.last,
                reads: self.reads + 1,
                handed: self.handed,
                status: Ok(()),
            }
        }
    }

    // A node that meets hands out its positions, as many as the item count leaves.
    fn hand_over(self, n: BvhNode, items: usize) -> Step
        requires { (self.handed ≤ items) × (items ≤ 65535) × (self.at < 65536) × (self.reads < 4294967296) }
        ensures { Stepped (handing items n self) result }
    {
        let id = crate::refusals::number(n.item_id);
        let count = crate::refusals::number(n.item_count);
        let room = items - self.handed;
        let m = count.min(room);
        let status = leaf_status(room, count);
        Step {
            state: WalkState {
                tree: self.tree,
                at: self.at + 1,
                last: self.last,
                reads: self.reads + 1,
                handed: self.handed + m,
                status,
            },
            first: Position(id as u32),
            count: m,
        }
    }

    // The next node record of the range is read.
    pub fn at_node(self, query: Lanes, items: usize, node_bytes: &[u8]) -> Step
        requires at_in_bounds { (16 * self.at + 16 ≤ length node_bytes.now) × (self.at < 65535) × (self.reads < 4294967296) }
        requires handed_le { (self.handed ≤ items) × (items ≤ 65535) }
        requires topped { Topped query }
        ensures { Stepped (at_node (plain_of query) items (node_at node_bytes.now (16 * self.at)) self) result }
    {
        let n = node_numbered(node_bytes, self.at);
        let apart = crate::numbers::node_apart(node_bytes, 16 * self.at);
        if crate::refusals::node_refused(apart, self.at, self.last, items) {
            return quiet(self.refused(WalkRefusal::NodeRecord));
        }
        if crate::boxes::meets(query, n.min, n.max, n.item_id, n.item_count) {
            return self.hand_over(apart, items);
        }
        quiet(WalkState {
            tree: self.tree,
            at: self.at + stride(apart),
            last: self.last,
            reads: self.reads + 1,
            handed: self.handed,
            status: Ok(()),
        })
    }

    // One record is read.
    pub fn step(self, query: Query, sizes: Sizes, node_bytes: &[u8], tree_bytes: &[u8]) -> Step
        requires steppable { Steppable sizes node_bytes.now tree_bytes.now self }
        requires self_value { more sizes.trees self ≡ true }
        ensures { Stepped (step_of (lent_of query sizes node_bytes.now tree_bytes.now) self) result }
    {
        let lanes = crate::boxes::lanes_of(query);
        if self.at < self.last {
            self.at_node(lanes, sizes.items, node_bytes)
        } else {
            quiet(self.at_tree(lanes, sizes.nodes, tree_bytes))
        }
    }
}
