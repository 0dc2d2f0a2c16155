// What is counted, of one query and of many. What the sums come to is held against the reference's.
ghost use Rattle.std.specs.Prelude.{◌≡◌};
ghost use Rattle.pairs.specs.Drawing.{failed, together};

use std::num::wrapping_add_u64;

#[derive(Clone, Copy)]
pub struct Tally {
    // Of the tree.
    pub nodes: u64,
    pub trees: u64,
    // Positions handed out, boxes that meet the query, records read.
    pub handed: u64,
    pub meeting: u64,
    pub reads: u64,
    // Items that meet and were not handed out, and positions that stand for an item that was handed out before.
    pub missed: u64,
    pub twice: u64,
    // Queries that were not answered as they must be.
    pub failures: u64,
}

impl Tally {
    pub fn none() -> Tally
        ensures { result ≡ failed 0 }
    {
        Tally {
            nodes: 0,
            trees: 0,
            handed: 0,
            meeting: 0,
            reads: 0,
            missed: 0,
            twice: 0,
            failures: 0,
        }
    }

    // A query that was refused.
    pub fn refused() -> Tally
        ensures { result ≡ failed 1 }
    {
        Tally {
            failures: 1,
            ..Tally::none()
        }
    }

    // With one more query over the same tree. No Add: both are of one tree, whose nodes and trees are not summed.
    pub fn and(self, q: Tally) -> Tally
        ensures { result ≡ together self q }
    {
        Tally {
            nodes: q.nodes,
            trees: q.trees,
            handed: wrapping_add_u64(self.handed, q.handed),
            meeting: wrapping_add_u64(self.meeting, q.meeting),
            reads: wrapping_add_u64(self.reads, q.reads),
            missed: wrapping_add_u64(self.missed, q.missed),
            twice: wrapping_add_u64(self.twice, q.twice),
            failures: wrapping_add_u64(self.failures, q.failures),
        }
    }
}
