// The numbers of nodes of the rows' trees.
ghost use Rattle.std.specs.Prelude.{◌≡◌, ◌*◌, ◌≤◌, ◌<◌, length, take};
ghost use Rattle.rows.specs.Steps.Sizes.{size_at, sized};
ghost use Rattle.rows.specs.Steps.Table.{table_of, rows_in};

use crate::table::{row_count, row_head, set_head};

// How many nodes the tree at row j of m has; 0 past the end.
pub fn node_size(rows: &[u32], m: usize, j: usize) -> usize
    requires { 8 * m ≤ length rows.now }
    ensures { result ≡ size_at (rows_in m rows.now) j }
{
    if j < m {
        if row_count(rows, j) == 0 {
            row_head(rows, j) as usize
        } else {
            1
        }
    } else {
        0
    }
}

// The numbers of nodes of m rows, put in from the last row to the first: a node's children stand behind it.
pub fn fill_sizes(rows: &mut [u32], m: usize)
    requires { (8 * m ≤ length rows.old) × (m < 65536) }
    ensures { take (8 * m) rows.new ≡ table_of (sized (rows_in m rows.old)) }
{
    for i in (0..m).rev() {
        if row_count(rows, i) == 0 {
            let l = node_size(rows, m, i + 1);
            let r = node_size(rows, m, i + 1 + l);
            set_head(rows, i, 1 + l + r);
        }
    }
}
