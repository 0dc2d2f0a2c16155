// The rows of a tree in the work buffer. A row has eight words: its box, its head and its count.
ghost use Rattle.std.specs.Prelude.{◌≡◌, ◌+◌, ◌*◌, ◌≤◌, ◌<◌, length, set};
ghost use Rattle.rows.specs.Steps.Table.{row_at, with_row};

use entries::boxes::BoxWords;

// The box of row i.
pub fn row_box(rows: &[u32], i: usize) -> BoxWords
    requires { 8 * i + 8 ≤ length rows.now }
    ensures { result ≡ (row_at rows.now i).box }
{
    entries::boxes::box_from(rows, 8 * i)
}

// The head of row i: a leaf's first position, an inner node's number of nodes.
pub fn row_head(rows: &[u32], i: usize) -> u32
    requires { 8 * i + 8 ≤ length rows.now }
    ensures { result ≡ (row_at rows.now i).head }
{
    rows[8 * i + 6]
}

// The count of row i: how many items it has, of which an inner node has none.
pub fn row_count(rows: &[u32], i: usize) -> u32
    requires { 8 * i + 8 ≤ length rows.now }
    ensures { result ≡ (row_at rows.now i).count }
{
    rows[8 * i + 7]
}

// Row i: a box, a head and a count.
pub fn put_row(rows: &mut [u32], i: usize, around: BoxWords, head: usize, items: usize)
    requires { (8 * i + 8 ≤ length rows.old) × (head < 65536) × (items < 65536) }
    ensures { rows.new ≡ with_row i (record { box = around; head = head; count = items }) rows.old }
{
    let at = 8 * i;
    entries::boxes::put_box(rows, at, around);
    rows[at + 6] = head as u32;
    rows[at + 7] = items as u32;
}

// Another head in row i.
pub fn set_head(rows: &mut [u32], i: usize, head: usize)
    requires { (8 * i + 8 ≤ length rows.old) × (head < 65536) }
    ensures { rows.new ≡ set rows.old (8 * i + 6) head }
{
    rows[8 * i + 6] = head as u32;
}
