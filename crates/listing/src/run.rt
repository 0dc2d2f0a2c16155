// The program's one turn, over descriptors.

// Reads an input and writes what `boxes` prints for it. One byte over the limit is enough to know that an input is over it.
pub fn run(from: i32, to: i32) {
    let mut input = [0u8; 8193];
    let n = io::read_full(from, &mut input);
    let mut out = [0u8; 69632];
    let k = crate::list::list_boxes(&input[..n], &mut out);
    io::write_all(to, &out[..k]);
}
