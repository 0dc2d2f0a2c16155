// Whether the vertices of a polygon are there: one test of the greatest number takes the place of one of each.
ghost use Rattle.std.specs.Prelude.{true, ◌≡◌, ◌+◌, ◌*◌, ◌≤◌};

// Whether all three are vertices of a list of so many words.
pub fn within(i: u16, j: u16, k: u16, words: usize) -> bool
    ensures { result ≡ true → (3 * i + 3 ≤ words) × (3 * j + 3 ≤ words) × (3 * k + 3 ≤ words) }
{
    3 * (i.max(j).max(k) as usize) + 3 <= words
}

pub fn within_4(i: u16, j: u16, k: u16, l: u16, words: usize) -> bool
    ensures { result ≡ true → (3 * i + 3 ≤ words) × (3 * j + 3 ≤ words) × (3 * k + 3 ≤ words) × (3 * l + 3 ≤ words) }
{
    within(i, j, k.max(l), words)
}
