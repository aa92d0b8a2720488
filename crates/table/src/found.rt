// Where a key stands in a column that ascends.
ghost use Rattle.std.specs.Prelude.{◌≡◌, ◌≤◌, length, take};
ghost use Rattle.table.specs.Inner.Keyed.{Rising};
ghost use Rattle.table.specs.Inner.Places.{Finds, found, shorter};

// The place of a key, or the place at which it would be inserted.
#[derive(Clone, Copy)]
pub enum Found {
    At(usize),
    Absent(usize),
}

// The count of places in use, however many there are said to be.
pub fn used(n: usize, most: usize) -> usize
    ensures { result ≡ shorter n most }
{
    n.min(most)
}

// The place by the library's halving search.
fn search(keys: &[u64], n: usize, key: u64) -> Found
    requires { n ≤ length keys.now }
    ensures { Finds key (take n keys.now) result }
{
    match keys[..n].binary_search(&key) {
        Ok(i) => Found::At(i),
        Err(i) => Found::Absent(i),
    }
}

// Where the key stands among the first n, or where it would be inserted.
// The answer is settled for keys that ascend, as the caller has checked once for all its searches: a search that
// checked it each time would look at every key. For any keys the place is one of the first n, or the one after them.
// The hinted place is looked at first; the answer does not depend on the hint.
pub fn find(keys: &[u64], n: usize, key: u64, hint: usize) -> Found
    ensures { Finds key (take n keys.now) result }
{
    let m = used(n, keys.len());
    if hint < m && keys[hint] == key {
        Found::At(hint)
    } else {
        search(keys, m, key)
    }
}
