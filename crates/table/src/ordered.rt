// Whether columns hold a table: symbols strictly ascending, unused places zero.
ghost use Rattle.std.specs.Prelude.{◌≡◌, take, drop};
ghost use Rattle.table.specs.Keyed.{all, ascending};
ghost use Rattle.table.specs.Rows.{zeros, zeros_z, unused, ordered};

use crate::found::used;
use crate::table::Columns;

// Whether each of the first n keys is above the one before it.
pub fn ascends(keys: &[u64], n: usize) -> bool
    ensures { result ≡ ascending (take n keys.now) }
{
    keys[..used(n, keys.len())].is_sorted_by(|key, next| *key < *next)
}

// Whether every place from n on holds zero. Every place is looked at, with no way out of the loop,
// so that it compiles to steps over several places at once.
fn is_zero_from<T: Copy + PartialEq>(column: &[T], n: usize, zero: T) -> bool
    ensures { result ≡ all (λ x. T.eq x zero) (drop n column.now) }
{
    let mut none = true;
    for x in &column[used(n, column.len())..] {
        none &= *x == zero;
    }
    none
}

impl Columns {
    // Whether the places after the first n are zero.
    pub fn is_unused_zero(&self, n: usize) -> bool
        ensures { result ≡ unused n self.now }
    {
        is_zero_from(&self.symbol, n, 0)
            & is_zero_from(&self.quantity, n, 0)
            & is_zero_from(&self.average, n, 0)
            & is_zero_from(&self.realized, n, 0)
            & is_zero_from(&self.total, n, 0)
    }

    // Whether n positions stand in ascending order of their symbols and every other place is zero.
    pub fn is_ordered(&self, n: usize) -> bool
        ensures { result ≡ ordered n self.now }
    {
        n <= 64 && ascends(&self.symbol, n) && self.is_unused_zero(n)
    }
}
