// A place opened in one column of 64, whatever stands in it.
ghost use Rattle.std.specs.Prelude.{◌≡◌};
ghost use Rattle.table.specs.Inner.Rows.{opened_at};

// Puts v at i of the first n, and moves what stood from i to n one up. A full column, or a place past the count, leaves the column as it is.
pub fn open<T: Copy>(column: &mut [T; 64], i: usize, n: usize, v: T)
    ensures { column.new ≡ opened_at i n v column.old }
{
    if n < 64 && i <= n {
        let mut carry = v;
        for j in i..n {
            let next = column[j];
            column[j] = carry;
            carry = next;
        }
        column[n] = carry;
    }
}
