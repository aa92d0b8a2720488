// The positions of the file, into a table.
ghost use Rattle.std.specs.Prelude.{◌≡◌, ◌≤◌};
ghost use Rattle.table.specs.Rows.{cols};
ghost use Rattle.loading.specs.Reading.{positions_read, table_read, positions_or_fault};
ghost use Rattle.loading.specs.Inner.Reading.{filed_as, set_rows};

use crate::entry::position_at;
use seven_bit::Fault;
use table::{Columns, Found, Table};

// How many positions were read whole, and where they ended or the first fault.
#[derive(Clone, Copy)]
struct Filed {
    count: usize,
    next: Result<usize, Fault>,
}

// The positions, and where they ended.
#[derive(Clone, Copy)]
pub(crate) struct Positions {
    pub(crate) next: usize,
    pub(crate) table: Table,
}

// As many positions as are told into the first places of five columns. It stops at the first fault.
fn positions_at(bytes: &[u8], form: u64, place: usize, count: usize, columns: &mut Columns) -> Filed
    requires { count ≤ 64 }
    ensures { let rows = positions_read count bytes.now form place in
        (result ≡ filed_as rows) × (columns.new ≡ set_rows 0 rows.rows columns.old) }
{
    let mut at = place;
    for i in 0..count {
        match position_at(bytes, form, at) {
            Ok(entry) => {
                columns.post(i, Found::At(i), entry.position);
                at = entry.next;
            }
            Err(fault) => {
                return Filed {
                    count: i,
                    next: Err(fault),
                };
            }
        }
    }
    Filed {
        count,
        next: Ok(at),
    }
}

// So many positions, at most 64, as a table.
pub(crate) fn table_at(
    bytes: &[u8],
    form: u64,
    count: u64,
    place: usize,
) -> Result<Positions, Fault>
    ensures { result ≡ positions_or_fault (table_read bytes.now form count place) }
{
    let mut table = Table::empty();
    let most = count.min(64) as usize;
    let filed = positions_at(bytes, form, place, most, &mut table.columns);
    let next = filed.next?;
    table.count = filed.count;
    Ok(Positions { next, table })
}
