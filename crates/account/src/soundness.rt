// Whether an account is sound: its columns, and its scalars.
ghost use Rattle.std.specs.Prelude.{◌≡◌, ◌≤◌};
ghost use Rattle.table.specs.Rows.{cols};
ghost use Rattle.account.specs.Account.{sound_places, sound_columns, sound_scalars, sound_account};
ghost use Rattle.account.specs.Inner.Account.{account_with};

use crate::account::Ledger;
use crate::settings::Settings;
use table::{Columns, Found};

// Whether each of the first n positions is sound.
fn sound_positions<'a>(columns: &'a Columns, n: usize) -> bool
    requires { n ≤ 64 }
    ensures { result ≡ sound_places n columns.now }
{
    for i in 0..n {
        let p = columns.held(Found::At(i), 0);
        if !p.is_sound() {
            return false;
        }
    }
    true
}

// Whether the first n places hold sound positions in ascending order of their symbols and every other place is zero.
pub fn sound_columns<'a>(columns: &'a Columns, n: usize) -> bool
    ensures { result ≡ sound_columns n columns.now }
{
    columns.is_ordered(n) && sound_positions(columns, n)
}

// "good settings, cash at least 0"
pub fn sound_scalars(cash: i64, s: Settings) -> bool
    ensures { result ≡ sound_scalars cash s }
{
    cash >= 0 && s.is_good()
}

// Whether the account of a ledger and five columns is sound.
pub fn sound_account<'a>(h: Ledger, columns: &'a Columns) -> bool
    ensures { result ≡ sound_account (account_with h columns.now) }
{
    sound_scalars(h.cash, h.settings) && sound_columns(columns, h.count)
}
