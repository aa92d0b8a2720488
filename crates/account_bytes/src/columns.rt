// Five columns of an account, read into lent columns and written from them.
ghost use Rattle.std.specs.Prelude.{◌≡◌};
ghost use Rattle.std.proofs.lemmas.List.Edits.{sets};
ghost use Rattle.word_bytes.specs.Words.{words_of};
ghost use Rattle.table.specs.Rows.{cols, Full};
ghost use Rattle.account_bytes.specs.Sizes.{symbols_from};
ghost use Rattle.account_bytes.specs.Account.{column_words, read_columns};

use crate::run::{put_column, read_column};
use crate::sizes::{ACCOUNT_BYTES, AVERAGES_AT, QUANTITIES_AT, REALIZED_AT, SYMBOLS_AT, TOTALS_AT};
use table::Columns;

// The columns of the account in its bytes. Nothing is read where the length is another.
pub fn read_columns(bytes: &[u8], columns: &mut Columns)
    ensures { columns.new ≡ read_columns bytes.now columns.old }
{
    if bytes.len() != ACCOUNT_BYTES {
        return;
    }
    read_column(bytes, SYMBOLS_AT, &mut columns.symbol);
    read_column(bytes, QUANTITIES_AT, &mut columns.quantity);
    read_column(bytes, AVERAGES_AT, &mut columns.average);
    read_column(bytes, REALIZED_AT, &mut columns.realized);
    read_column(bytes, TOTALS_AT, &mut columns.total);
}

// Columns into an account's words.
pub(crate) fn put_columns<'a>(bytes: &mut [u8], columns: &'a Columns)
    ensures { (Full columns.now) × (words_of bytes.new ≡ sets (words_of bytes.old) symbols_from (column_words columns.now)) }
{
    put_column(bytes, SYMBOLS_AT, &columns.symbol);
    put_column(bytes, QUANTITIES_AT, &columns.quantity);
    put_column(bytes, AVERAGES_AT, &columns.average);
    put_column(bytes, REALIZED_AT, &columns.realized);
    put_column(bytes, TOTALS_AT, &columns.total);
}
