// The figures of a snapshot as bytes: four words.
ghost use Rattle.std.specs.Prelude.{◌≡◌};
ghost use Rattle.list_bytes.specs.Inner.Records.{put_all};
ghost use Rattle.list_bytes.specs.Inner.Figures.{figure_words};

use word_bytes::{put_word, unsigned};

// Writes cash, equity, how many positions are open and the realized profit into the first places, those that there are. The rest of the bytes is as found.
pub fn write_figures(cash: i64, equity: i64, positions: u64, profit: i64, out: &mut [u8])
    ensures { out.new ≡ put_all out.old 0 (figure_words cash equity positions profit) }
{
    put_word(out, 0, unsigned(cash));
    put_word(out, 1, unsigned(equity));
    put_word(out, 2, positions);
    put_word(out, 3, unsigned(profit));
}
