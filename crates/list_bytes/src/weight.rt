// Weights as bytes: each entry a symbol and its weight, a double.
ghost use Rattle.std.specs.Prelude.{◌≡◌};
ghost use Rattle.list_bytes.specs.Weights.{written_weights};

use word_bytes::{pattern, put_symbol, put_word};

// Writes the first weights of two columns, as many as `count`, the columns and the bytes allow. The rest of the bytes is as found.
pub fn write_weights(count: usize, symbol: [u64; 64], weight: [f64; 64], out: &mut [u8])
    ensures { out.new ≡ written_weights count symbol weight out.old }
{
    for i in 0..count.min(64).min(out.len() / 16) {
        put_symbol(out, 2 * i, symbol[i]);
        put_word(out, 2 * i + 1, pattern(weight[i]));
    }
}
