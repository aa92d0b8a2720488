// A target list: each entry a symbol and its weight, a double.
ghost use Rattle.std.specs.Prelude.{◌≡◌};
ghost use Rattle.list_bytes.specs.Inner.Lists.{entry_columns, targets_into, targets_of};

use crate::entry::{entries_into, is_whole};

// "at most [..] 64 targets"
const MOST_TARGETS: usize = 64;

// The first `count` places of each column; all others are 0.
#[derive(Clone, Copy)]
pub struct Targets {
    pub count: usize,
    pub symbol: [u64; 64],
    pub weight: [f64; 64],
}

// The entries into the first places of two columns, and how many there are. The rest is as found; of a list that is not whole nothing is read.
pub fn targets_into(bytes: &[u8], symbol: &mut [u64; 64], weight: &mut [f64; 64]) -> usize
    ensures { entry_columns result symbol.new weight.new ≡ targets_into bytes.now symbol.old weight.old }
{
    entries_into(bytes, symbol, weight)
}

pub fn read_targets(bytes: &[u8]) -> Option<Targets>
    ensures { result ≡ targets_of bytes.now }
{
    if !is_whole(bytes.len(), MOST_TARGETS) {
        return None;
    }
    let mut symbol = [0; 64];
    let mut weight = [0.0; 64];
    let count = targets_into(bytes, &mut symbol, &mut weight);
    Some(Targets {
        count,
        symbol,
        weight,
    })
}
