// A fixed-size symbol identifier.
ghost use Rattle.std.specs.Prelude.{◌≡◌};
ghost use Rattle.position.specs.Rows.{symbol};
ghost use Rattle.position.specs.Symbols.{good_byte, good_symbol, of_bytes};

// Eight bytes as one number, the first byte highest, so that number order is byte order.
#[derive(Clone, Copy, PartialEq, Eq, PartialOrd, Ord)]
pub struct Symbol(pub u64);

impl Symbol {
    // The symbol of eight bytes, good or not.
    pub fn from_bytes(bytes: &[u8; 8]) -> Symbol
        ensures { result ≡ symbol (of_bytes bytes.now) }
    {
        Symbol(u64::from_be_bytes(*bytes))
    }

    // "1 to 8 bytes, each 33 to 126, padded with zeros". The rest of a padded symbol is the number 0, so a short one ends early.
    pub fn is_good(self) -> bool
        ensures { result ≡ good_symbol self.0 }
    {
        let mut rest = self.0;
        if rest == 0 {
            return false;
        }
        for _ in 0..8usize {
            if rest == 0 {
                return true;
            }
            let b = rest / 0x100_0000_0000_0000;
            if !good_byte(b) {
                return false;
            }
            rest = (rest % 0x100_0000_0000_0000) * 256;
        }
        true
    }
}

// "each 33 to 126"
fn good_byte(b: u64) -> bool
    ensures { result ≡ good_byte b }
{
    33 <= b && b <= 126
}
