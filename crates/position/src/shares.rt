// Share counts, kept apart from prices and values.
ghost use Rattle.std.specs.Prelude.{◌≡◌, nat_abs};
ghost use Rattle.sums.specs.Sums.{sat_add, sat_sub, sat_neg, sat_abs};
ghost use Rattle.position.specs.Rows.{shares};
ghost use Rattle.position.specs.Shares.{from_whole, to_f64, whole_shares, is_zero, is_positive, is_negative};

// A share count in fixed-point micro-shares: 1 unit is 0.000001 share.
// A type of its own, so that a share count never stands for a price or a value.
#[derive(Clone, Copy, PartialEq, Eq, PartialOrd, Ord)]
pub struct Shares(pub(crate) i64);

impl Shares {
    // Micro-shares per whole share.
    pub const SCALE: i64 = 1_000_000;

    // A flat (zero) quantity.
    pub const ZERO: Shares = Shares(0);

    // Build from a whole-share count. Saturates, where the Rust wraps.
    pub fn from_whole(n: i64) -> Shares
        ensures { result ≡ shares (from_whole n) }
    {
        Shares(n.saturating_mul(Shares::SCALE))
    }

    // Build from a raw micro-share count.
    pub fn from_raw(raw: i64) -> Shares
        ensures { result ≡ shares raw }
    {
        Shares(raw)
    }

    // The raw micro-share count (signed: positive = long, negative = short).
    pub fn raw(self) -> i64
        ensures { result ≡ self.0 }
    {
        self.0
    }

    // The quantity as a fractional share count.
    pub fn to_f64(self) -> f64
        ensures { result ≡ to_f64 self.0 }
    {
        doubles::i64_to_f64(self.0) / 1_000_000.0
    }

    // Truncate to a whole-share count (drops any fractional remainder).
    #[tactic(auto, unfolding(crate::specs::Shares::whole_shares))]
    pub fn whole(self) -> i64
        ensures { result ≡ whole_shares self.0 }
    {
        sums::whole(self.0)
    }

    pub fn is_zero(self) -> bool
        ensures { result ≡ is_zero self.0 }
    {
        self.0 == 0
    }

    pub fn is_positive(self) -> bool
        ensures { result ≡ is_positive self.0 }
    {
        0 < self.0
    }

    pub fn is_negative(self) -> bool
        ensures { result ≡ is_negative self.0 }
    {
        self.0 < 0
    }

    // "Share sums, negation and absolute value saturate": here, in add, in sub and in neg.
    pub fn abs(self) -> Shares
        ensures { result ≡ shares (sat_abs self.0) }
    {
        Shares(sums::saturating_abs(self.0))
    }

    // Absolute value as an unsigned raw micro-share count.
    pub fn unsigned_abs(self) -> u64
        ensures { result ≡ nat_abs self.0 }
    {
        self.0.unsigned_abs()
    }

    pub fn add(self, other: Shares) -> Shares
        ensures { result ≡ shares (sat_add self.0 other.0) }
    {
        Shares(sums::saturating_add(self.0, other.0))
    }

    pub fn sub(self, other: Shares) -> Shares
        ensures { result ≡ shares (sat_sub self.0 other.0) }
    {
        Shares(sums::saturating_sub(self.0, other.0))
    }

    pub fn neg(self) -> Shares
        ensures { result ≡ shares (sat_neg self.0) }
    {
        Shares(sums::saturating_neg(self.0))
    }
}
