// An account, which goes in and comes back by value, and the ledger that stands for it where its columns are lent.
ghost use Rattle.std.specs.Prelude.{◌≡◌};
ghost use Rattle.answer.specs.declared.Answer.TheVariants.{Done, Unsound};
ghost use Rattle.answer.specs.Numbers.{unless, checked};
ghost use Rattle.account.specs.Account.{sound_account};

use crate::settings::Settings;
use crate::soundness::{sound_columns, sound_scalars};
use answer::Answer;
use table::Table;

// What calls report beside the positions.
#[derive(Clone, Copy)]
pub struct Counters {
    pub last_rebalance_order_count: u64,
    pub last_rebalance_notional: i64,
    pub trimmed_fill_count: u64,
    pub trimmed_shortfall_cents: i64,
    // Fills recorded so far, while recording was on.
    pub record_count: u64,
}

// How far the lent equity and return buffers are filled.
#[derive(Clone, Copy)]
pub struct Series {
    pub equity_count: u64,
    pub return_count: u64,
    pub prev_equity: i64,
}

#[derive(Clone, Copy)]
pub struct Account {
    pub cash: i64,
    pub settings: Settings,
    pub counters: Counters,
    pub series: Series,
    pub positions: Table,
}

// An account but for the columns of its positions, which a caller lends. An account by value is some 2,700 bytes, copied at each function
// that takes it and is not compiled into its caller.
#[derive(Clone, Copy)]
pub struct Ledger {
    pub cash: i64,
    pub settings: Settings,
    pub counters: Counters,
    pub series: Series,
    // The count of positions.
    pub count: usize,
}

impl Account {
    // "A sound account has good settings, cash at least 0, positions with good symbols, strictly ascending, unused places zero." Nothing is asked of
    // counters and series.
    pub fn is_sound(self) -> bool
        ensures { result ≡ sound_account self }
    {
        self.sound()
    }

    // 11 for an account that is not sound.
    pub fn check_sound(self) -> Result<(), Answer>
        ensures { result ≡ checked (unless (sound_account self) Unsound Done) }
    {
        self.check()
    }

    // Both of an account that is lent, so that it is not copied for a look at it.
    fn sound(&self) -> bool
        ensures { result ≡ sound_account self.now }
    {
        sound_scalars(self.cash, self.settings)
            && sound_columns(&self.positions.columns, self.positions.count)
    }

    pub(crate) fn check(&self) -> Result<(), Answer>
        ensures { result ≡ checked (unless (sound_account self.now) Unsound Done) }
    {
        if self.sound() {
            Ok(())
        } else {
            Err(Answer::Unsound)
        }
    }
}
