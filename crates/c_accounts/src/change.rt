// One setting of an account in lent bytes changed.
ghost use Rattle.std.specs.Prelude.{◌≡◌, true};
ghost use Rattle.account.specs.Settings.{with_step, with_min_order, with_max_order, with_band, with_trade_cap, with_max_notional, with_recording, with_cash_first};
ghost use Rattle.account_bytes.specs.Settings.{is_flag, flag_of, is_cap, cap_of};
ghost use Rattle.c_accounts.specs.Entries.{settings_in, account_told};
ghost use Rattle.c_accounts.specs.Setters.{set_in};

use crate::filed::change;
use account_bytes::{cap_of, is_cap, is_flag};

#[unsafe(no_mangle)]
pub extern "C" fn tc_set_quantity_step(account: &mut [u8], micro_shares: i64) -> u64
    ensures { account_told result account.new ≡ set_in true (with_step micro_shares (settings_in account.old)) account.old }
{
    change(true, account, |a| a.set_quantity_step(micro_shares))
}

#[unsafe(no_mangle)]
pub extern "C" fn tc_set_min_order_value(account: &mut [u8], cents: i64) -> u64
    ensures { account_told result account.new ≡ set_in true (with_min_order cents (settings_in account.old)) account.old }
{
    change(true, account, |a| a.set_min_order_value(cents))
}

#[unsafe(no_mangle)]
pub extern "C" fn tc_set_max_order_value(account: &mut [u8], cents: i64) -> u64
    ensures { account_told result account.new ≡ set_in true (with_max_order cents (settings_in account.old)) account.old }
{
    change(true, account, |a| a.set_max_order_value(cents))
}

// A double that is no number is a band that is bad: 1.
#[unsafe(no_mangle)]
pub extern "C" fn tc_set_no_trade_band_bps(account: &mut [u8], bps: f64) -> u64
    ensures { account_told result account.new ≡ set_in true (with_band bps (settings_in account.old)) account.old }
{
    change(true, account, |a| a.set_no_trade_band_bps(bps))
}

// The mark 1 sets the cap; the mark 0 lifts it, and the cap is then 0.
#[unsafe(no_mangle)]
pub extern "C" fn tc_set_max_trades_per_rebalance(account: &mut [u8], mark: u64, cap: u64) -> u64
    ensures { account_told result account.new ≡ set_in (is_cap mark cap) (with_trade_cap (cap_of mark cap) (settings_in account.old)) account.old }
{
    change(
        is_cap(mark, cap),
        account,
        |a| a.set_max_trades_per_rebalance(cap_of(mark, cap)),
    )
}

#[unsafe(no_mangle)]
pub extern "C" fn tc_set_max_rebalance_notional(account: &mut [u8], cents: i64) -> u64
    ensures { account_told result account.new ≡ set_in true (with_max_notional cents (settings_in account.old)) account.old }
{
    change(true, account, |a| a.set_max_rebalance_notional(cents))
}

// 1 turns recording on, 0 off; another number is no flag: 1.
#[unsafe(no_mangle)]
pub extern "C" fn tc_set_recording(account: &mut [u8], flag: u64) -> u64
    ensures { account_told result account.new ≡ set_in (is_flag flag) (with_recording (flag_of flag) (settings_in account.old)) account.old }
{
    change(is_flag(flag), account, |a| a.set_recording(flag == 1))
}

#[unsafe(no_mangle)]
pub extern "C" fn tc_set_cash_first(account: &mut [u8], flag: u64) -> u64
    ensures { account_told result account.new ≡ set_in (is_flag flag) (with_cash_first (flag_of flag) (settings_in account.old)) account.old }
{
    change(is_flag(flag), account, |a| a.set_cash_first(flag == 1))
}
