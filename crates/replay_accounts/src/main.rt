// Replays a stored sample of the Rust's accounts: each row's call on the account that the row before it tells, beside the Rust's answer and account.
#![tactic(auto)]

mod call;
mod row;
mod state;
mod told;

use account::Account;
use row::Row;
use std::fs::File;
use std::io::{self, Read};
use std::rt::HostRuntime;

#[derive(Clone, Copy)]
enum Outcome {
    Same,
    Differs,
    End,
}

// Whether a call on an account answers what the row has, and leaves the account that is told. A row of number 30 has no call: it tells the account that the
// next one starts from.
fn agrees(r: Row, a: Account, told: &[u8]) -> bool {
    match row::head(r, 0) {
        0..=9 => call::change(r, a, told),
        12 => call::period(r, a, told),
        10..=19 => call::trade(r, a, told),
        30 => true,
        _ => told::tell(r, a) && state::same_account(told, a),
    }
}

// How many bytes were read: fewer than there is room for at the file's end alone.
fn read_full(file: &mut File, bytes: &mut [u8]) -> io::Result<usize> {
    let mut at = 0usize;
    while at < bytes.len() {
        let n = file.read(&mut bytes[at..])?;
        if n == 0 {
            break;
        }
        at += n;
    }
    Ok(at)
}

// The account that the row before told is in the lent words, and then the one that this row tells. A row that is cut short differs too.
fn replay_row(file: &mut File, account: &mut [u8]) -> io::Result<Outcome> {
    let mut head = [0u8; 128];
    let mut targets = [0u8; 128];
    let mut prices = [0u8; 128];
    let mut made = [0u8; 768];
    if read_full(file, &mut head)? == 0 {
        return Ok(Outcome::End);
    }
    read_full(file, &mut targets)?;
    read_full(file, &mut prices)?;
    read_full(file, &mut made)?;
    let r = Row {
        head,
        targets,
        prices,
        made,
    };
    let a = state::account_of(account);
    if read_full(file, account)? != 488 {
        return Ok(Outcome::Differs);
    }
    if agrees(r, a, account) {
        return Ok(Outcome::Same);
    }
    Ok(Outcome::Differs)
}

// A proved loop has to end, and nothing says that a file does: no sample has as many rows as this.
const MOST: u64 = 1_000_000;

// Tells the first row that differs, counted from 0.
fn replay(rt: &HostRuntime, file: &mut File) -> io::Result<()> {
    let mut account = [0u8; 488];
    let mut differences = 0u64;
    for row in 0..MOST {
        match replay_row(file, &mut account)? {
            Outcome::End => return summary(rt, row, differences),
            Outcome::Same => {}
            Outcome::Differs => {
                if differences == 0 {
                    println!(rt; "row {row} differs")?;
                }
                differences = differences.wrapping_add(1);
            }
        }
    }
    summary(rt, MOST, differences)
}

fn summary(rt: &HostRuntime, calls: u64, differences: u64) -> io::Result<()> {
    println!(rt; "{calls} calls, {differences} differences")?;
    Ok(())
}

fn main(rt: HostRuntime) -> io::Result<()> {
    let mut file = File::open(&rt, "accounts")?;
    replay(&rt, &mut file)
}
