// Replays a stored sample of the Rust's answers: each row's function on the row's numbers, beside the row's answer.
#![tactic(auto)]

mod casts_rows;
mod costs_rows;
mod figures_rows;
mod positions_rows;
mod row;
mod shares_rows;
mod sizes_rows;
mod wide_rows;

use row::Row;
use std::fs::File;
use std::io::{self, Read};
use std::rt::HostRuntime;

#[derive(Clone, Copy)]
enum Outcome {
    Same,
    Differs,
    End,
}

// A number that no leaf has agrees with nothing.
fn agrees(r: Row) -> bool {
    match r.leaf / 10 {
        0 => shares_rows::agrees(r),
        1 => wide_rows::agrees(r),
        3 => casts_rows::agrees(r),
        4 => costs_rows::agrees(r),
        5 => positions_rows::agrees(r),
        6 => sizes_rows::agrees(r),
        7 => figures_rows::agrees(r),
        _ => false,
    }
}

// How many bytes were read: fewer than there is room for at the file's end alone.
fn read_full(file: &mut File, bytes: &mut [u8]) -> io::Result<usize> {
    let mut at = 0usize;
    while at < bytes.len() {
        let n = file.read(&mut bytes[at..])?;
        if n == 0 {
            break;
        }
        at += n;
    }
    Ok(at)
}

// A row that is cut short differs too.
fn replay_row(file: &mut File) -> io::Result<Outcome> {
    let mut bytes = [0u8; 72];
    let n = read_full(file, &mut bytes)?;
    if n == 0 {
        return Ok(Outcome::End);
    }
    if n == 72 && agrees(row::read(&bytes)) {
        return Ok(Outcome::Same);
    }
    Ok(Outcome::Differs)
}

// A proved loop has to end, and nothing says that a file does: no sample has as many rows as this.
const MOST: u64 = 1_000_000;

fn replay(rt: &HostRuntime, file: &mut File) -> io::Result<()> {
    let mut differences = 0u64;
    for row in 0..MOST {
        match replay_row(file)? {
            Outcome::End => return summary(rt, row, differences),
            Outcome::Same => {}
            Outcome::Differs => differences = differences.wrapping_add(1),
        }
    }
    summary(rt, MOST, differences)
}

fn summary(rt: &HostRuntime, rows: u64, differences: u64) -> io::Result<()> {
    println!(rt; "{rows} rows, {differences} differences")?;
    Ok(())
}

fn main(rt: HostRuntime) -> io::Result<()> {
    let mut file = File::open(&rt, "leaves")?;
    replay(&rt, &mut file)
}
