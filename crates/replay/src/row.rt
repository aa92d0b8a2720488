// A row of the sample, nine words of eight bytes with the lowest byte first, and what a word stands for.
ghost use Rattle.std.specs.Prelude.{◌+◌, ◌≤◌};

use position::Shares;

#[derive(Clone, Copy)]
pub struct Row {
    pub leaf: u64,
    pub a: u64,
    pub b: u64,
    pub c: u64,
    pub d: u64,
    pub e: u64,
    pub f: u64,
    pub g: u64,
    pub answer: u64,
}

fn wide(x: u8) -> u64 {
    x as u64
}

fn word(b: &[u8; 72], at: usize) -> u64
    requires { at + 8 ≤ 72 }
{
    let low = wide(b[at]) | wide(b[at + 1]) << 8 | wide(b[at + 2]) << 16 | wide(b[at + 3]) << 24;
    let high = wide(b[at + 4])
        | wide(b[at + 5]) << 8
        | wide(b[at + 6]) << 16
        | wide(b[at + 7]) << 24;
    low | high << 32
}

pub(crate) fn read(b: &[u8; 72]) -> Row {
    Row {
        leaf: word(b, 0),
        a: word(b, 8),
        b: word(b, 16),
        c: word(b, 24),
        d: word(b, 32),
        e: word(b, 40),
        f: word(b, 48),
        g: word(b, 56),
        answer: word(b, 64),
    }
}

// Two's complement.
pub(crate) fn int(w: u64) -> i64 {
    if w < 0x8000_0000_0000_0000 {
        w as i64
    } else {
        !((!w) as i64)
    }
}

pub(crate) fn shares(w: u64) -> Shares {
    Shares::from_raw(int(w))
}

// The double of a pattern; each NaN's pattern is the one NaN.
pub(crate) fn float(w: u64) -> f64 {
    if 0x7ff0_0000_0000_0000 < w % 0x8000_0000_0000_0000 {
        0.0 / 0.0
    } else {
        f64::from_bits(w)
    }
}

pub(crate) fn same_bool(ours: bool, answer: u64) -> bool {
    if ours { answer == 1 } else { answer == 0 }
}

pub(crate) fn same_int(ours: i64, answer: u64) -> bool {
    ours == int(answer)
}

// Equal with the sign of a zero, which one over it tells; all NaNs are one.
pub(crate) fn same_float(ours: f64, answer: u64) -> bool {
    let theirs = float(answer);
    if ours != ours {
        return theirs != theirs;
    }
    ours == theirs && 1.0 / ours == 1.0 / theirs
}

// "In figures, zeros of either sign and all NaNs compare equal."
pub(crate) fn same_figure(ours: f64, answer: u64) -> bool {
    let theirs = float(answer);
    if ours != ours {
        return theirs != theirs;
    }
    ours == theirs
}
