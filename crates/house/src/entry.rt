// One account in one part.
ghost use Rattle.std.specs.Prelude.{◌≡◌, ◌&&◌, if◌then◌else◌, nat_eq};
ghost use Rattle.house.specs.Places.{ends_of};
ghost use Rattle.house.specs.Inner.Parts.{entered};

// Its first equity and its change; 0 and 0 where it is left out.
#[derive(Clone, Copy)]
pub(crate) struct Entry {
    pub(crate) first: i64,
    pub(crate) change: i64,
}

// Both marks are 1. They stand side by side, and as one number take one load and one test.
pub(crate) fn present(first_mark: u8, last_mark: u8) -> bool
    ensures { result ≡ (nat_eq first_mark 1 && nat_eq last_mark 1) }
{
    u64::from(first_mark) + 256 * u64::from(last_mark) == 257
}

fn pick(there: bool, x: i64, other: i64) -> i64
    ensures { result ≡ (if there then x else other) }
{
    if there { x } else { other }
}

// None where the change is not in i64. What is left out changes from its last equity to that same one. No branch hangs on a mark: both numbers are used
// either way, and so both are read before one is taken.
pub(crate) fn entry_of(first_mark: u8, last_mark: u8, first: i64, last: i64) -> Option<Entry>
    ensures { result ≡ entered (ends_of first_mark last_mark first last) }
{
    let there = present(first_mark, last_mark);
    let from = pick(there, first, last);
    let change = last.checked_sub(from)?;
    Some(Entry {
        first: pick(there, first, 0),
        change,
    })
}
