// Numbers written as groups of seven bits.
ghost use Rattle.std.specs.Prelude.{◌≡◌, ◌≤◌, length};
ghost use Rattle.seven_bit.specs.Groups.{groups};
ghost use Rattle.seven_bit.specs.Placed.{put_number, put_next_of};

// How many groups a number has.
// Kept: the loop runs on a number that shrinks, and goes over no index.
fn group_count(n: u64) -> usize
    ensures { (result ≡ length (groups n)) × (result ≤ 10) }
{
    let mut rest = n;
    let mut count = 1;
    while 128 <= rest {
        rest /= 128;
        count += 1;
    }
    count
}

// The groups of a number from a place on, and the place after them. Where there is no room for all of them nothing is written, and it is the place itself.
pub fn put_number(bytes: &mut [u8], place: usize, n: u64) -> usize
    ensures { (result ≡ put_next_of (length bytes.old) place n) × (bytes.new ≡ put_number bytes.old place n) }
{
    let count = group_count(n);
    if bytes.len() < count || bytes.len() - count < place {
        return place;
    }
    // Kept: this loop too runs on a number that shrinks; `at` is the place that its groups have come to.
    let mut at = place;
    let mut rest = n;
    while 128 <= rest {
        bytes[at] = (128 + rest % 128) as u8;
        rest /= 128;
        at += 1;
    }
    bytes[at] = rest as u8;
    at + 1
}
