// Numbers read from groups of seven bits, the lowest first, the top bit set on all but the last.
ghost use Rattle.std.specs.Prelude.{◌≡◌, ◌+◌, ◌-◌, ◌<◌, ◌≤◌, length, get_or, drop};
ghost use Rattle.answer.specs.declared.Answer.TheVariants.{EndsEarly, BadNumber};
ghost use Rattle.seven_bit.specs.Groups.{read};
ghost use Rattle.seven_bit.specs.Placed.{told, number_at_of, number_or_fault};
ghost use Rattle.seven_bit.specs.Inner.Reading.{raised};

use answer::Answer;

// A number, and where the next one starts.
#[derive(Clone, Copy)]
pub struct Number {
    pub value: u64,
    pub next: usize,
}

// Why nothing could be read, and the place of it.
#[derive(Clone, Copy)]
pub struct Fault {
    pub answer: Answer,
    pub place: usize,
}

impl From<Fault> for Answer {
    ghost from_gives = { λ f a. a ≡ f.answer };

    fn from(fault: Fault) -> Answer {
        fault.answer
    }
}

impl Fault {
    fn ends_early(end: usize) -> Fault
        ensures { result ≡ record { answer = EndsEarly end; place = end } }
    {
        Fault {
            answer: Answer::EndsEarly(end),
            place: end,
        }
    }

    fn bad_number(place: usize) -> Fault
        ensures { result ≡ record { answer = BadNumber place; place = place } }
    {
        Fault {
            answer: Answer::BadNumber(place),
            place,
        }
    }
}

// The tenth group, where nine with their top bit set came to `sum`: 0 would not be shortest, and above 1 is too large.
fn tenth(bytes: &[u8], place: usize, at: usize, sum: u64) -> Result<Number, Fault>
    requires { (place ≤ at) × (sum < 9223372036854775808) }
    ensures { result ≡ number_or_fault (told place (length bytes.now) (raised sum 9223372036854775808 (at - place) (read 1 0 (drop at bytes.now)))) }
{
    if bytes.len() <= at {
        return Err(Fault::ends_early(bytes.len()));
    }
    if bytes[at] != 1 {
        return Err(Fault::bad_number(place));
    }
    Ok(Number {
        value: sum + 0x8000_0000_0000_0000,
        next: at + 1,
    })
}

// A number whose first group has its top bit set, and comes to `low` without it: the groups are counted 1, 128, 128^2 and so on times.
fn longer(bytes: &[u8], place: usize, low: u64) -> Result<Number, Fault>
    requires { (place < length bytes.now) × (get_or bytes.now place 0 ≡ 128 + low) × (low < 128) }
    ensures { result ≡ number_or_fault (number_at_of bytes.now place) }
{
    let mut sum = low;
    let mut scale: u64 = 128;
    for at in place + 1..place + 9 {
        if bytes.len() <= at {
            return Err(Fault::ends_early(bytes.len()));
        }
        let group = bytes[at] as u64;
        if group == 0 {
            return Err(Fault::bad_number(place));
        }
        if group < 128 {
            return Ok(Number {
                value: sum + group * scale,
                next: at + 1,
            });
        }
        sum += (group - 128) * scale;
        scale *= 128;
    }
    tenth(bytes, place, place + 9, sum)
}

// The number that starts at a place. Most have one group, and are told without a loop.
pub fn number_at(bytes: &[u8], place: usize) -> Result<Number, Fault>
    ensures { result ≡ number_or_fault (number_at_of bytes.now place) }
{
    if bytes.len() <= place {
        return Err(Fault::ends_early(bytes.len()));
    }
    let group = bytes[place] as u64;
    if group < 128 {
        return Ok(Number {
            value: group,
            next: place + 1,
        });
    }
    longer(bytes, place, group - 128)
}
