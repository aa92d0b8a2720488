// Records stored into a lent run of structs.
ghost use Rattle.std.specs.Prelude.{◌≡◌, set};
ghost use Rattle.records.specs.Run.{collected};

use crate::read::record_at;
use fills::ExecutionRecord;

// Stores one record at a place. Where the run lacks the place, it stays as it is.
// Kept: "A thin function stores one record into a lent slice of structs".
pub fn store_record<'a>(out: &'a mut [ExecutionRecord], i: usize, r: ExecutionRecord)
    ensures { out.new ≡ set out.old i r }
{
    if i < out.len() {
        out[i] = r;
    }
}

// Stores the first records of two number slices into the first places, as many as the run has.
pub fn collect<'w, 'i, 'a>(
    words: &'w [u64],
    ints: &'i [i64],
    count: usize,
    out: &'a mut [ExecutionRecord],
)
    ensures { out.new ≡ collected words.now ints.now count out.old }
{
    for i in 0..count.min(out.len()) {
        store_record(out, i, record_at(words, ints, i));
    }
}
