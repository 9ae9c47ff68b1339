// A set of bucket numbers as bits in lent words: number i is bit i % 64 of word i / 64. The words are the
// caller's, most often in its frame.
#![tactic(auto)]

ghost use Rattle.std.specs.Prelude.{◌≡◌, length};
ghost use Rattle.bucket_set.specs.Numbers.{holds_in, with_number, none_of};

// The words for every bucket that a table may have.
pub const WORDS: usize = 16384;

// Adds a number; one past the words changes nothing.
pub fn add(set: &mut [u64], i: usize)
    ensures { set.new ≡ with_number set.old i }
{
    let w = i / 64;
    // By a test and the index: with `get_mut` the proof did not close.
    if w < set.len() {
        set[w] |= 1 << (i % 64);
    }
}

// Whether a number is in the set; one past the words is not.
pub fn has(set: &[u64], i: usize) -> bool
    ensures { result ≡ holds_in set.now i }
{
    let word = set.get(i / 64).copied().unwrap_or(0);
    (word >> (i % 64)) % 2 == 1
}

// Takes every number out.
pub fn empty(set: &mut [u64])
    ensures { set.new ≡ none_of (length set.old) }
{
    set.fill(0);
}
