// The search for a label that a table image has twice: by two passes over sets of bits, which rule out
// nearly all labels, and a search for each that is left.
#![tactic(auto)]

ghost use Rattle.std.specs.Prelude.{◌≡◌, true, ◌+◌, ◌≤◌, ◌<◌, length};
ghost use Rattle.answers.specs.Answers.{answer_of};
ghost use Rattle.ht_file.specs.Places.{image_fits};
ghost use Rattle.probe.specs.Path.{page_end};
ghost use Rattle.label_search.specs.Labels.{labelled, doubled, doubled_answer};
ghost use Rattle.label_search.specs.InnerSearch.{FirstDoubled};
ghost use Rattle.label_search.specs.InnerFilter.{spread, folded, mixed, key_at, with_key, has_key, of_class, KeysOf, Noted, Marking, Suspected, Sought, Seeking, SoughtTo, FirstOfClass};

use answers::Refusal;
use bucket_set::WORDS;
use ht_file::ID_AT;

const BLOCK: usize = 16;

// The labels of one class: with no more, few are suspected.
const CLASS_SIZE: u64 = 262144;

// So many labels are searched for one by one.
const FEW: u64 = 64;

// The image of a table of n buckets, whole.
#[derive(Clone, Copy)]
struct Table<'a> {
    image: &'a [u8],
    n: usize,
    ghost fits: { image_fits n (length image.now) ≡ true },
}

// One of so many classes of labels, by their keys.
#[derive(Clone, Copy)]
struct Class {
    index: u64,
    count: u64,
    ghost some: { 0 < count },
}

// A set of cells.
type Filter = [u64; WORDS];

// ---- the key of a label

// The halves of a word, each times a number.
fn spread_word(w: u64, a: u32, b: u32) -> u64
    ensures { result ≡ spread w a b }
{
    (w % 4294967296) * a as u64 ^ (w / 4294967296) * b as u64
}

fn fold_word(x: u64) -> u64
    ensures { result ≡ folded x }
{
    x ^ x / 4294967296
}

// Four words mixed.
fn mix_words(w0: u64, w1: u64, w2: u64, w3: u64) -> u64
    ensures { result ≡ mixed w0 w1 w2 w3 }
{
    let low = spread_word(w0, 0x9E3779B1, 0x85EBCA77) ^ spread_word(w1, 0xCC9E2D51, 0x1B873593);
    let high = spread_word(w2, 0xE6546B65, 0x7FEB352D) ^ spread_word(w3, 0x846CA68B, 0xD35A2D97);
    fold_word(spread_word(fold_word(low ^ high), 0xC2B2AE3D, 0x27D4EB2F))
}

// ---- the filters

// Puts a key's three cells into a filter.
fn add_key(filter: &mut Filter, key: u64)
    ensures { filter.new ≡ with_key filter.old key }
{
    bucket_set::add(filter, (key % 1048576) as usize);
    bucket_set::add(filter, (key / 1048576 % 1048576) as usize);
    bucket_set::add(filter, (key / 1099511627776 % 1048576) as usize);
}

// Whether all three cells of a key are in a filter.
fn has_key(filter: &Filter, key: u64) -> bool
    ensures { result ≡ has_key filter.now key }
{
    bucket_set::has(filter, (key % 1048576) as usize)
        && bucket_set::has(filter, (key / 1048576 % 1048576) as usize)
        && bucket_set::has(filter, (key / 1099511627776 % 1048576) as usize)
}

// ---- a bucket in the passes over the labels of one class

impl Class {
    // Whether a bucket with this tag and key is full and its label of the class.
    fn has(self, tag: u8, key: u64) -> bool
        ensures { result ≡ of_class self.count self.index tag key }
    {
        meta_map::is_full(tag) && key / 1152921504606846976 % self.count == self.index
    }

    // A bucket in the first pass: a label whose cells are all set by earlier ones is a suspect, and any
    // other sets its cells. Answers whether it is a suspect.
    fn note_label(self, tag: u8, key: u64, seen: &mut Filter, suspects: &mut Filter) -> bool
        ensures { Noted self.count self.index tag key seen.old suspects.old seen.new suspects.new result }
    {
        if self.has(tag, key) {
            if has_key(seen, key) {
                add_key(suspects, key);
                return true;
            }
            add_key(seen, key);
        }
        false
    }

    // A bucket in the second pass, which looks at suspects only and at labels that set the same cells.
    // Answers whether its cells are all set by earlier ones of these, so that its label is to be searched for.
    fn seek_label(self, tag: u8, key: u64, suspects: &Filter, seen: &mut Filter) -> bool
        ensures { Sought self.count self.index tag key suspects.now seen.old seen.new result }
    {
        if self.has(tag, key) && has_key(suspects, key) {
            if has_key(seen, key) {
                return true;
            }
            add_key(seen, key);
        }
        false
    }
}

impl Table<'_> {
    // ---- the search for a label, made only where the filters do not rule it out

    // Whether a full bucket before b has b's label. Never inlined, so that `is_doubled`, which is asked of each bucket,
    // saves no registers for one that is not full.
    #[inline(never)]
    fn search_label(&self, b: usize) -> bool
        requires { b < self.now.n }
        ensures { result ≡ labelled self.now.image.now self.now.n (page_end self.now.image.now self.now.n b) b }
    {
        let label = blocks::block::<32>(self.image, ht_file::page_start(self.n, b) + ID_AT);
        for j in 0..b {
            if meta_map::is_full(self.image[j]) {
                if probe::ends_in(self.image, ht_file::page_start(self.n, j) + ID_AT, label) {
                    return true;
                }
            }
        }
        false
    }

    // Whether bucket b is full and an earlier full one has its label.
    fn is_doubled(&self, b: usize) -> bool
        requires { b < self.now.n }
        ensures { result ≡ doubled self.now.image.now self.now.n b }
    {
        meta_map::is_full(self.image[b]) && self.search_label(b)
    }

    // The key of bucket b's label.
    fn label_key(&self, b: usize) -> u64
        requires { b < self.now.n }
        ensures { result ≡ key_at self.now.image.now self.now.n b }
    {
        let at = ht_file::page_start(self.n, b) + ID_AT;
        let w0 = blocks::read_u64(self.image, at);
        let w1 = blocks::read_u64(self.image, at + 8);
        let w2 = blocks::read_u64(self.image, at + 16);
        let w3 = blocks::read_u64(self.image, at + 24);
        mix_words(w0, w1, w2, w3)
    }

    // ---- the passes over the labels of one class, 16 buckets at a time

    // The keys of the full buckets from `from` to `to`. All are read before any filter is written, so that
    // the waits for their memory overlap.
    fn label_keys(&self, from: usize, to: usize) -> [u64; BLOCK]
        requires { (to ≤ self.now.n) × (to ≤ from + 16) × (from ≤ to) }
        ensures { KeysOf self.now.image.now self.now.n from to result }
    {
        let mut keys = [0; BLOCK];
        for b in from..to {
            if meta_map::is_full(self.image[b]) {
                keys[b - from] = self.label_key(b);
            }
        }
        keys
    }

    // The first pass over a block. Answers whether there is any suspect so far.
    fn mark_block(
        &self,
        class: Class,
        from: usize,
        to: usize,
        any: bool,
        seen: &mut Filter,
        suspects: &mut Filter,
    ) -> bool
        requires { (to ≤ self.now.n) × (to ≤ from + 16) × (from ≤ to) × Marking self.now.image.now self.now.n «class».count «class».index from seen.old suspects.old any }
        ensures { Marking self.now.image.now self.now.n «class».count «class».index to seen.new suspects.new result }
    {
        let keys = self.label_keys(from, to);
        let mut some = any;
        for b in from..to {
            some |= class.note_label(self.image[b], keys[b - from], seen, suspects);
        }
        some
    }

    // The first pass: the suspects among the buckets before `end`, and whether there is any.
    fn mark_suspects(
        &self,
        class: Class,
        end: usize,
        seen: &mut Filter,
        suspects: &mut Filter,
    ) -> bool
        requires { end ≤ self.now.n }
        ensures { Marking self.now.image.now self.now.n «class».count «class».index end seen.new suspects.new result }
    {
        let mut any = false;
        for from in (0..end).step_by(BLOCK) {
            let to = end.min(from + BLOCK);
            any = self.mark_block(class, from, to, any, seen, suspects);
        }
        any
    }

    // The second pass over a block: the first bucket there whose label an earlier one has, or `to`.
    fn seek_block(
        &self,
        class: Class,
        from: usize,
        to: usize,
        suspects: &Filter,
        seen: &mut Filter,
    ) -> usize
        requires { (to ≤ self.now.n) × (to ≤ from + 16) × (from ≤ to) × Suspected self.now.image.now self.now.n to «class».count «class».index suspects.now true × Seeking self.now.image.now self.now.n «class».count «class».index suspects.now from seen.old }
        ensures { SoughtTo self.now.image.now self.now.n «class».count «class».index suspects.now to seen.new result }
    {
        let keys = self.label_keys(from, to);
        for b in from..to {
            if class.seek_label(self.image[b], keys[b - from], suspects, seen) {
                if self.is_doubled(b) {
                    return b;
                }
            }
        }
        to
    }

    // The second pass: the first bucket before `end` whose label an earlier one has, or `end`.
    fn first_found(&self, class: Class, end: usize, suspects: &Filter, seen: &mut Filter) -> usize
        requires { (end ≤ self.now.n) × Suspected self.now.image.now self.now.n end «class».count «class».index suspects.now true }
        ensures { FirstOfClass self.now.image.now self.now.n end «class».count «class».index result }
    {
        for from in (0..end).step_by(BLOCK) {
            let to = end.min(from + BLOCK);
            let r = self.seek_block(class, from, to, suspects, seen);
            if r < to {
                return r;
            }
        }
        end
    }

    // Both passes over one class; the second only where there are suspects.
    fn first_of_class(
        &self,
        class: Class,
        end: usize,
        seen: &mut Filter,
        suspects: &mut Filter,
    ) -> usize
        requires { end ≤ self.now.n }
        ensures { FirstOfClass self.now.image.now self.now.n end «class».count «class».index result }
    {
        bucket_set::empty(seen);
        bucket_set::empty(suspects);
        if self.mark_suspects(class, end, seen, suspects) {
            bucket_set::empty(seen);
            return self.first_found(class, end, suspects, seen);
        }
        end
    }

    // One class after the other, each up to the first doubled bucket of those before. The filters are on this function's
    // frame, which no call takes that needs no pass.
    #[inline(never)]
    fn first_by_passes(&self, full: u64) -> usize
        ensures { FirstDoubled self.now.image.now self.now.n result }
    {
        let mut seen = [0; WORDS];
        let mut suspects = [0; WORDS];
        let count = full / (CLASS_SIZE + 1) + 1;
        let mut first = self.n;
        for index in 0..count {
            first = self.first_of_class(Class { index, count }, first, &mut seen, &mut suspects);
        }
        first
    }

    // The same by a search for every label, which is the faster way where few buckets are full.
    fn first_by_search(&self) -> usize
        ensures { FirstDoubled self.now.image.now self.now.n result }
    {
        for b in 0..self.n {
            if self.is_doubled(b) {
                return b;
            }
        }
        self.n
    }

    // By the way that is the faster for so many full buckets.
    fn first_bucket(&self, full: u64) -> usize
        ensures { FirstDoubled self.now.image.now self.now.n result }
    {
        if full <= FEW {
            return self.first_by_search();
        }
        self.first_by_passes(full)
    }
}

// The first bucket whose label an earlier full bucket has, n where there is none. `full` says how many are
// full: the time that the search takes depends on it, and the answer does not.
pub fn first_doubled(image: &[u8], n: usize, full: u64) -> Result<u64, Refusal>
    ensures { answer_of result ≡ doubled_answer image.now n }
{
    ht_file::check_image(n, image.len())?;
    let table = Table { image, n };
    Ok(table.first_bucket(full.min(n as u64)) as u64)
}
