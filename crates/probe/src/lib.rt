// The path of a hash through a table, as in the original's mod.rs: probing on, lookup and the
// allocation of a bucket. Tags are lent as exactly the tag pages of the table and an image as exactly
// its pages; another length is refused.
#![tactic(auto)]

ghost use Rattle.std.specs.Prelude.{◌≡◌, ◌+◌, ◌*◌, ◌%◌, ◌≤◌, ◌<◌, length, take, drop};
ghost use Rattle.answers.specs.Answers.{answer_of};
ghost use Rattle.answers.specs.Refusals.{number_of};
ghost use Rattle.blocks.specs.Blocks.{same_bytes};
ghost use Rattle.probe.specs.Path.{is_free, probe_answer, lookup_answer, hit_limit, allows, no_bucket_by, allocate_answer, allocated_tags, probed_said, found_said};
ghost use Rattle.probe.specs.InnerWalk.{stands, Stepped, probed_by};

use answers::Refusal;
use ht_file::ID_AT;
use meta_map::{EMPTY, TOMBSTONE};

// So many hits are let through by document 01.
const MAX_HITS: usize = 9998;

// What probing on comes to first: a bucket, and the number of its visit.
#[derive(Clone, Copy, Debug, PartialEq, Eq)]
pub enum Probed {
    Empty { bucket: u64, visit: u64 },
    Tombstone { bucket: u64, visit: u64 },
    PossibleHit { bucket: u64, visit: u64 },
    Closed,
}

// What lookup answers: the bucket that holds the page, or that no bucket does.
#[derive(Clone, Copy, Debug, PartialEq, Eq)]
pub enum Found {
    At(u64),
    Absent,
    Closed,
}

// A hash's path through n buckets: the bucket of its next visit, and how far on the one after that lies,
// less whole rounds.
#[derive(Drop)]
struct ProbeSequence {
    n: usize,
    bucket: usize,
    step: usize,
}

// x % n for an x below 2n, without a division.
fn rounded(x: usize, n: usize) -> usize
    requires { x < 2 * n }
    ensures { result ≡ x % n }
{
    match x.checked_sub(n) {
        Some(rest) => rest,
        None => x,
    }
}

impl ProbeSequence {
    // The path from visit k on.
    fn new(n: usize, hash: u64, k: usize) -> Self
        requires { (0 < n) × (n ≤ 1048576) × (k < 2 * n) }
        ensures { stands n hash k result }
    {
        let home = (hash % n as u64) as usize;
        Self {
            n,
            bucket: (home + k * (k + 1) / 2) % n,
            step: (k + 1) % n,
        }
    }

    // The path goes on to its next visit: triangular probing.
    fn advance(&mut self)
        requires { (self.old.n ≤ 1048576) × (self.old.bucket < self.old.n) × (self.old.step < self.old.n) }
        ensures { Stepped self.old self.new }
    {
        self.bucket = rounded(self.bucket + self.step, self.n);
        self.step = rounded(self.step + 1, self.n);
    }
}

// What probing on comes to at a visit whose bucket has this tag, if it stops there.
fn probed_at(tag: u8, full: u8, bucket: u64, visit: u64) -> Option<Probed>
    ensures { result ≡ probed_by tag full bucket visit }
{
    if tag == EMPTY {
        return Some(Probed::Empty { bucket, visit });
    }
    if tag == TOMBSTONE {
        return Some(Probed::Tombstone { bucket, visit });
    }
    if tag == full {
        return Some(Probed::PossibleHit { bucket, visit });
    }
    None
}

// The first empty, tombstone or hit among the 2n visits from visit k on, k taken mod 2n.
pub fn probe_from(tags: &[u8], n: usize, hash: u64, k: u64) -> Result<Probed, Refusal>
    ensures { probed_said result ≡ probe_answer tags.now n hash k }
{
    ht_file::check_tags(n, tags.len())?;
    let full = meta_map::full_entry(hash);
    let start = k % (2 * n as u64);
    let end = start + 2 * n as u64;
    let mut path = ProbeSequence::new(n, hash, start as usize);
    for visit in start..end {
        let tag = tags[path.bucket];
        let bucket = path.bucket as u64;
        if let Some(probed) = probed_at(tag, full, bucket, visit) {
            return Ok(probed);
        }
        path.advance();
    }
    Ok(Probed::Closed)
}

// Whether the 32 bytes at a place are the id; there may be fewer. They are compared as an array, since the
// code of `starts_with`, where several call it, is for any length.
pub fn ends_in(image: &[u8], at: usize, id: [u8; 32]) -> bool
    ensures { result ≡ same_bytes (take 32 (drop at image.now)) id }
{
    if let Some(rest) = image.get(at..)
        && let Some(end) = rest.first_chunk()
    {
        return blocks::same_block(*end, id);
    }
    false
}

// The bucket whose page ends in the id: the first such hit, unless an empty visit comes before it.
pub fn lookup(image: &[u8], n: usize, hash: u64, id: [u8; 32]) -> Result<Found, Refusal>
    ensures { found_said result ≡ lookup_answer image.now n hash id }
{
    ht_file::check_image(n, image.len())?;
    let full = meta_map::full_entry(hash);
    let mut path = ProbeSequence::new(n, hash, 0);
    for _visit in 0..2 * n {
        let bucket = path.bucket;
        let tag = image[bucket];
        if tag == EMPTY {
            return Ok(Found::Absent);
        }
        if tag == full && ends_in(image, ht_file::page_start(n, bucket) + ID_AT, id) {
            return Ok(Found::At(bucket as u64));
        }
        path.advance();
    }
    Ok(Found::Closed)
}

// Document 01's limit on the hits that may come before a bucket that is given; `None` lets any number through.
pub fn hit_limit() -> Option<usize>
    ensures { result ≡ hit_limit }
{
    Some(MAX_HITS)
}

// Whether a bucket may be given after so many hits.
fn within_limit(limit: Option<usize>, hits: usize) -> bool
    ensures { result ≡ allows limit hits }
{
    limit.is_none_or(|most| hits <= most)
}

// Why no bucket is given on a path with so many hits.
fn no_bucket(limit: Option<usize>, hits: usize) -> Refusal
    ensures { number_of result ≡ no_bucket_by limit hits }
{
    if limit.is_some() && 0 < hits {
        return Refusal::PathCrowded;
    }
    Refusal::PathClosed
}

// Whether a bucket with this tag may be given.
fn is_free(tag: u8) -> bool
    ensures { result ≡ is_free tag }
{
    tag == EMPTY || tag == TOMBSTONE
}

// The bucket that allocation gives for this hash; the tags are only read.
pub fn find_bucket(tags: &[u8], n: usize, hash: u64, limit: Option<usize>) -> Result<u64, Refusal>
    ensures { answer_of result ≡ allocate_answer limit tags.now n hash }
{
    ht_file::check_tags(n, tags.len())?;
    let full = meta_map::full_entry(hash);
    let mut path = ProbeSequence::new(n, hash, 0);
    let mut hits: usize = 0;
    for _visit in 0..2 * n {
        let bucket = path.bucket;
        let tag = tags[bucket];
        if is_free(tag) {
            return Ok(bucket as u64);
        }
        if tag == full {
            hits += 1;
            if !within_limit(limit, hits) {
                return Err(Refusal::PathCrowded);
            }
        }
        path.advance();
    }
    Err(no_bucket(limit, hits))
}

// Gives a bucket and writes the hash's full tag there; a refusal leaves every tag.
pub fn allocate_bucket(
    tags: &mut [u8],
    n: usize,
    hash: u64,
    limit: Option<usize>,
) -> Result<u64, Refusal>
    ensures { (answer_of result ≡ allocate_answer limit tags.old n hash) × (tags.new ≡ allocated_tags limit tags.old n hash) }
{
    let bucket = find_bucket(tags, n, hash, limit)?;
    tags[bucket as usize] = meta_map::full_entry(hash);
    Ok(bucket)
}
