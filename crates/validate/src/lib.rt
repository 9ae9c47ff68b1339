// The audit of a table image, as the original's validate.rs: each full bucket has a label of its own,
// the tag of its hash, and stands where the path of its hash leads before an empty bucket.
#![tactic(auto)]

ghost use Rattle.std.specs.Prelude.{◌≡◌, true, ◌≤◌, ◌<◌, length};
ghost use Rattle.answers.specs.Answers.{answer_of};
ghost use Rattle.ht_file.specs.Places.{image_fits};
ghost use Rattle.validate.specs.Audit.{audit_answer, reaching, path_audit, rate_of};
ghost use Rattle.validate.specs.InnerAudit.{paths_to};

use answers::Refusal;
use meta_map::EMPTY;

// What an audit that passes answers.
#[derive(Clone, Copy)]
pub struct Audit {
    pub capacity: u64,
    pub occupied: u64,
    pub rate: f64,
}

// The part of the capacity that is occupied.
fn occupancy_rate(occupied: u32, capacity: u32) -> f64
    ensures { result ≡ rate_of occupied capacity }
{
    occupied as f64 / capacity as f64
}

// ---- the path of one bucket

// Whether the path of the hash comes to bucket b before it comes to an empty one. The first n visits
// come to all that any later ones do.
fn ensure_bucket_reachable(image: &[u8], n: usize, hash: u64, b: usize) -> Result<(), Refusal>
    requires { image_fits n (length image.now) ≡ true }
    ensures { answer_of result ≡ reaching image.now n hash b }
{
    let mut bucket = (hash % n as u64) as usize;
    for k in 0..n {
        if bucket == b {
            return Ok(());
        }
        if image[bucket] == EMPTY {
            return Err(Refusal::EmptyFirst);
        }
        bucket += k + 1;
        if n <= bucket {
            bucket -= n;
        }
    }
    Err(Refusal::NotReached)
}

// The tag and the path of bucket b, where it is full.
fn check_bucket(image: &[u8], n: usize, hash: u64, b: usize) -> Result<(), Refusal>
    requires { (image_fits n (length image.now) ≡ true) × (b < n) }
    ensures { answer_of result ≡ path_audit image.now n hash b }
{
    let tag = image[b];
    if meta_map::is_full(tag) {
        if meta_map::hint_not_match(tag, hash) {
            return Err(Refusal::TagWrong);
        }
        return ensure_bucket_reachable(image, n, hash, b);
    }
    Ok(())
}

// The tags and the paths of the buckets before `end`, rising.
fn check_buckets(image: &[u8], n: usize, hashes: &[u64], end: usize) -> Result<(), Refusal>
    requires { (image_fits n (length image.now) ≡ true) × (length hashes.now ≡ n) × (end ≤ n) }
    ensures { answer_of result ≡ paths_to image.now n hashes.now end }
{
    for (b, &hash) in hashes[..end].iter().enumerate() {
        check_bucket(image, n, hash, b)?;
    }
    Ok(())
}

// ---- the audit

// Audits the image of a table of n buckets, lent the hash of each bucket's page.
pub fn validate_hashtable(image: &[u8], n: usize, hashes: &[u64]) -> Result<Audit, Refusal>
    ensures { answer_of result ≡ audit_answer image.now n hashes.now }
{
    ht_file::check_image(n, image.len())?;
    if hashes.len() != n {
        return Err(Refusal::LengthUnfit);
    }
    let tags = ht_file::page_start(n, 0);
    if !meta_map::padding_is_empty(&image[..tags], n)? {
        return Err(Refusal::PaddingUsed);
    }
    let occupied = meta_map::full_count(&image[..tags], n)?;
    let first = label_search::first_doubled(image, n, occupied)?;
    check_buckets(image, n, hashes, first as usize)?;
    if first < n as u64 {
        return Err(Refusal::LabelTwice);
    }
    let rate = occupancy_rate(occupied as u32, n as u32);
    Ok(Audit {
        capacity: n as u64,
        occupied,
        rate,
    })
}
