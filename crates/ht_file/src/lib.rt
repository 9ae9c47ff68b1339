// Where things stand in a table image, as in the original's ht_file.rs: lengths and page numbers
// only. The files themselves stay with the caller.
#![tactic(auto)]

ghost use Rattle.std.specs.Prelude.{◌≡◌, ◌&&◌};
ghost use Rattle.answers.specs.Answers.{given, answer_of};
ghost use Rattle.ht_file.specs.Places.{count_allowed, within_limit, tag_pages, image_length, start_in, tags_fit, image_fits, if_table, if_count, page_of};

use answers::Refusal;

pub const PAGE_SIZE: usize = 4096;

pub const MAX_BUCKETS: usize = 1048576;

// Where the id stands in a page: its last 32 bytes.
pub const ID_AT: usize = 4064;

pub const ID_SIZE: usize = 32;

// Whether a table may have n buckets.
fn count_allowed(n: usize) -> bool
    ensures { result ≡ count_allowed n }
{
    if n < 1 {
        return false;
    }
    n <= MAX_BUCKETS
}

// The tag pages of n buckets, for any n.
pub fn tag_pages(n: usize) -> usize
    ensures { result ≡ tag_pages n }
{
    if n % PAGE_SIZE == 0 {
        return n / PAGE_SIZE;
    }
    n / PAGE_SIZE + 1
}

// Where the page of a bucket starts in the image of n buckets; at n the image's end, and 0 above it or for
// too many buckets.
pub fn page_start(n: usize, bucket: usize) -> usize
    ensures { result ≡ start_in n bucket }
{
    if n <= MAX_BUCKETS {
        if bucket <= n {
            return PAGE_SIZE * (tag_pages(n) + bucket);
        }
    }
    0
}

// Whether a table may have n buckets; if not, the refusal.
pub fn check_count(n: usize) -> Result<(), Refusal>
    ensures { answer_of result ≡ if_count n (given tt) }
{
    if count_allowed(n) {
        return Ok(());
    }
    Err(Refusal::TableUnfit)
}

// The same of two counts.
pub fn check_counts(a: usize, b: usize) -> Result<(), Refusal>
    ensures { answer_of result ≡ if_table (count_allowed a && count_allowed b) (given tt) }
{
    if count_allowed(a) {
        return check_count(b);
    }
    Err(Refusal::TableUnfit)
}

// Whether none of three counts is above the limit; if one is, the refusal.
pub fn check_limits(a: u64, b: u64, c: u64) -> Result<(), Refusal>
    ensures { answer_of result ≡ if_table (within_limit a && within_limit b && within_limit c) (given tt) }
{
    if a <= MAX_BUCKETS as u64 {
        if b <= MAX_BUCKETS as u64 {
            if c <= MAX_BUCKETS as u64 {
                return Ok(());
            }
        }
    }
    Err(Refusal::TableUnfit)
}

// Whether tags of this length belong to a table of n buckets; if not, the refusal.
pub fn check_tags(n: usize, len: usize) -> Result<(), Refusal>
    ensures { answer_of result ≡ if_table (tags_fit n len) (given tt) }
{
    if len == page_start(n, 0) {
        return check_count(n);
    }
    Err(Refusal::TableUnfit)
}

// Whether an image of this length belongs to a table of n buckets; if not, the refusal.
pub fn check_image(n: usize, len: usize) -> Result<(), Refusal>
    ensures { answer_of result ≡ if_table (image_fits n len) (given tt) }
{
    if len == page_start(n, n) {
        return check_count(n);
    }
    Err(Refusal::TableUnfit)
}

// How many tag pages stand before the data pages.
pub fn num_meta_byte_pages(n: usize) -> Result<u64, Refusal>
    ensures { answer_of result ≡ if_count n (given (tag_pages n)) }
{
    check_count(n)?;
    Ok(tag_pages(n) as u64)
}

// How long the image of n buckets is.
pub fn expected_file_len(n: usize) -> Result<u64, Refusal>
    ensures { answer_of result ≡ if_count n (given (image_length n)) }
{
    check_count(n)?;
    Ok(page_start(n, n) as u64)
}

// The page number of a bucket.
pub fn data_page_index(n: usize, bucket: u64) -> Result<u64, Refusal>
    ensures { answer_of result ≡ page_of n bucket }
{
    check_count(n)?;
    if bucket < n as u64 {
        return Ok(tag_pages(n) as u64 + bucket);
    }
    Err(Refusal::BucketOutside)
}

// The page number of a tag page: the tag pages come first.
pub fn meta_bytes_index(ix: u64) -> u64
    ensures { result ≡ ix }
{
    ix
}
