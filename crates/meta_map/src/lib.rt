// The tags, one byte for each bucket, as in the original's meta_map.rs. The tags are lent, exactly
// the tag pages of the table; another length is refused. Questions about a single tag take the byte.
#![tactic(auto)]

ghost use Rattle.std.specs.Prelude.{◌≡◌, not, ◌+◌, ◌/◌, ◌≤◌, length, eqb};
ghost use Rattle.answers.specs.Answers.{answer_of, given};
ghost use Rattle.ht_file.specs.Places.{if_tags};
ghost use Rattle.meta_map.specs.Tags.{empty, tombstone, full, kind_of, is_kind, is_full, full_tag, count_of, padding_empty, write_answer, tag_written};

use answers::Refusal;

pub const EMPTY: u8 = 0x00;

pub const TOMBSTONE: u8 = 0x7F;

pub const FULL_MASK: u8 = 0x80;

// So many tags are counted in a byte: seven times 32.
const COUNTED: usize = 224;

// The tag of a bucket that holds a page with this hash.
pub fn full_entry(hash: u64) -> u8
    ensures { result ≡ full_tag hash }
{
    FULL_MASK + (hash >> 57) as u8
}

// Whether the tag says that the bucket is empty.
pub fn hint_empty(tag: u8) -> bool
    ensures { result ≡ is_kind empty (kind_of tag) }
{
    tag == EMPTY
}

// Whether the tag says that a page was cleared there.
pub fn hint_tombstone(tag: u8) -> bool
    ensures { result ≡ is_kind tombstone (kind_of tag) }
{
    tag == TOMBSTONE
}

// Whether the tag says that no page with this hash is there.
pub fn hint_not_match(tag: u8, hash: u64) -> bool
    ensures { result ≡ not (eqb tag (full_tag hash)) }
{
    tag != full_entry(hash)
}

// Whether the tag says that some page is there.
pub fn is_full(tag: u8) -> bool
    ensures { result ≡ is_full tag }
{
    FULL_MASK <= tag
}

// Writes the tag of a bucket that takes a page with this hash; no other tag changes.
pub fn set_full(tags: &mut [u8], n: usize, bucket: u64, hash: u64) -> Result<(), Refusal>
    ensures { (answer_of result ≡ write_answer tags.old n bucket) × (tags.new ≡ tag_written tags.old n bucket (full_tag hash)) }
{
    set_tag(tags, n, bucket, full_entry(hash))
}

// Writes the tag of a bucket whose page is cleared; no other tag changes.
pub fn set_tombstone(tags: &mut [u8], n: usize, bucket: u64) -> Result<(), Refusal>
    ensures { (answer_of result ≡ write_answer tags.old n bucket) × (tags.new ≡ tag_written tags.old n bucket 0x7F) }
{
    set_tag(tags, n, bucket, TOMBSTONE)
}

// One tag written, or refused: 1 for the table, 9 for the bucket.
fn set_tag(tags: &mut [u8], n: usize, bucket: u64, tag: u8) -> Result<(), Refusal>
    ensures { (answer_of result ≡ write_answer tags.old n bucket) × (tags.new ≡ tag_written tags.old n bucket tag) }
{
    ht_file::check_tags(n, tags.len())?;
    if n as u64 <= bucket {
        return Err(Refusal::BucketOutside);
    }
    tags[bucket as usize] = tag;
    Ok(())
}

// How many of some tags are full: at most 255, in a byte, so that many are counted at once.
fn full_among(tags: &[u8]) -> u8
    requires { length tags.now ≤ 255 }
    ensures { result ≡ count_of full tags.now (length tags.now) }
{
    let mut count: u8 = 0;
    for tag in tags {
        if FULL_MASK <= *tag {
            count += 1;
        }
    }
    count
}

// How many of the n tags are full.
pub fn full_count(tags: &[u8], n: usize) -> Result<u64, Refusal>
    ensures { answer_of result ≡ if_tags tags.now n (given (count_of full tags.now n)) }
{
    ht_file::check_tags(n, tags.len())?;
    let mut count: u64 = 0;
    for part in tags[..n].chunks(COUNTED) {
        count += u64::from(full_among(part));
    }
    Ok(count)
}

// Whether all bytes after the n tags are zero.
pub fn padding_is_empty(tags: &[u8], n: usize) -> Result<bool, Refusal>
    ensures { answer_of result ≡ if_tags tags.now n (given (padding_empty tags.now n)) }
{
    ht_file::check_tags(n, tags.len())?;
    Ok(blocks::zeros_from(tags, n))
}

// The tag page that a bucket's tag stands in.
pub fn page_index(bucket: u64) -> u64
    ensures { result ≡ bucket / 4096 }
{
    bucket / ht_file::PAGE_SIZE as u64
}
