// Growth, as the original's rehash.rs: the marker of a growth that is under way, what is left to do
// after one was stopped, and the copy of a table's pages into a larger table. Files, and the order in
// which they are written, stay with the caller.
#![tactic(auto)]

ghost use Rattle.std.specs.Prelude.{◌≡◌, true, ◌+◌, ◌≤◌, ◌<◌, length, IfOk};
ghost use Rattle.answers.specs.Answers.{answer_of, done_of};
ghost use Rattle.blocks.specs.Blocks.{block, put};
ghost use Rattle.ht_file.specs.Places.{image_fits};
ghost use Rattle.probe.specs.Path.{hit_limit};
ghost use Rattle.rehash.specs.Marker.{write_answer, written_marker, read_answer, marker_said};
ghost use Rattle.rehash.specs.Pending.{pending_answer, decision_said};
ghost use Rattle.rehash.specs.Growth.{bucket_moved, copied, end_of, image_or, zeroed, growth_answer, growth_image, grown_said};

use answers::Refusal;
use ht_file::PAGE_SIZE;

const MARKER_LEN: usize = 16;

const MARKER_MAGIC: [u8; 8] = *b"NOMTRH1\0";

// The bucket counts that a marker names: the table's, and those that it grows to.
#[derive(Clone, Copy, Debug, PartialEq, Eq)]
pub struct Marker {
    pub old: u32,
    pub new: u32,
}

// What is left to do of a growth: remove its files, or write the new count to the metadata before.
#[derive(Clone, Copy, Debug, PartialEq, Eq)]
pub enum Decision {
    Tidy,
    UpdateMetaThenTidy,
}

// What the copy did.
#[derive(Clone, Copy, Debug, PartialEq, Eq)]
pub enum Grown {
    Done,
    NothingToDo,
}

// The marker of a growth from `old` to `new` buckets.
pub fn write_marker(old: u32, new: u32) -> Result<[u8; 16], Refusal>
    ensures answer { done_of result ≡ write_answer old new }
    ensures value { IfOk result (λ bytes. bytes ≡ written_marker old new) }
{
    if new <= old {
        return Err(Refusal::MarkerOrder);
    }
    let mut bytes = [0; MARKER_LEN];
    bytes[..8].copy_from_slice(&MARKER_MAGIC);
    bytes[8..12].copy_from_slice(&old.to_le_bytes());
    bytes[12..].copy_from_slice(&new.to_le_bytes());
    Ok(bytes)
}

// The bucket counts that a marker names.
pub fn read_marker(bytes: &[u8]) -> Result<Marker, Refusal>
    ensures { marker_said result ≡ read_answer bytes.now }
{
    if bytes.len() != MARKER_LEN {
        return Err(Refusal::MarkerLength);
    }
    if !bytes.starts_with(&MARKER_MAGIC) {
        return Err(Refusal::MarkerMagic);
    }
    let old = blocks::read_u32(bytes, 8);
    let new = blocks::read_u32(bytes, 12);
    if new <= old {
        return Err(Refusal::MarkerOrder);
    }
    Ok(Marker { old, new })
}

// What is left to do of a growth from `old` to `new` buckets that was stopped, where the metadata say
// `meta` buckets and the table's file is `file_len` long.
pub fn pending(old: u64, new: u64, meta: u64, file_len: u64) -> Result<Decision, Refusal>
    ensures { decision_said result ≡ pending_answer old new meta file_len }
{
    ht_file::check_limits(old, new, meta)?;
    if new <= old {
        return Err(Refusal::MarkerOrder);
    }
    let old_len = ht_file::page_start(old as usize, old as usize) as u64;
    let new_len = ht_file::page_start(new as usize, new as usize) as u64;
    if meta == new && file_len == new_len {
        return Ok(Decision::Tidy);
    }
    if meta == old && file_len == new_len {
        return Ok(Decision::UpdateMetaThenTidy);
    }
    if meta == old && file_len == old_len {
        return Ok(Decision::Tidy);
    }
    Err(Refusal::NothingPending)
}

// Copies the page that starts at `from` in one image to `at` in another; every other byte stays. It goes byte by byte:
// `copy_from_slice` from slice to slice is a call of `memmove`, which libbitbox.a has nowhere else.
fn copy_page(image: &mut [u8], at: usize, source: &[u8], from: usize)
    requires { (at + 4096 ≤ length image.old) × (from + 4096 ≤ length source.now) }
    ensures { image.new ≡ put image.old at (block 4096 source.now from) }
{
    for i in 0..PAGE_SIZE {
        image[at + i] = source[from + i];
    }
}

// What old bucket b does to the new image: a full one is allocated by its hash and its page copied there;
// any other does nothing. A refusal leaves the image.
fn move_bucket(
    old_image: &[u8],
    old_n: usize,
    b: usize,
    hash: u64,
    new_image: &mut [u8],
    new_n: usize,
) -> Result<(), Refusal>
    requires { (image_fits old_n (length old_image.now) ≡ true) × (b < old_n) × (image_fits new_n (length new_image.old) ≡ true) }
    ensures { (answer_of result ≡ end_of tt (bucket_moved hit_limit old_image.now old_n new_n hash b new_image.old)) × (new_image.new ≡ image_or new_image.old (bucket_moved hit_limit old_image.now old_n new_n hash b new_image.old)) }
{
    if meta_map::is_full(old_image[b]) {
        let tags = ht_file::page_start(new_n, 0);
        let limit = probe::hit_limit();
        let bucket = probe::allocate_bucket(&mut new_image[..tags], new_n, hash, limit)?;
        let at = ht_file::page_start(new_n, bucket as usize);
        let from = ht_file::page_start(old_n, b);
        copy_page(new_image, at, old_image, from);
    }
    Ok(())
}

// The copy, where all lengths fit: the new image is zeroed, then each old bucket moved, rising. Where one
// is refused, the new image is all zero again.
fn rehash_to(
    old_image: &[u8],
    old_n: usize,
    new_image: &mut [u8],
    new_n: usize,
    hashes: &[u64],
) -> Result<(), Refusal>
    requires { (image_fits old_n (length old_image.now) ≡ true) × (image_fits new_n (length new_image.old) ≡ true) × (length hashes.now ≡ old_n) }
    ensures { (answer_of result ≡ end_of tt (copied hit_limit old_image.now old_n new_n hashes.now)) × (new_image.new ≡ image_or (zeroed new_n) (copied hit_limit old_image.now old_n new_n hashes.now)) }
{
    blocks::zero_all(new_image);
    for (b, hash) in hashes.iter().enumerate() {
        if let Err(why) = move_bucket(old_image, old_n, b, *hash, new_image, new_n) {
            blocks::zero_all(new_image);
            return Err(why);
        }
    }
    Ok(())
}

// The pages of a table's image copied into the zeroed image of a larger table, each to the bucket that its
// lent hash gives it there. The old image is only read; refused with 10 or 11 the new one is all zero, and
// any other refusal leaves it.
pub fn grow(
    old_image: &[u8],
    old_n: usize,
    new_image: &mut [u8],
    new_n: usize,
    hashes: &[u64],
) -> Result<Grown, Refusal>
    ensures { (grown_said result ≡ growth_answer hit_limit old_image.now old_n new_image.old new_n hashes.now) × (new_image.new ≡ growth_image hit_limit old_image.now old_n new_image.old new_n hashes.now) }
{
    ht_file::check_counts(old_n, new_n)?;
    if new_n < old_n {
        return Err(Refusal::WouldShrink);
    }
    if new_n == old_n {
        return Ok(Grown::NothingToDo);
    }
    if old_image.len() != ht_file::page_start(old_n, old_n)
        || new_image.len() != ht_file::page_start(new_n, new_n)
        || hashes.len() != old_n
    {
        return Err(Refusal::LengthUnfit);
    }
    rehash_to(old_image, old_n, new_image, new_n, hashes)?;
    Ok(Grown::Done)
}
