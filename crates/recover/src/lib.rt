// Replay of a log on a table image, as the original's `recover`. The whole log is read before the
// image is touched; then its entries are applied one after the other. Each write is by a function that
// is lent only the tag byte, one slot or the last 40 bytes of a page, so whatever stops it leaves an image
// that differs from the table only in places that the log names.
#![tactic(auto)]

ghost use Rattle.std.specs.Prelude.{◌≡◌, true, false, [], ◌∷◌, ◌++◌, ◌+◌, ◌*◌, ◌≤◌, length, get_or};
ghost use Rattle.answers.specs.Answers.{given, answer_of};
ghost use Rattle.blocks.specs.Blocks.{tabulate};
ghost use Rattle.ht_file.specs.Places.{image_fits};
ghost use Rattle.page_diff.specs.Diff.{reserved, count_of};
ghost use Rattle.page_diff.specs.Pack.{unpacked_byte};
ghost use Rattle.wal.specs.Log.{update_body};
ghost use Rattle.wal.specs.Reader.{diff_at, nodes_from};
ghost use Rattle.wal.specs.declared.AfterEnd.TheVariants.{Tolerant};
ghost use Rattle.recover.specs.Places.{replayed};
ghost use Rattle.recover.specs.Replay.{of_store, hashes_fit, check_answer, after_start, step_answer, step_image, replay_tests, replay_answer, replay_image, steps_of, stepped_said, recovered_said};
ghost use Rattle.recover.specs.InnerPage.{page_by};

use answers::Refusal;
use ht_file::PAGE_SIZE;
use meta_map::TOMBSTONE;
use page_diff::Diff;
use wal::{AfterEnd, Edition};
use wal_read::Head;

// What replay expects of a log: the sync number, and the seed of the table's store, which a log of edition two names.
#[derive(Clone, Copy)]
pub struct Expected {
    pub sync: u32,
    pub seed: [u8; 16],
}

// What replay did: nothing, for an empty log; nothing, for the log of another sync; or all of it.
#[derive(Clone, Copy)]
pub enum Recovered {
    Nothing,
    Stale,
    Applied,
}

// What one step did: an entry applied, with the position of the next; or it stands at the end.
#[derive(Clone, Copy)]
pub enum Stepped {
    Cleared(usize),
    Updated(usize),
    End,
}

// Whether a whole log, after its start, can be applied to a table of n buckets with so many hashes, by what is wanted
// after end, which is looked at once.
fn check_log(log: &[u8], n: usize, hashes: usize, rule: AfterEnd) -> Result<(), Refusal>
    ensures { answer_of result ≡ check_answer rule n log.now hashes }
{
    let edition = wal_read::edition_of(log);
    let mut at = wal::start_size(edition);
    let mut updates: usize = 0;
    // Each record tells where the next one stands, so there is no range to go over.
    loop {
        let head = wal_read::head_at(log, at, edition, rule)?;
        if let Head::Clear { bucket, next } = head {
            if n as u64 <= bucket {
                return Err(Refusal::BucketOutside);
            }
            at = next;
        } else {
            let Head::Update {
                bucket,
                count: _,
                next,
            } = head
            else {
                return check_hashes(hashes, updates);
            };
            if n as u64 <= bucket {
                return Err(Refusal::BucketOutside);
            }
            updates += 1;
            at = next;
        }
    }
}

// Whether there are as many hashes as the log has updates.
fn check_hashes(hashes: usize, updates: usize) -> Result<(), Refusal>
    ensures { answer_of result ≡ hashes_fit hashes updates }
{
    if hashes != updates {
        return Err(Refusal::LengthUnfit);
    }
    Ok(())
}

// Writes a tag, lent alone.
fn write_tag(part: &mut [u8], tag: u8)
    requires { length part.old ≡ 1 }
    ensures { part.new ≡ tag ∷ [] }
{
    part[0] = tag;
}

// Writes a node, lent its slot alone.
fn write_node(part: &mut [u8], node: [u8; 32])
    requires { length part.old ≡ 32 }
    ensures { (part.new ≡ node) × (length node ≡ 32) }
{
    part.copy_from_slice(&node);
}

// Writes the elided children and the page id, lent a page's last 40 bytes alone.
fn write_label(part: &mut [u8], elided: [u8; 8], id: [u8; 32])
    requires { length part.old ≡ 40 }
    ensures { (part.new ≡ elided ++ id) × (length elided ≡ 8) × (length id ≡ 32) }
{
    let (first, last) = part.split_at_mut(8);
    first.copy_from_slice(&elided);
    last.copy_from_slice(&id);
}

// The marked slots of a page take the nodes that stand in the log from `from` on; the rest stays.
fn write_slots(page: &mut [u8], d: Diff, log: &[u8], from: usize)
    requires { (length page.old ≡ 4096) × (reserved d.words ≡ false) × (from + 32 * count_of d.words ≤ length log.now) }
    ensures { page.new ≡ tabulate (unpacked_byte d.words (nodes_from log.now from (count_of d.words)) page.old) 4096 }
{
    for (c, s) in page_diff::marked_slots(d).enumerate() {
        let node = blocks::block::<32>(log, from + 32 * c);
        let a = 32 * s;
        let e = a + 32;
        write_node(&mut page[a..e], node);
    }
}

// The update whose body is at `body` on its page: the marked slots, then the last 40 bytes; the rest stays.
fn apply_page(page: &mut [u8], log: &[u8], body: usize, count: usize)
    requires { (length page.old ≡ 4096) × (reserved (diff_at log.now body) ≡ false) × (count ≡ count_of (diff_at log.now body)) × (body + update_body count ≤ length log.now) }
    ensures { page.new ≡ page_by log.now body count page.old }
{
    // The head has read the diff already, so it is not refused.
    let d = page_diff::from_bytes(blocks::block::<16>(log, body + wal::DIFF_AT)).unwrap();
    write_slots(page, d, log, body + wal::NODES_AT);
    let elided = blocks::block::<8>(log, body + wal::NODES_AT + 32 * count);
    let id = blocks::block::<32>(log, body);
    write_label(
        &mut page[page_diff::ELIDED_AT..page_diff::PAGE_SIZE],
        elided,
        id,
    );
}

// The same for an image that is the table's: only the log can be refused.
fn apply_at(
    image: &mut [u8],
    n: usize,
    log: &[u8],
    edition: Edition,
    at: usize,
    hash: u64,
    rule: AfterEnd,
) -> Result<Stepped, Refusal>
    requires { image_fits n (length image.old) ≡ true }
    ensures { (stepped_said result ≡ step_answer rule n image.old edition log.now at) × (image.new ≡ step_image rule n image.old edition log.now at hash) }
{
    let head = wal_read::head_at(log, at, edition, rule)?;
    if let Head::Clear { bucket, next } = head {
        if n as u64 <= bucket {
            return Err(Refusal::BucketOutside);
        }
        let b = bucket as usize;
        write_tag(&mut image[b..b + 1], TOMBSTONE);
        return Ok(Stepped::Cleared(next));
    }
    let Head::Update {
        bucket,
        count,
        next,
    } = head
    else {
        return Ok(Stepped::End);
    };
    if n as u64 <= bucket {
        return Err(Refusal::BucketOutside);
    }
    let b = bucket as usize;
    write_tag(&mut image[b..b + 1], meta_map::full_entry(hash));
    let a = ht_file::page_start(n, b);
    let e = a + PAGE_SIZE;
    let body = next - (wal::UPDATE_BODY + 32 * count);
    apply_page(&mut image[a..e], log, body, count);
    Ok(Stepped::Updated(next))
}

// Applies the entry at a position of a log of an edition to the image: a clear writes its bucket's tag, an update its
// tag, its marked slots and its last 40 bytes. Every other byte stays, and a refusal leaves all. By what is wanted
// after end: 27 in place of end.
pub fn apply_entry(
    image: &mut [u8],
    n: usize,
    log: &[u8],
    edition: Edition,
    at: usize,
    hash: u64,
    rule: AfterEnd,
) -> Result<Stepped, Refusal>
    ensures { (stepped_said result ≡ step_answer rule n image.old edition log.now at) × (image.new ≡ step_image rule n image.old edition log.now at hash) }
{
    ht_file::check_image(n, image.len())?;
    apply_at(image, n, log, edition, at, hash, rule)
}

// Applies every entry of a log that was checked for this table; what follows its end was looked at then.
fn run(image: &mut [u8], n: usize, log: &[u8], hashes: &[u64])
    requires { (image_fits n (length image.old) ≡ true) × (check_answer Tolerant n log.now (length hashes.now) ≡ given tt) }
    ensures { image.new ≡ replayed n (steps_of log.now hashes.now) image.old }
{
    let edition = wal_read::edition_of(log);
    let mut at = wal::start_size(edition);
    let mut used: usize = 0;
    // Each step tells where the next one stands, so there is no range to go over.
    loop {
        let hash = hash_at(hashes, used);
        match apply_at(image, n, log, edition, at, hash, AfterEnd::Tolerant) {
            Ok(Stepped::Cleared(next)) => {
                at = next;
            }
            Ok(Stepped::Updated(next)) => {
                at = next;
                used += 1;
            }
            Ok(Stepped::End) => return,
            // No step of a log that was checked is refused.
            Err(_) => return,
        }
    }
}

// The hash at an index, 0 where there is none.
fn hash_at(hashes: &[u64], i: usize) -> u64
    ensures { result ≡ get_or hashes.now i 0 }
{
    hashes.get(i).copied().unwrap_or(0)
}

// Whether a log is of the store with this seed: one of edition one names no store, so it is taken for any.
fn of_store(log: &[u8], seed: [u8; 16]) -> bool
    ensures { result ≡ of_store log.now seed }
{
    match wal_read::edition_of(log) {
        Edition::One => true,
        Edition::Two => blocks::same_block(wal_read::seed_of(log), seed),
    }
}

// What replay answers once the start is read: 26, stale, the first bad entry, 27, the hash count.
fn check_started(
    log: &[u8],
    n: usize,
    found: u64,
    want: Expected,
    hashes: usize,
    rule: AfterEnd,
) -> Result<Recovered, Refusal>
    ensures { recovered_said result ≡ after_start (given found) log.now want (check_answer rule n log.now hashes) }
{
    let seed = want.seed;
    if !of_store(log, seed) {
        return Err(Refusal::OtherStore);
    }
    if found != u64::from(want.sync) {
        return Ok(Recovered::Stale);
    }
    check_log(log, n, hashes, rule)?;
    Ok(Recovered::Applied)
}

// What replay answers, told before a byte is written: 1, nothing, 5, 7, 26, stale, the first bad entry, 27 by what is
// wanted after end, the hash count. It looks at the lengths of the image and of the hashes alone.
pub fn check_replay(
    image_len: usize,
    n: usize,
    log: &[u8],
    want: Expected,
    hashes: usize,
    rule: AfterEnd,
) -> Result<Recovered, Refusal>
    ensures { recovered_said result ≡ replay_tests rule n image_len log.now want hashes }
{
    ht_file::check_image(n, image_len)?;
    if log.is_empty() {
        return Ok(Recovered::Nothing);
    }
    let found = wal_read::set(log)?;
    check_started(log, n, found, want, hashes, rule)
}

// Replay: applies a log to the image of a table of n buckets, where the log is of the table's store and of the expected
// sync, can be applied whole, and ends as is wanted; otherwise the image stays as it is.
pub fn recover(
    image: &mut [u8],
    n: usize,
    log: &[u8],
    want: Expected,
    hashes: &[u64],
    rule: AfterEnd,
) -> Result<Recovered, Refusal>
    ensures { (recovered_said result ≡ replay_answer rule n image.old log.now want hashes.now) × (image.new ≡ replay_image rule n image.old log.now want hashes.now) }
{
    let did = check_replay(image.len(), n, log, want, hashes.len(), rule)?;
    if let Recovered::Applied = did {
        run(image, n, log, hashes);
    }
    Ok(did)
}
