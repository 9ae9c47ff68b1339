// The write path of a log, as the original's wal/write.rs. The state and the log are lent at each call; a
// refused call leaves both as they were. A position is compared with what the slice has
// left, so no sum wraps on one that no call answered.
#![tactic(auto)]

ghost use Rattle.std.specs.Prelude.{◌≡◌, ◌++◌, ◌+◌, ◌*◌, ◌/◌, ◌≤◌, leb, length, take};
ghost use Rattle.blocks.specs.Blocks.{bytes_of, put, flat};
ghost use Rattle.page_diff.specs.Diff.{bytes_of_words};
ghost use Rattle.wal.specs.Log.{clear, mark, mark_size, start_record, record_of, clear_size};
ghost use Rattle.wal.specs.Run.{Rows, WideStart};
ghost use Rattle.wal_write.specs.Calls.{room_in, Begins, Clears, Updates, UpdatesPage, Finishes};

use answers::Refusal;
use page_diff::Diff;
use wal::{Edition, Start, Writer};

// The bytes of an update after its nodes.
const TAIL_SIZE: usize = 16;

// Whether `size` bytes from `at` on, and `mark` more for the end after them, fit the whole pages of a log.
fn room_at(log_len: usize, at: usize, size: usize, mark: usize) -> bool
    ensures { result ≡ leb (at + size + mark) (log_len / 4096 * 4096) }
{
    let capacity = log_len / wal::PAGE_SIZE * wal::PAGE_SIZE;
    if capacity < size {
        return false;
    }
    let left = capacity - size;
    if left < mark {
        return false;
    }
    at <= left - mark
}

// Whether a record with `body` bytes after its mark is taken where the writer stands, so that a caller can know 13
// before it does anything else. A writer that is not open stands at 0 of a log of edition one.
pub fn has_room(log_len: usize, w: Writer, body: usize) -> bool
    ensures { result ≡ room_in log_len w body }
{
    match w {
        Writer::Open(at, edition) => room_at(log_len, at, body, 2 * wal::mark_size(edition)),
        Writer::Fresh | Writer::Finished(_) => room_at(log_len, 0, body, 2),
    }
}

// The mark of a tag.
fn put_mark(log: &mut [u8], at: usize, edition: Edition, tag: u8)
    requires { at + mark_size edition ≤ length log.old }
    ensures { log.new ≡ put log.old at (mark edition tag) }
{
    if let Edition::Two = edition {
        log[at] = wal::WAL_EDITION_TWO;
        log[at + 1] = tag;
    } else {
        log[at] = tag;
    }
}

// The bytes of a start.
fn put_start(log: &mut [u8], start: Start)
    requires { 22 ≤ length log.old }
    ensures { (log.new ≡ put log.old 0 (start_record start)) × WideStart start }
{
    let edition = start.edition;
    let seed = start.seed;
    put_mark(log, 0, edition, wal::WAL_ENTRY_TAG_START);
    blocks::write_u32(log, wal::mark_size(edition), start.sync);
    if let Edition::Two = edition {
        blocks::put_block(log, wal::SEED_AT, seed);
    }
}

// Starts a log of an edition, in any state: the start record at the front of a slice that holds a page, else 13.
pub fn begin(log: &mut [u8], w: &mut Writer, start: Start) -> Result<(), Refusal>
    ensures { Begins log.old w.old start result w.new log.new }
{
    if log.len() < wal::PAGE_SIZE {
        return Err(Refusal::NoRoom);
    }
    let edition = start.edition;
    put_start(log, start);
    *w = Writer::Open(wal::start_size(edition), edition);
    Ok(())
}

// The bytes of a clear.
fn put_clear(log: &mut [u8], at: usize, edition: Edition, bucket: u64)
    requires { at + clear_size edition ≤ length log.old }
    ensures { log.new ≡ put log.old at (record_of edition (clear bucket)) }
{
    put_mark(log, at, edition, wal::WAL_ENTRY_TAG_CLEAR);
    blocks::write_u64(log, at + wal::mark_size(edition), bucket);
}

// Writes a clear of any bucket number: 12, 13.
pub fn write_clear(log: &mut [u8], w: &mut Writer, bucket: u64) -> Result<(), Refusal>
    ensures { Clears log.old w.old bucket result w.new log.new }
{
    let Writer::Open(at, edition) = *w else {
        return Err(Refusal::WriterNotOpen);
    };
    let mark = wal::mark_size(edition);
    let size = mark + wal::CLEAR_BODY;
    if !room_at(log.len(), at, size, mark) {
        return Err(Refusal::NoRoom);
    }
    put_clear(log, at, edition, bucket);
    *w = Writer::Open(at + size, edition);
    Ok(())
}

// The bytes of an update before its nodes: mark, id, diff.
fn put_head(log: &mut [u8], at: usize, edition: Edition, id: [u8; 32], d: Diff)
    requires { at + mark_size edition + 48 ≤ length log.old }
    ensures { (log.new ≡ put log.old at (mark edition 4 ++ (id ++ bytes_of_words d.words))) × (length id ≡ 32) }
{
    let body = at + wal::mark_size(edition);
    put_mark(log, at, edition, wal::WAL_ENTRY_TAG_UPDATE);
    blocks::put_block(log, body, id);
    blocks::put_block(log, body + wal::DIFF_AT, page_diff::as_bytes(d));
}

// The first `held` nodes of a table.
fn put_nodes(log: &mut [u8], at: usize, nodes: &[[u8; 32]; 126], held: usize)
    requires { (held ≤ 126) × (at + 32 * held ≤ length log.old) }
    ensures { (log.new ≡ put log.old at (flat (take held nodes.now))) × (length (flat (take held nodes.now)) ≡ 32 * held) × Rows nodes.now held }
{
    for (c, n) in nodes[..held].iter().enumerate() {
        blocks::put_block(log, at + 32 * c, *n);
    }
}

// The bytes of an update after its nodes: the elided children, the bucket.
fn put_tail(log: &mut [u8], at: usize, elided: [u8; 8], bucket: u64)
    requires { at + 16 ≤ length log.old }
    ensures { (log.new ≡ put log.old at (elided ++ bytes_of 8 bucket)) × (length elided ≡ 8) }
{
    let bucket_at = at + 8;
    blocks::put_block(log, at, elided);
    blocks::write_u64(log, bucket_at, bucket);
}

// Writes an update with the first `held` nodes of a table by value: 12, 2 where that is not the diff's count,
// 4, 13. Entries past the count are not looked at. (Document 01 has the table by value, with its count beside it.)
pub fn write_update(
    log: &mut [u8],
    w: &mut Writer,
    id: [u8; 32],
    d: Diff,
    nodes: [[u8; 32]; 126],
    held: usize,
    elided: [u8; 8],
    bucket: u64,
) -> Result<(), Refusal>
    ensures { Updates log.old w.old id d.words nodes held elided bucket result w.new log.new }
{
    write_lent_update(log, w, id, d, &nodes, held, elided, bucket)
}

// The same of a lent table, so that none is moved.
pub fn write_lent_update(
    log: &mut [u8],
    w: &mut Writer,
    id: [u8; 32],
    d: Diff,
    nodes: &[[u8; 32]; 126],
    held: usize,
    elided: [u8; 8],
    bucket: u64,
) -> Result<(), Refusal>
    ensures { Updates log.old w.old id d.words nodes.now held elided bucket result w.new log.new }
{
    let Writer::Open(at, edition) = *w else {
        return Err(Refusal::WriterNotOpen);
    };
    if page_diff::count(d) != held {
        return Err(Refusal::LengthUnfit);
    }
    if page_diff::is_reserved(d) {
        return Err(Refusal::DiffReserved);
    }
    let mark = wal::mark_size(edition);
    let size = mark + (wal::UPDATE_BODY + 32 * held);
    if !room_at(log.len(), at, size, mark) {
        return Err(Refusal::NoRoom);
    }
    let body = at + mark;
    put_head(log, at, edition, id, d);
    put_nodes(log, body + wal::NODES_AT, nodes, held);
    put_tail(log, at + (size - TAIL_SIZE), elided, bucket);
    *w = Writer::Open(at + size, edition);
    Ok(())
}

// Writes the update of a page, with the marked nodes and the elided children that stand in it: 12, 2
// where it is not 4,096 bytes, 4, 13. It is `write_update` of what is packed, and builds no table.
pub fn write_page_update(
    log: &mut [u8],
    w: &mut Writer,
    id: [u8; 32],
    d: Diff,
    page: &[u8],
    bucket: u64,
) -> Result<(), Refusal>
    ensures { UpdatesPage log.old w.old id d.words page.now bucket result w.new log.new }
{
    let Writer::Open(at, edition) = *w else {
        return Err(Refusal::WriterNotOpen);
    };
    if page.len() != wal::PAGE_SIZE {
        return Err(Refusal::LengthUnfit);
    }
    if page_diff::is_reserved(d) {
        return Err(Refusal::DiffReserved);
    }
    let mark = wal::mark_size(edition);
    let size = mark + (wal::UPDATE_BODY + 32 * page_diff::count(d));
    if !room_at(log.len(), at, size, mark) {
        return Err(Refusal::NoRoom);
    }
    let body = at + mark;
    put_head(log, at, edition, id, d);
    page_diff::put_page_nodes(log, body + wal::NODES_AT, d, page);
    put_tail(
        log,
        at + (size - TAIL_SIZE),
        blocks::block::<8>(page, page_diff::ELIDED_AT),
        bucket,
    );
    *w = Writer::Open(at + size, edition);
    Ok(())
}

// Ends the log, with zeros up to the next page, and answers its length: 12, 13. The slice past that
// length stays as it is.
pub fn finish(log: &mut [u8], w: &mut Writer) -> Result<u64, Refusal>
    ensures { Finishes log.old w.old result w.new log.new }
{
    let Writer::Open(at, edition) = *w else {
        return Err(Refusal::WriterNotOpen);
    };
    let mark = wal::mark_size(edition);
    if !room_at(log.len(), at, 0, mark) {
        return Err(Refusal::NoRoom);
    }
    let after = at + mark;
    let len = after.next_multiple_of(wal::PAGE_SIZE);
    put_mark(log, at, edition, wal::WAL_ENTRY_TAG_END);
    blocks::put_zeros(log, after, len - after);
    *w = Writer::Finished(len);
    Ok(len as u64)
}
