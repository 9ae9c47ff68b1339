// The read path of a log, as the original's wal/read.rs. `head_at` is the core: it takes a record
// apart but for its nodes, and builds no table. `entry_at` gives the whole entry. Both take the log, a
// position, its edition and what is wanted after end. `WalBlobReader` holds log, position and that, and what the
// log's start answered.
#![tactic(auto)]

ghost use Rattle.std.specs.Prelude.{◌≡◌, ◌+◌, ◌*◌, ◌≤◌, length, IfOk};
ghost use Rattle.answers.specs.Answers.{answer_of, done_of};
ghost use Rattle.blocks.specs.Blocks.{block};
ghost use Rattle.page_diff.specs.Diff.{read_answer, read_words};
ghost use Rattle.wal.specs.declared.AfterEnd.TheVariants.{Zeros, Tolerant};
ghost use Rattle.wal.specs.Reader.{ended, edition_at, start_of, seed_of, by_tag, tag_at, wanted as after_end, next_by, nodes_from};
ghost use Rattle.wal_read.specs.Head.{head_of, head_said};
ghost use Rattle.wal_read.specs.Entry.{Taken, rows};
ghost use Rattle.wal_read.specs.InnerEntry.{Bare};
ghost use Rattle.wal_read.specs.Set.{first_at, gives_at, SetOn, as_tolerant, Gives, Reads};

use answers::Refusal;
use page_diff::{Diff, Packed};
use wal::{AfterEnd, Edition};

// A record without its nodes: the bucket, the count of nodes, and the position after the record.
#[derive(Clone, Copy)]
pub enum Head {
    Clear {
        bucket: u64,
        next: usize,
    },
    Update {
        bucket: u64,
        count: usize,
        next: usize,
    },
    End,
}

// What an entry is, with its bucket.
#[derive(Clone, Copy)]
pub enum What {
    Clear(u64),
    Update(u64),
    End,
}

// An entry: what it is and its bucket, or why there is none; of an update the id, the diff, the nodes and the elided
// children, all zero otherwise; and where the next one stands. They stand beside `what`, since `Taken` promises each of
// them, and the position too, of every entry.
#[derive(Clone, Copy)]
pub struct WalEntry {
    pub what: Result<What, Refusal>,
    pub id: [u8; 32],
    pub diff: Diff,
    pub packed: Packed,
    pub elided: [u8; 8],
    pub next: usize,
}

// The edition that a log's first byte tells: two for 0xB2, else one.
pub fn edition_of(log: &[u8]) -> Edition
    ensures { result ≡ edition_at log.now }
{
    match log.first() {
        Some(&wal::WAL_EDITION_TWO) => Edition::Two,
        _ => Edition::One,
    }
}

// The seed in the start of a log of edition two; zeros where the log is shorter than a start.
#[tactic(auto, unfolding(wal::specs::Reader::seed_of))]
pub fn seed_of(log: &[u8]) -> [u8; 16]
    ensures { result ≡ seed_of log.now }
{
    blocks::block::<16>(log, wal::SEED_AT)
}

// The sync number of a log of either edition, read when a reader is set on it: 5, 6 for an empty log, 7. The first
// entry stands at wal::start_size of its edition.
pub fn set(log: &[u8]) -> Result<u64, Refusal>
    ensures { answer_of result ≡ start_of log.now }
{
    if log.len() % wal::PAGE_SIZE != 0 {
        return Err(Refusal::LogNotPages);
    }
    if log.is_empty() {
        return Err(Refusal::LogCut);
    }
    let body = wal::mark_size(edition_of(log));
    if log[body - 1] != wal::WAL_ENTRY_TAG_START {
        return Err(Refusal::NoStart);
    }
    Ok(u64::from(blocks::read_u32(log, body)))
}

// The diff of the update whose body is at `body`, or a refusal of it.
fn diff_at(log: &[u8], body: usize) -> Result<Diff, Refusal>
    requires { body + 48 ≤ length log.now }
    ensures answer { done_of result ≡ read_answer (block 16 log.now (body + 32)) }
    ensures value { IfOk result (λ d. d.words ≡ read_words (block 16 log.now (body + 32))) }
{
    page_diff::from_bytes(blocks::block::<16>(log, body + wal::DIFF_AT))
}

// The tag of the mark at `at`: 6 where the log ends before it, 8 in edition two where 0xB2 is missing.
fn tag_at(log: &[u8], at: usize, edition: Edition) -> Result<u8, Refusal>
    ensures { answer_of result ≡ tag_at edition log.now at }
{
    let first = *log.get(at).ok_or(Refusal::LogCut)?;
    match edition {
        Edition::One => Ok(first),
        Edition::Two => {
            if first != wal::WAL_EDITION_TWO {
                return Err(Refusal::TagUnknown);
            }
            log.get(at + 1).copied().ok_or(Refusal::LogCut)
        }
    }
}

// What stands from `body` on, after the mark of a tag, without its nodes. It looks at no byte past the record.
#[tactic(auto, using(page_diff::proofs::SlotLaws::slots_few, crate::proofs::UpdateLaws::seen_clear_cut, crate::proofs::UpdateLaws::seen_clear, crate::proofs::UpdateLaws::seen_diff_cut, crate::proofs::UpdateLaws::seen_refused, crate::proofs::UpdateLaws::seen_cut, crate::proofs::UpdateLaws::seen_update))]
fn head_after(log: &[u8], body: usize, tag: u8) -> Result<Head, Refusal>
    requires { body ≤ length log.now }
    ensures { head_said result ≡ head_of (by_tag tag log.now body) }
{
    let left = log.len() - body;
    match tag {
        wal::WAL_ENTRY_TAG_END => Ok(Head::End),
        wal::WAL_ENTRY_TAG_CLEAR => {
            if left < wal::CLEAR_BODY {
                return Err(Refusal::LogCut);
            }
            Ok(Head::Clear {
                bucket: blocks::read_u64(log, body),
                next: body + wal::CLEAR_BODY,
            })
        }
        wal::WAL_ENTRY_TAG_UPDATE => {
            if left < wal::NODES_AT {
                return Err(Refusal::LogCut);
            }
            let diff = diff_at(log, body)?;
            let count = page_diff::count(diff);
            let size = wal::UPDATE_BODY + 32 * count;
            if left < size {
                return Err(Refusal::LogCut);
            }
            Ok(Head::Update {
                bucket: blocks::read_u64(log, body + (size - 8)),
                count,
                next: body + size,
            })
        }
        _ => Err(Refusal::TagUnknown),
    }
}

// The record at `at` without its nodes, whatever follows end: its mark, and what is read after it. No sum wraps on a
// position that no call answered.
fn record_at(log: &[u8], at: usize, edition: Edition) -> Result<Head, Refusal>
    ensures { head_said result ≡ head_of (next_by Tolerant edition log.now at) }
{
    let tag = tag_at(log, at, edition)?;
    head_after(log, at + wal::mark_size(edition), tag)
}

// Whether what stands from `from` on, after the mark of end, is what is wanted there. It is read once.
fn wanted(log: &[u8], from: usize, rule: AfterEnd) -> bool
    ensures { result ≡ after_end rule log.now from }
{
    match rule {
        AfterEnd::Zeros => blocks::zeros_from(log, from),
        AfterEnd::Tolerant => true,
    }
}

// The record at `at` without its nodes, by what is wanted after end: 27 in place of end.
pub fn head_at(log: &[u8], at: usize, edition: Edition, rule: AfterEnd) -> Result<Head, Refusal>
    ensures { head_said result ≡ head_of (next_by rule edition log.now at) }
{
    let head = record_at(log, at, edition)?;
    if let Head::End = head {
        if !wanted(log, at + wal::mark_size(edition), rule) {
            return Err(Refusal::AfterEndUsed);
        }
    }
    Ok(head)
}

// The table of `count` nodes that stand in the log from `from` on, zeros after them.
fn nodes_at(log: &[u8], from: usize, count: usize) -> [[u8; 32]; 126]
    requires { (count ≤ 126) × (from + 32 * count ≤ length log.now) }
    ensures { result ≡ rows (nodes_from log.now from count) }
{
    let mut nodes = [[0u8; 32]; 126];
    for c in 0..count {
        nodes[c] = blocks::block::<32>(log, from + 32 * c);
    }
    nodes
}

// An entry that is no update.
fn bare(what: Result<What, Refusal>, next: usize) -> WalEntry
    ensures { Bare what next result }
{
    WalEntry {
        what,
        id: [0u8; 32],
        diff: Diff { words: [0u64; 2] },
        packed: page_diff::pack_up([[0u8; 32]; 126], 0),
        elided: [0u8; 8],
        next,
    }
}

// The entry at `at`, by what is wanted after end. At the end and on a refusal `next` is `at` itself.
pub fn entry_at(log: &[u8], at: usize, edition: Edition, rule: AfterEnd) -> WalEntry
    ensures { Taken (next_by rule edition log.now at) at result }
{
    match head_at(log, at, edition, rule) {
        Ok(Head::Clear { bucket, next }) => bare(Ok(What::Clear(bucket)), next),
        Ok(
            Head::Update {
                bucket,
                count,
                next,
            },
        ) => {
            let body = at + wal::mark_size(edition);
            let id = blocks::block::<32>(log, body);
            // The head has read the diff already, so it is not refused.
            let diff = diff_at(log, body).unwrap();
            let packed = page_diff::pack_up(nodes_at(log, body + wal::NODES_AT, count), count);
            let elided = blocks::block::<8>(log, body + wal::NODES_AT + 32 * count);
            WalEntry {
                what: Ok(What::Update(bucket)),
                id,
                diff,
                packed,
                elided,
                next,
            }
        }
        Ok(Head::End) => bare(Ok(What::End), at),
        Err(why) => bare(Err(why), at),
    }
}

// The entry of an end at `at`.
pub fn end_at(at: usize) -> WalEntry
    ensures { Taken ended at result }
{
    bare(Ok(What::End), at)
}

// What a reader whose start was answered so gives at `at`: the entry there, by the log's own edition and by what is
// wanted after end, or the start's refusal again.
pub fn entry_set(log: &[u8], at: usize, start: Result<u64, Refusal>, rule: AfterEnd) -> WalEntry
    ensures { Taken (gives_at rule (answer_of start) log.now at) at result }
{
    match start {
        Ok(_) => entry_at(log, at, edition_of(log), rule),
        Err(at_start) => bare(Err(at_start), at),
    }
}

// A reader set on a log: the log, the position of the next entry, what the start answered, and what is wanted after
// end.
#[derive(Clone, Copy)]
pub struct WalBlobReader<'a> {
    pub log: &'a [u8],
    pub at: usize,
    pub start: Result<u64, Refusal>,
    pub rule: AfterEnd,
}

// Where the first entry of a log stands.
pub fn first_at(log: &[u8]) -> usize
    ensures { result ≡ first_at log.now }
{
    wal::start_size(edition_of(log))
}

// Sets a reader on a log: it reads the start, stands before the first entry, and wants zeros after end. Where the
// start is refused, each call on the reader is refused so.
pub fn new<'a>(log: &'a [u8]) -> WalBlobReader<'a>
    ensures { SetOn Zeros log.entry result }
{
    let start = set(log);
    let at = first_at(log);
    WalBlobReader {
        log,
        at,
        start,
        rule: AfterEnd::Zeros,
    }
}

// The same reader with the former rule: it takes whatever follows end.
pub fn tolerant<'a>(r: WalBlobReader<'a>) -> WalBlobReader<'a>
    ensures { result ≡ as_tolerant r.entry }
{
    WalBlobReader {
        rule: AfterEnd::Tolerant,
        ..r
    }
}

// The sync number that the start gave, or its refusal.
pub fn sync_seqn<'a>(r: WalBlobReader<'a>) -> Result<u64, Refusal>
    ensures { result ≡ r.entry.start }
{
    r.start
}

// The entry at which a reader stands.
pub fn peek<'a>(r: WalBlobReader<'a>) -> WalEntry
    ensures { Gives r.entry result }
{
    entry_set(r.log, r.at, r.start, r.rule)
}

// The same, and the reader moves on; at the end and on a refusal it stays.
pub fn read_entry<'s, 'a>(r: &'s mut WalBlobReader<'a>) -> WalEntry
    ensures { Reads r.old result r.new }
{
    let e = peek(*r);
    r.at = e.next;
    e
}
