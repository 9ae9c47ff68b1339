// What other languages link: every operation of document 01 as an exported function, thin over the
// proved crates. A slice is a pointer and then its length, an array a pointer; a diff is its two words,
// low word first. An answer is a number or a small struct that begins with the refusal's number, 0 for
// none. No call needs its caller to check anything but that the pointers and lengths are true.
#![tactic(auto)]

ghost use Rattle.std.specs.Prelude.{◌≡◌, not, ◌/◌, eqb};
ghost use Rattle.answers.specs.Refusals.{number_of};
ghost use Rattle.answers.specs.Answers.{given, answer_of};
ghost use Rattle.ht_file.specs.Places.{tag_pages, image_length, if_count, if_tags, page_of};
ghost use Rattle.meta_map.specs.Tags.{empty, tombstone, full, kind_of, is_kind, full_tag, count_of as full_count, padding_empty, write_answer, tag_written};
ghost use Rattle.page_diff.specs.Diff.{marked, count_of, set_answer, set_words, ask_answer, cleared_words, joined, bytes_of_words, read_answer, read_words};
ghost use Rattle.page_diff.specs.Pack.{pack_answer, packed_of, unpack_answer, unpacked_page, pack_into_answer, packed_into};
ghost use Rattle.probe.specs.Path.{probe_answer, lookup_answer, hit_limit, allocate_answer, allocated_tags, probed_said, found_said};
ghost use Rattle.wal.specs.Reader.{edition_at, start_of, seed_of, next_by};
ghost use Rattle.wal.specs.declared.AfterEnd.TheVariants.{Zeros, Tolerant};
ghost use Rattle.wal.specs.Writer.{begin_answer, begin_writer, begin_log, clear_answer, update_answer, finish_answer, finish_writer, finish_log};
ghost use Rattle.wal_read.specs.Head.{head_of, head_said};
ghost use Rattle.wal_read.specs.Set.{first_at};
ghost use Rattle.wal_write.specs.Calls.{clear_writer, clear_log, update_writer, update_log};
ghost use Rattle.sync.specs.Change.{mem_of, taken_said};
ghost use Rattle.sync.specs.Sync.{synced_said};
ghost use Rattle.recover.specs.Replay.{replay_answer, replay_image, step_answer, step_image, recovered_said, stepped_said};
ghost use Rattle.rehash.specs.Marker.{write_answer as write_marker_answer, written_marker, read_answer as read_marker_answer, marker_said};
ghost use Rattle.rehash.specs.Pending.{pending_answer, decision_said};
ghost use Rattle.rehash.specs.Growth.{growth_answer, growth_image, grown_said};
ghost use Rattle.validate.specs.Audit.{audit_answer};
ghost use Rattle.bitbox.specs.InnerWords.{Worded};
ghost use Rattle.numbers.specs.Numbers.{refusal_of, edition_of, edition_number};
ghost use Rattle.bitbox.specs.Words.{words, outcome_words, number_words, truth_words, probe_words, lookup_words, Read, head_words, log_start_of, expected, writer_of, writer_words, written_words, finished_words, state_of, state_words, step_words, sync_words, StepExport, SyncExport, replay_words, went_words, marker_words, left_words, growth_words, audit_words, pair};

use answers::Refusal;
use page_diff::{Diff, Packed};
use recover::Expected;
use sync::{Change, Lent, SyncRefusal, SyncStart, SyncState};
use wal::{AfterEnd, Start, Writer};

// ---- answers

// 0, or the refusal's number; and a value, 0 where there is none.
#[repr(C)]
#[derive(Clone, Copy)]
pub struct Answer {
    pub refusal: u64,
    pub value: u64,
}

// The same with a diff: of no mark where it is refused to read one, the lent one where to set one.
#[repr(C)]
#[derive(Clone, Copy)]
pub struct DiffAnswer {
    pub refusal: u64,
    pub diff: Diff,
}

// The same with packed nodes: none where it is refused.
#[repr(C)]
#[derive(Clone, Copy)]
pub struct PackAnswer {
    pub refusal: u64,
    pub packed: Packed,
}

// What probing comes to: 0 empty, 1 tombstone, 2 hit, 3 closed; the bucket and its visit.
#[repr(C)]
#[derive(Clone, Copy)]
pub struct Probed {
    pub refusal: u64,
    pub kind: u64,
    pub bucket: u64,
    pub visit: u64,
}

// What lookup comes to: 0 found, 1 absent, 2 closed; the bucket.
#[repr(C)]
#[derive(Clone, Copy)]
pub struct Found {
    pub refusal: u64,
    pub kind: u64,
    pub bucket: u64,
}

// An entry of a log: 0 end, 1 clear, 2 update; its bucket; where the next one stands; of an update its id,
// diff, nodes and elided children.
#[repr(C)]
#[derive(Clone, Copy)]
pub struct Entry {
    pub refusal: u64,
    pub kind: u64,
    pub bucket: u64,
    pub next: u64,
    pub id: [u8; 32],
    pub diff: Diff,
    pub packed: Packed,
    pub elided: [u8; 8],
}

// An entry seen without its fields: 0 end, 1 clear, 2 update; its bucket; the count of its nodes; where the
// next one stands.
#[repr(C)]
#[derive(Clone, Copy)]
pub struct Head {
    pub refusal: u64,
    pub kind: u64,
    pub bucket: u64,
    pub count: u64,
    pub next: u64,
}

// What a log starts with: its sync number; its edition, where 2 is the second and any other number the first; and
// the seed of its store, which edition one leaves out.
#[repr(C)]
#[derive(Clone, Copy)]
pub struct LogStart {
    pub sync: u32,
    pub edition: u32,
    pub seed: [u8; 16],
}

// A writer's state: 0 fresh, 1 open at a position of a log of edition one, 3 of edition two, any other finished
// with a length.
#[repr(C)]
#[derive(Clone, Copy)]
pub struct WriterState {
    pub kind: u64,
    pub at: u64,
}

// What a writer's call comes to, and the state after it.
#[repr(C)]
#[derive(Clone, Copy)]
pub struct Written {
    pub refusal: u64,
    pub length: u64,
    pub writer: WriterState,
}

// The state of a sync that is made step by step.
#[repr(C)]
#[derive(Clone, Copy)]
pub struct StepState {
    pub n: u64,
    pub writer: WriterState,
    pub occupied: u64,
}

// What a step of a sync comes to: the bucket, the page's number, the state after it.
#[repr(C)]
#[derive(Clone, Copy)]
pub struct StepAnswer {
    pub refusal: u64,
    pub bucket: u64,
    pub page: u64,
    pub state: StepState,
}

// What a sync comes to: full buckets and the log's length; or a refusal, at change `change` where
// `at_change` is 1; and the writer after it.
#[repr(C)]
#[derive(Clone, Copy)]
pub struct SyncAnswer {
    pub refusal: u64,
    pub at_change: u64,
    pub change: u64,
    pub occupied: u64,
    pub length: u64,
    pub writer: WriterState,
}

// What a step of replay comes to: 0 end, 1 cleared, 2 updated; where the next entry stands.
#[repr(C)]
#[derive(Clone, Copy)]
pub struct Stepped {
    pub refusal: u64,
    pub kind: u64,
    pub next: u64,
}

// The counts of a marker.
#[repr(C)]
#[derive(Clone, Copy)]
pub struct Marker {
    pub refusal: u64,
    pub old: u64,
    pub new: u64,
}

// The bytes of a marker: zeros where it is refused.
#[repr(C)]
#[derive(Clone, Copy)]
pub struct MarkerBytes {
    pub refusal: u64,
    pub bytes: [u8; 16],
}

// What an audit comes to: buckets, full ones, and their rate.
#[repr(C)]
#[derive(Clone, Copy)]
pub struct Audited {
    pub refusal: u64,
    pub capacity: u64,
    pub occupied: u64,
    pub rate: f64,
}

// ---- from the proved crates' answers to these, and back
// Each is a `From`. What crosses with something beside the answer, as a position or the state after a call, has a
// function `of_..` of both, since a `From` takes one value. (A `usize` goes over by `as`: it has no `From` to `u64`.)

// A refusal, which has no value.
fn refused(why: Refusal) -> Answer
    ensures { result ≡ words (number_of why) 0 }
{
    Answer {
        refusal: numbers::refusal_number(why),
        value: 0,
    }
}

// A value.
fn value(x: u64) -> Answer
    ensures { result ≡ words 0 x }
{
    Answer {
        refusal: 0,
        value: x,
    }
}

impl From<Result<(), Refusal>> for Answer {
    ghost from_gives = { λ r a. a ≡ outcome_words (answer_of r) };

    fn from(r: Result<(), Refusal>) -> Answer {
        match r {
            Ok(()) => value(0),
            Err(why) => refused(why),
        }
    }
}

impl From<Result<u64, Refusal>> for Answer {
    ghost from_gives = { λ r a. a ≡ number_words (answer_of r) };

    fn from(r: Result<u64, Refusal>) -> Answer {
        match r {
            Ok(x) => value(x),
            Err(why) => refused(why),
        }
    }
}

impl From<Result<bool, Refusal>> for Answer {
    ghost from_gives = { λ r a. a ≡ truth_words (answer_of r) };

    fn from(r: Result<bool, Refusal>) -> Answer {
        match r {
            Ok(true) => value(1),
            Ok(false) => value(0),
            Err(why) => refused(why),
        }
    }
}

impl From<Result<probe::Probed, Refusal>> for Probed {
    ghost from_gives = { λ r p. p ≡ probe_words (probed_said r) };

    fn from(r: Result<probe::Probed, Refusal>) -> Probed {
        match r {
            Ok(probe::Probed::Empty { bucket, visit }) => Probed {
                refusal: 0,
                kind: 0,
                bucket,
                visit,
            },
            Ok(probe::Probed::Tombstone { bucket, visit }) => Probed {
                refusal: 0,
                kind: 1,
                bucket,
                visit,
            },
            Ok(probe::Probed::PossibleHit { bucket, visit }) => Probed {
                refusal: 0,
                kind: 2,
                bucket,
                visit,
            },
            Ok(probe::Probed::Closed) => Probed {
                refusal: 0,
                kind: 3,
                bucket: 0,
                visit: 0,
            },
            Err(why) => Probed {
                refusal: numbers::refusal_number(why),
                kind: 0,
                bucket: 0,
                visit: 0,
            },
        }
    }
}

impl From<Result<probe::Found, Refusal>> for Found {
    ghost from_gives = { λ r f. f ≡ lookup_words (found_said r) };

    fn from(r: Result<probe::Found, Refusal>) -> Found {
        match r {
            Ok(probe::Found::At(bucket)) => Found {
                refusal: 0,
                kind: 0,
                bucket,
            },
            Ok(probe::Found::Absent) => Found {
                refusal: 0,
                kind: 1,
                bucket: 0,
            },
            Ok(probe::Found::Closed) => Found {
                refusal: 0,
                kind: 2,
                bucket: 0,
            },
            Err(why) => Found {
                refusal: numbers::refusal_number(why),
                kind: 0,
                bucket: 0,
            },
        }
    }
}

impl From<LogStart> for Start {
    ghost from_gives = { λ s t. t ≡ log_start_of s };

    // (An array goes from struct to struct through a variable: the borrow checker covers no other way yet.)
    fn from(s: LogStart) -> Start {
        let seed = s.seed;
        Start {
            sync: s.sync,
            edition: numbers::edition_of(s.edition),
            seed,
        }
    }
}

impl From<WriterState> for Writer {
    ghost from_gives = { λ s w. w ≡ writer_of s };

    fn from(s: WriterState) -> Writer {
        numbers::writer_from(s.kind, s.at)
    }
}

impl From<Writer> for WriterState {
    ghost from_gives = { λ w s. s ≡ writer_words w };

    fn from(w: Writer) -> WriterState {
        WriterState {
            kind: numbers::writer_kind(w),
            at: numbers::writer_at(w),
        }
    }
}

// What a writer's call comes to, beside the writer after it.
fn of_written(r: Result<(), Refusal>, w: Writer) -> Written
    ensures { result ≡ written_words (answer_of r) w }
{
    Written {
        refusal: numbers::refusal_of(&r),
        length: 0,
        writer: w.into(),
    }
}

// The same of the call that answers a log's length.
fn of_finished(r: Result<u64, Refusal>, w: Writer) -> Written
    ensures { result ≡ finished_words (answer_of r) w }
{
    Written {
        refusal: numbers::refusal_of(&r),
        length: r.unwrap_or(0),
        writer: w.into(),
    }
}

impl From<StepState> for SyncState {
    ghost from_gives = { λ s t. t ≡ state_of s };

    fn from(s: StepState) -> SyncState {
        SyncState {
            n: s.n as usize,
            limit: probe::hit_limit(),
            writer: s.writer.into(),
            occupied: s.occupied,
        }
    }
}

impl From<SyncState> for StepState {
    ghost from_gives = { λ s t. t ≡ state_words s };

    fn from(s: SyncState) -> StepState {
        StepState {
            n: s.n as u64,
            writer: s.writer.into(),
            occupied: s.occupied,
        }
    }
}

// What a step of a sync comes to, beside the state after it.
fn of_taken(r: Result<sync::Taken, Refusal>, state: StepState) -> StepAnswer
    ensures { result ≡ step_words (taken_said r) state }
{
    match r {
        Ok(t) => StepAnswer {
            refusal: 0,
            bucket: t.bucket,
            page: t.page,
            state,
        },
        Err(why) => StepAnswer {
            refusal: numbers::refusal_number(why),
            bucket: 0,
            page: 0,
            state,
        },
    }
}

// What a sync comes to, beside the writer after it.
fn of_synced(r: Result<sync::Synced, SyncRefusal>, writer: WriterState) -> SyncAnswer
    ensures { result ≡ sync_words (synced_said r) writer }
{
    match r {
        Ok(s) => SyncAnswer {
            refusal: 0,
            at_change: 0,
            change: 0,
            occupied: s.occupied,
            length: s.length,
            writer,
        },
        Err(SyncRefusal::Refused(why)) => SyncAnswer {
            refusal: numbers::refusal_number(why),
            at_change: 0,
            change: 0,
            occupied: 0,
            length: 0,
            writer,
        },
        Err(SyncRefusal::RefusedAt(j, why)) => SyncAnswer {
            refusal: numbers::refusal_number(why),
            at_change: 1,
            change: j as u64,
            occupied: 0,
            length: 0,
            writer,
        },
    }
}

impl From<Result<recover::Recovered, Refusal>> for Answer {
    ghost from_gives = { λ r a. a ≡ replay_words (recovered_said r) };

    fn from(r: Result<recover::Recovered, Refusal>) -> Answer {
        match r {
            Ok(recover::Recovered::Nothing) => value(0),
            Ok(recover::Recovered::Stale) => value(1),
            Ok(recover::Recovered::Applied) => value(2),
            Err(why) => refused(why),
        }
    }
}

// What a step of replay at a position comes to.
fn of_stepped(r: Result<recover::Stepped, Refusal>, at: usize) -> Stepped
    ensures { result ≡ went_words (stepped_said r) at }
{
    match r {
        Ok(recover::Stepped::End) => Stepped {
            refusal: 0,
            kind: 0,
            next: at as u64,
        },
        Ok(recover::Stepped::Cleared(next)) => Stepped {
            refusal: 0,
            kind: 1,
            next: next as u64,
        },
        Ok(recover::Stepped::Updated(next)) => Stepped {
            refusal: 0,
            kind: 2,
            next: next as u64,
        },
        Err(why) => Stepped {
            refusal: numbers::refusal_number(why),
            kind: 0,
            next: at as u64,
        },
    }
}

impl From<Result<rehash::Marker, Refusal>> for Marker {
    ghost from_gives = { λ r m. m ≡ marker_words (marker_said r) };

    fn from(r: Result<rehash::Marker, Refusal>) -> Marker {
        match r {
            Ok(m) => Marker {
                refusal: 0,
                old: u64::from(m.old),
                new: u64::from(m.new),
            },
            Err(why) => Marker {
                refusal: numbers::refusal_number(why),
                old: 0,
                new: 0,
            },
        }
    }
}

impl From<Result<rehash::Decision, Refusal>> for Answer {
    ghost from_gives = { λ r a. a ≡ left_words (decision_said r) };

    fn from(r: Result<rehash::Decision, Refusal>) -> Answer {
        match r {
            Ok(rehash::Decision::Tidy) => value(0),
            Ok(rehash::Decision::UpdateMetaThenTidy) => value(1),
            Err(why) => refused(why),
        }
    }
}

impl From<Result<rehash::Grown, Refusal>> for Answer {
    ghost from_gives = { λ r a. a ≡ growth_words (grown_said r) };

    fn from(r: Result<rehash::Grown, Refusal>) -> Answer {
        match r {
            Ok(rehash::Grown::NothingToDo) => value(0),
            Ok(rehash::Grown::Done) => value(1),
            Err(why) => refused(why),
        }
    }
}

impl From<Result<validate::Audit, Refusal>> for Audited {
    ghost from_gives = { λ r a. a ≡ audit_words (answer_of r) };

    fn from(r: Result<validate::Audit, Refusal>) -> Audited {
        let refusal = numbers::refusal_of(&r);
        let v = numbers::audit_values(r);
        Audited {
            refusal,
            capacity: v.capacity,
            occupied: v.occupied,
            rate: v.rate,
        }
    }
}

// A diff of its two words.
fn diff(lo: u64, hi: u64) -> Diff
    ensures { result.words ≡ pair lo hi }
{
    let words = [lo, hi];
    Diff { words }
}

// ---- diff

// A diff out of its sixteen bytes: 4.
#[unsafe(no_mangle)]
pub extern "C" fn bitbox_diff_read(bytes: &[u8; 16]) -> DiffAnswer
    ensures { (result.refusal ≡ refusal_of (read_answer bytes.now)) × (result.diff.words ≡ read_words bytes.now) }
{
    let read = page_diff::from_bytes(*bytes);
    DiffAnswer {
        refusal: numbers::refusal_of(&read),
        diff: read.unwrap_or(diff(0, 0)),
    }
}

// The sixteen bytes of a diff.
#[unsafe(no_mangle)]
pub extern "C" fn bitbox_diff_bytes(lo: u64, hi: u64, bytes: &mut [u8; 16])
    ensures { bytes.new ≡ bytes_of_words (pair lo hi) }
{
    *bytes = page_diff::as_bytes(diff(lo, hi));
}

// Marks a slot of a node: 3.
#[unsafe(no_mangle)]
pub extern "C" fn bitbox_diff_set(lo: u64, hi: u64, slot: usize) -> DiffAnswer
    ensures { (result.refusal ≡ refusal_of (set_answer slot)) × (result.diff.words ≡ set_words (pair lo hi) slot) }
{
    let lent = diff(lo, hi);
    let set = page_diff::set_changed(lent, slot);
    DiffAnswer {
        refusal: numbers::refusal_of(&set),
        diff: set.unwrap_or(lent),
    }
}

// Whether a slot is marked: 3.
#[unsafe(no_mangle)]
pub extern "C" fn bitbox_diff_ask(lo: u64, hi: u64, slot: usize) -> Answer
    ensures { result ≡ truth_words (ask_answer (pair lo hi) slot) }
{
    page_diff::changed(diff(lo, hi), slot).into()
}

// Marks the page as cleared.
#[unsafe(no_mangle)]
pub extern "C" fn bitbox_diff_set_cleared(lo: u64, hi: u64) -> Diff
    ensures { result.words ≡ cleared_words (pair lo hi) }
{
    page_diff::set_cleared(diff(lo, hi))
}

// Whether the page was cleared.
#[unsafe(no_mangle)]
pub extern "C" fn bitbox_diff_cleared(lo: u64, hi: u64) -> bool
    ensures { result ≡ marked (pair lo hi) 127 }
{
    page_diff::cleared(diff(lo, hi))
}

// How many marks there are.
#[unsafe(no_mangle)]
pub extern "C" fn bitbox_diff_count(lo: u64, hi: u64) -> usize
    ensures { result ≡ count_of (pair lo hi) }
{
    page_diff::count(diff(lo, hi))
}

// All marks of both.
#[unsafe(no_mangle)]
pub extern "C" fn bitbox_diff_join(lo: u64, hi: u64, lo2: u64, hi2: u64) -> Diff
    ensures { result.words ≡ joined (pair lo hi) (pair lo2 hi2) }
{
    page_diff::join(diff(lo, hi), diff(lo2, hi2))
}

// The nodes of a page's marked slots, by value: 2, 4. (A match and no `unwrap_or_else`, which has three tables of nodes
// on the stack in place of one.)
#[tactic(auto, unfolding(page_diff::specs::Pack::table_of))]
#[unsafe(no_mangle)]
pub extern "C" fn bitbox_pack(lo: u64, hi: u64, page: &[u8]) -> PackAnswer
    ensures { (result.refusal ≡ refusal_of (pack_answer (pair lo hi) page.now)) × (result.packed ≡ packed_of (pair lo hi) page.now) }
{
    match page_diff::pack_changed_nodes(diff(lo, hi), page) {
        Ok(packed) => PackAnswer { refusal: 0, packed },
        Err(why) => PackAnswer {
            refusal: numbers::refusal_number(why),
            packed: page_diff::pack_up([[0; 32]; 126], 0),
        },
    }
}

// The same into lent memory of 4,032 bytes, and their count: 2, 4, 2.
#[unsafe(no_mangle)]
pub extern "C" fn bitbox_pack_into(lo: u64, hi: u64, page: &[u8], nodes: &mut [u8]) -> Answer
    ensures { (result ≡ number_words (pack_into_answer (pair lo hi) page.now nodes.old)) × (nodes.new ≡ packed_into (pair lo hi) page.now nodes.old) }
{
    page_diff::pack_into(nodes, diff(lo, hi), page).into()
}

// Puts packed nodes back at the marked slots of a page: 2, 4, 2.
#[unsafe(no_mangle)]
pub extern "C" fn bitbox_unpack(
    lo: u64,
    hi: u64,
    nodes: &[[u8; 32]; 126],
    count: usize,
    page: &mut [u8],
) -> Answer
    ensures { (result ≡ outcome_words (unpack_answer (pair lo hi) count page.old)) × (page.new ≡ unpacked_page (pair lo hi) nodes.now count page.old) }
{
    page_diff::unpack_lent_nodes(diff(lo, hi), nodes, count, page).into()
}

// ---- tags and places

// The tag of a bucket that holds a page with this hash.
#[unsafe(no_mangle)]
pub extern "C" fn bitbox_full_tag(hash: u64) -> u8
    ensures { result ≡ full_tag hash }
{
    meta_map::full_entry(hash)
}

// Whether the tag says that the bucket is empty.
#[unsafe(no_mangle)]
pub extern "C" fn bitbox_hint_empty(tag: u8) -> bool
    ensures { result ≡ is_kind empty (kind_of tag) }
{
    meta_map::hint_empty(tag)
}

// Whether the tag says that a page was cleared there.
#[unsafe(no_mangle)]
pub extern "C" fn bitbox_hint_tombstone(tag: u8) -> bool
    ensures { result ≡ is_kind tombstone (kind_of tag) }
{
    meta_map::hint_tombstone(tag)
}

// Whether the tag says that no page with this hash is there.
#[unsafe(no_mangle)]
pub extern "C" fn bitbox_hint_not_match(tag: u8, hash: u64) -> bool
    ensures { result ≡ not (eqb tag (full_tag hash)) }
{
    meta_map::hint_not_match(tag, hash)
}

// Whether the tag says that some page is there.
#[unsafe(no_mangle)]
pub extern "C" fn bitbox_is_full(tag: u8) -> bool
    ensures { result ≡ is_kind full (kind_of tag) }
{
    meta_map::is_full(tag)
}

// Writes the tag of a bucket that takes a page with this hash: 1, 9.
#[unsafe(no_mangle)]
pub extern "C" fn bitbox_set_full(tags: &mut [u8], n: usize, bucket: u64, hash: u64) -> Answer
    ensures { (result ≡ outcome_words (write_answer tags.old n bucket)) × (tags.new ≡ tag_written tags.old n bucket (full_tag hash)) }
{
    meta_map::set_full(tags, n, bucket, hash).into()
}

// Writes the tag of a bucket whose page is cleared: 1, 9.
#[unsafe(no_mangle)]
pub extern "C" fn bitbox_set_tombstone(tags: &mut [u8], n: usize, bucket: u64) -> Answer
    ensures { (result ≡ outcome_words (write_answer tags.old n bucket)) × (tags.new ≡ tag_written tags.old n bucket 0x7F) }
{
    meta_map::set_tombstone(tags, n, bucket).into()
}

// How many of the n tags are full: 1.
#[unsafe(no_mangle)]
pub extern "C" fn bitbox_full_count(tags: &[u8], n: usize) -> Answer
    ensures { result ≡ number_words (if_tags tags.now n (given (full_count full tags.now n))) }
{
    meta_map::full_count(tags, n).into()
}

// Whether all bytes after the n tags are zero: 1.
#[unsafe(no_mangle)]
pub extern "C" fn bitbox_padding_is_empty(tags: &[u8], n: usize) -> Answer
    ensures { result ≡ truth_words (if_tags tags.now n (given (padding_empty tags.now n))) }
{
    meta_map::padding_is_empty(tags, n).into()
}

// The tag page that a bucket's tag stands in.
#[unsafe(no_mangle)]
pub extern "C" fn bitbox_tag_page(bucket: u64) -> u64
    ensures { result ≡ bucket / 4096 }
{
    meta_map::page_index(bucket)
}

// How many tag pages a table has: 1.
#[unsafe(no_mangle)]
pub extern "C" fn bitbox_tag_pages(n: usize) -> Answer
    ensures { result ≡ number_words (if_count n (given (tag_pages n))) }
{
    ht_file::num_meta_byte_pages(n).into()
}

// How long a table's image is: 1.
#[unsafe(no_mangle)]
pub extern "C" fn bitbox_table_length(n: usize) -> Answer
    ensures { result ≡ number_words (if_count n (given (image_length n))) }
{
    ht_file::expected_file_len(n).into()
}

// The page number of a bucket: 1, 9.
#[unsafe(no_mangle)]
pub extern "C" fn bitbox_page_number(n: usize, bucket: u64) -> Answer
    ensures { result ≡ number_words (page_of n bucket) }
{
    ht_file::data_page_index(n, bucket).into()
}

// ---- the path of a hash

// The first empty bucket, tombstone or hit from visit k on: 1.
#[unsafe(no_mangle)]
pub extern "C" fn bitbox_probe(tags: &[u8], n: usize, hash: u64, k: u64) -> Probed
    ensures { result ≡ probe_words (probe_answer tags.now n hash k) }
{
    probe::probe_from(tags, n, hash, k).into()
}

// The bucket whose page ends in the id: 1.
#[unsafe(no_mangle)]
pub extern "C" fn bitbox_lookup(image: &[u8], n: usize, hash: u64, id: &[u8; 32]) -> Found
    ensures { result ≡ lookup_words (lookup_answer image.now n hash id.now) }
{
    probe::lookup(image, n, hash, *id).into()
}

// Gives a bucket to a page with this hash and writes its tag: 1, 10 or 11.
#[unsafe(no_mangle)]
pub extern "C" fn bitbox_allocate(tags: &mut [u8], n: usize, hash: u64) -> Answer
    ensures { (result ≡ number_words (allocate_answer hit_limit tags.old n hash)) × (tags.new ≡ allocated_tags hit_limit tags.old n hash) }
{
    probe::allocate_bucket(tags, n, hash, probe::hit_limit()).into()
}

// ---- the log

// The edition that a log's first byte tells: 2 for 0xB2, else 1.
#[unsafe(no_mangle)]
pub extern "C" fn bitbox_reader_edition(log: &[u8]) -> u32
    ensures { result ≡ edition_number (edition_at log.now) }
{
    numbers::edition_number(wal_read::edition_of(log))
}

// Where the first entry of a log stands.
#[unsafe(no_mangle)]
pub extern "C" fn bitbox_reader_first(log: &[u8]) -> usize
    ensures { result ≡ first_at log.now }
{
    wal_read::first_at(log)
}

// The seed in the start of a log of edition two; zeros where the log is shorter than a start.
#[unsafe(no_mangle)]
pub extern "C" fn bitbox_reader_seed(log: &[u8], seed: &mut [u8; 16])
    ensures { seed.new ≡ seed_of log.now }
{
    *seed = wal_read::seed_of(log);
}

// The sync number of a log of either edition: 5, 6, 7.
#[unsafe(no_mangle)]
pub extern "C" fn bitbox_reader_set(log: &[u8]) -> Answer
    ensures { result ≡ number_words (start_of log.now) }
{
    wal_read::set(log).into()
}

impl From<wal_read::WalEntry> for Entry {
    ghost from_gives = { λ e w. Worded e w };

    // (Its arrays go through variables, as a seed does.)
    fn from(e: wal_read::WalEntry) -> Entry {
        let (refusal, kind, bucket) = match e.what {
            Ok(wal_read::What::Clear(b)) => (0, 1, b),
            Ok(wal_read::What::Update(b)) => (0, 2, b),
            Ok(wal_read::What::End) => (0, 0, 0),
            Err(why) => (numbers::refusal_number(why), 0, 0),
        };
        let id = e.id;
        let packed = e.packed;
        let elided = e.elided;
        Entry {
            refusal,
            kind,
            bucket,
            next: e.next as u64,
            id,
            diff: e.diff,
            packed,
            elided,
        }
    }
}

// The entry at a position of a log of an edition: 6, 8, 4, and 27 where a byte after end is not zero.
#[unsafe(no_mangle)]
pub extern "C" fn bitbox_reader_next(log: &[u8], at: usize, edition: u32) -> Entry
    ensures { Read (next_by Zeros (edition_of edition) log.now at) at result }
{
    wal_read::entry_at(log, at, numbers::edition_of(edition), AfterEnd::Zeros).into()
}

// The same, whatever follows end: 6, 8, 4. The end is told here, and every other entry is that of `bitbox_reader_next`,
// whose parts have no other caller: in this shape the table of nodes is moved least often.
#[unsafe(no_mangle)]
pub extern "C" fn bitbox_reader_next_tolerant(log: &[u8], at: usize, edition: u32) -> Entry
    ensures { Read (next_by Tolerant (edition_of edition) log.now at) at result }
{
    match wal_read::head_at(log, at, numbers::edition_of(edition), AfterEnd::Tolerant) {
        Ok(wal_read::Head::End) => wal_read::end_at(at).into(),
        _ => bitbox_reader_next(log, at, edition),
    }
}

// The head of an entry at a position.
fn of_head(r: Result<wal_read::Head, Refusal>, at: usize) -> Head
    ensures { result ≡ head_words (head_said r) at }
{
    match r {
        Ok(wal_read::Head::Clear { bucket, next }) => Head {
            refusal: 0,
            kind: 1,
            bucket,
            count: 0,
            next: next as u64,
        },
        Ok(
            wal_read::Head::Update {
                bucket,
                count,
                next,
            },
        ) => Head {
            refusal: 0,
            kind: 2,
            bucket,
            count: count as u64,
            next: next as u64,
        },
        Ok(wal_read::Head::End) => Head {
            refusal: 0,
            kind: 0,
            bucket: 0,
            count: 0,
            next: at as u64,
        },
        Err(why) => Head {
            refusal: numbers::refusal_number(why),
            kind: 0,
            bucket: 0,
            count: 0,
            next: at as u64,
        },
    }
}

// The same without its fields, by what is wanted after end.
fn head_by(log: &[u8], at: usize, edition: u32, rule: AfterEnd) -> Head
    ensures { result ≡ head_words (head_of (next_by rule (edition_of edition) log.now at)) at }
{
    of_head(
        wal_read::head_at(log, at, numbers::edition_of(edition), rule),
        at,
    )
}

// The entry without its fields: no table is moved.
#[unsafe(no_mangle)]
pub extern "C" fn bitbox_reader_head(log: &[u8], at: usize, edition: u32) -> Head
    ensures { result ≡ head_words (head_of (next_by Zeros (edition_of edition) log.now at)) at }
{
    head_by(log, at, edition, AfterEnd::Zeros)
}

// The same, whatever follows end.
#[unsafe(no_mangle)]
pub extern "C" fn bitbox_reader_head_tolerant(log: &[u8], at: usize, edition: u32) -> Head
    ensures { result ≡ head_words (head_of (next_by Tolerant (edition_of edition) log.now at)) at }
{
    head_by(log, at, edition, AfterEnd::Tolerant)
}

// Begins a log, in any state: 13.
#[unsafe(no_mangle)]
pub extern "C" fn bitbox_begin(log: &mut [u8], w: WriterState, start: LogStart) -> Written
    ensures { (result ≡ written_words (begin_answer log.old) (begin_writer log.old (writer_of w) (log_start_of start).edition)) × (log.new ≡ begin_log log.old (log_start_of start)) }
{
    let mut writer = Writer::from(w);
    let begun = wal_write::begin(log, &mut writer, start.into());
    of_written(begun, writer)
}

// Writes that a bucket is cleared: 12, 13.
#[unsafe(no_mangle)]
pub extern "C" fn bitbox_write_clear(log: &mut [u8], w: WriterState, bucket: u64) -> Written
    ensures { (result ≡ written_words (clear_answer log.old (writer_of w)) (clear_writer log.old (writer_of w))) × (log.new ≡ clear_log log.old (writer_of w) bucket) }
{
    let mut writer = Writer::from(w);
    let written = wal_write::write_clear(log, &mut writer, bucket);
    of_written(written, writer)
}

// Writes that a page is changed: 12, 2, 4, 13.
#[unsafe(no_mangle)]
pub extern "C" fn bitbox_write_update(
    log: &mut [u8],
    w: WriterState,
    id: &[u8; 32],
    lo: u64,
    hi: u64,
    nodes: &[[u8; 32]; 126],
    count: usize,
    elided: &[u8; 8],
    bucket: u64,
) -> Written
    ensures { (result ≡ written_words (update_answer log.old (writer_of w) (pair lo hi) count) (update_writer log.old (writer_of w) (pair lo hi) count)) × (log.new ≡ update_log log.old (writer_of w) id.now (pair lo hi) nodes.now count elided.now bucket) }
{
    let mut writer = Writer::from(w);
    let written = wal_write::write_lent_update(
        log,
        &mut writer,
        *id,
        diff(lo, hi),
        nodes,
        count,
        *elided,
        bucket,
    );
    of_written(written, writer)
}

// Ends a log and answers its length: 12, 13.
#[unsafe(no_mangle)]
pub extern "C" fn bitbox_finish(log: &mut [u8], w: WriterState) -> Written
    ensures { (result ≡ finished_words (finish_answer log.old (writer_of w)) (finish_writer log.old (writer_of w))) × (log.new ≡ finish_log log.old (writer_of w)) }
{
    let mut writer = Writer::from(w);
    let finished = wal_write::finish(log, &mut writer);
    of_finished(finished, writer)
}

// ---- sync

// One change of a sync: 1, 2, 12, then 4, 2, 9, 14, 13, 10 or 11.
#[unsafe(no_mangle)]
pub extern "C" fn bitbox_sync_step(
    tags: &mut [u8],
    marks: &mut [u8],
    cells: &mut [u64],
    log: &mut [u8],
    page: &[u8],
    c: Change,
    st: StepState,
) -> StepAnswer
    ensures { StepExport st (mem_of tags.old marks.old cells.old log.old) page.now c result (mem_of tags.new marks.new cells.new log.new) }
{
    let mut state = SyncState::from(st);
    let mut m = Lent {
        tags,
        marks,
        cells,
        log,
    };
    let taken = sync::step(&mut m, page, c, &mut state);
    of_taken(taken, state.into())
}

// A list of changes taken into the tags and logged: 1, 2, 13, then at a change as one step.
#[unsafe(no_mangle)]
pub extern "C" fn bitbox_sync(
    tags: &mut [u8],
    marks: &mut [u8],
    cells: &mut [u64],
    log: &mut [u8],
    pages: &[u8],
    changes: &[Change],
    n: usize,
    w: WriterState,
    start: LogStart,
) -> SyncAnswer
    ensures { SyncExport n (mem_of tags.old marks.old cells.old log.old) pages.now changes.now start w result (mem_of tags.new marks.new cells.new log.new) }
{
    let mut writer = Writer::from(w);
    let begins = SyncStart {
        n,
        log_start: start.into(),
    };
    let mut m = Lent {
        tags,
        marks,
        cells,
        log,
    };
    let synced = sync::sync(&mut m, pages, changes, begins, &mut writer);
    of_synced(synced, writer.into())
}

// ---- replay

// Replays a log on an image of a store, with a hash for each update, by what is wanted after end.
fn replay_by(
    image: &mut [u8],
    n: usize,
    log: &[u8],
    sync_seqn: u32,
    seed: [u8; 16],
    hashes: &[u64],
    rule: AfterEnd,
) -> Answer
    ensures { (result ≡ replay_words (replay_answer rule n image.old log.now (expected sync_seqn seed) hashes.now)) × (image.new ≡ replay_image rule n image.old log.now (expected sync_seqn seed) hashes.now) }
{
    let want = Expected {
        sync: sync_seqn,
        seed,
    };
    recover::recover(image, n, log, want, hashes, rule).into()
}

// Replays a log on an image of a store, with a hash for each update: 1, 5, 7, 26, then 6, 8, 4, 9, then 27 where a byte
// after end is not zero, and 2.
#[unsafe(no_mangle)]
pub extern "C" fn bitbox_replay(
    image: &mut [u8],
    n: usize,
    log: &[u8],
    sync_seqn: u32,
    seed: &[u8; 16],
    hashes: &[u64],
) -> Answer
    ensures { (result ≡ replay_words (replay_answer Zeros n image.old log.now (expected sync_seqn seed.now) hashes.now)) × (image.new ≡ replay_image Zeros n image.old log.now (expected sync_seqn seed.now) hashes.now) }
{
    replay_by(image, n, log, sync_seqn, *seed, hashes, AfterEnd::Zeros)
}

// The same, whatever follows end: 1, 5, 7, 26, then 6, 8, 4, 9, and 2.
#[unsafe(no_mangle)]
pub extern "C" fn bitbox_replay_tolerant(
    image: &mut [u8],
    n: usize,
    log: &[u8],
    sync_seqn: u32,
    seed: &[u8; 16],
    hashes: &[u64],
) -> Answer
    ensures { (result ≡ replay_words (replay_answer Tolerant n image.old log.now (expected sync_seqn seed.now) hashes.now)) × (image.new ≡ replay_image Tolerant n image.old log.now (expected sync_seqn seed.now) hashes.now) }
{
    replay_by(image, n, log, sync_seqn, *seed, hashes, AfterEnd::Tolerant)
}

// One entry of it, from a log of an edition, by what is wanted after end.
fn step_by(
    image: &mut [u8],
    n: usize,
    log: &[u8],
    edition: u32,
    at: usize,
    hash: u64,
    rule: AfterEnd,
) -> Stepped
    ensures { (result ≡ went_words (step_answer rule n image.old (edition_of edition) log.now at) at) × (image.new ≡ step_image rule n image.old (edition_of edition) log.now at hash) }
{
    let ed = numbers::edition_of(edition);
    of_stepped(recover::apply_entry(image, n, log, ed, at, hash, rule), at)
}

// One entry of it, from a log of an edition: 1, 6, 8, 4, 9, and 27 where a byte after end is not zero.
#[unsafe(no_mangle)]
pub extern "C" fn bitbox_replay_step(
    image: &mut [u8],
    n: usize,
    log: &[u8],
    edition: u32,
    at: usize,
    hash: u64,
) -> Stepped
    ensures { (result ≡ went_words (step_answer Zeros n image.old (edition_of edition) log.now at) at) × (image.new ≡ step_image Zeros n image.old (edition_of edition) log.now at hash) }
{
    step_by(image, n, log, edition, at, hash, AfterEnd::Zeros)
}

// The same, whatever follows end: 1, 6, 8, 4, 9.
#[unsafe(no_mangle)]
pub extern "C" fn bitbox_replay_step_tolerant(
    image: &mut [u8],
    n: usize,
    log: &[u8],
    edition: u32,
    at: usize,
    hash: u64,
) -> Stepped
    ensures { (result ≡ went_words (step_answer Tolerant n image.old (edition_of edition) log.now at) at) × (image.new ≡ step_image Tolerant n image.old (edition_of edition) log.now at hash) }
{
    step_by(image, n, log, edition, at, hash, AfterEnd::Tolerant)
}

// ---- growth and audit

// The marker of a growth: 17.
#[unsafe(no_mangle)]
pub extern "C" fn bitbox_write_marker(old: u32, new: u32) -> MarkerBytes
    ensures { (result.refusal ≡ refusal_of (write_marker_answer old new)) × (result.bytes ≡ written_marker old new) }
{
    let marker = rehash::write_marker(old, new);
    MarkerBytes {
        refusal: numbers::refusal_of(&marker),
        bytes: marker.unwrap_or([0; 16]),
    }
}

// The counts of a marker: 15, 16, 17.
#[unsafe(no_mangle)]
pub extern "C" fn bitbox_read_marker(bytes: &[u8]) -> Marker
    ensures { result ≡ marker_words (read_marker_answer bytes.now) }
{
    rehash::read_marker(bytes).into()
}

// What is left to do of a growth: 1, 17, 18.
#[unsafe(no_mangle)]
pub extern "C" fn bitbox_pending(old: u64, new: u64, meta: u64, file_len: u64) -> Answer
    ensures { result ≡ left_words (pending_answer old new meta file_len) }
{
    rehash::pending(old, new, meta, file_len).into()
}

// Copies a table into a larger one, with a hash for each old bucket: 1, 19, 2, 10 or 11.
#[unsafe(no_mangle)]
pub extern "C" fn bitbox_grow(
    old_image: &[u8],
    old_n: usize,
    new_image: &mut [u8],
    new_n: usize,
    hashes: &[u64],
) -> Answer
    ensures { (result ≡ growth_words (growth_answer hit_limit old_image.now old_n new_image.old new_n hashes.now)) × (new_image.new ≡ growth_image hit_limit old_image.now old_n new_image.old new_n hashes.now) }
{
    rehash::grow(old_image, old_n, new_image, new_n, hashes).into()
}

// Audits a table, with a hash for each bucket: 1, 2, 20, then 21, 22, 23 or 24.
#[unsafe(no_mangle)]
pub extern "C" fn bitbox_audit(image: &[u8], n: usize, hashes: &[u64]) -> Audited
    ensures { result ≡ audit_words (audit_answer image.now n hashes.now) }
{
    validate::validate_hashtable(image, n, hashes).into()
}
