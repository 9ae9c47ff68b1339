// Syncs at the edges that document 01 names: lengths, cells, buckets, tags and diffs that are refused, and
// changes that meet the same cell or bucket; and the clears that W-203 refuses. Each line is a title, the
// answer, and what stands afterwards in the first four tags, the mark, the first two cells, the writer and
// some bytes of the log. The file `stdout` is worked out from documents 01 and 02 apart from this code.
#![tactic(auto)]

ghost use Rattle.std.specs.Prelude.{◌≤◌};

use answers::Refusal;
use page_diff::Diff;
use sync::{Change, Lent, Place, SyncRefusal, SyncStart, SyncState, Synced, Taken};
use wal::{Edition, Start, Writer};

const N: usize = 4;

const SEQN: u32 = 7;

// A cell without a bucket, written out apart from the code that is run.
const UNSET: u64 = 0xffff_ffff_ffff_ffff;

// The diffs' high words: no mark, the mark that nobody has, and that of a cleared page.
const PLAIN: u64 = 0;

const BIT_126: u64 = 0x4000_0000_0000_0000;

const CLEARED: u64 = 0x8000_0000_0000_0000;

// The full tag of hash 0; one that is not, and a hash that has it.
const MINE: u8 = 0x80;

const OTHER: u8 = 0x81;

const OTHERS: u64 = 0x0200_0000_0000_0000;

// What the marks and the log hold before a call.
const WAS: u8 = 9;

fn say(text: &[u8]) {
    io::write_all(1, text);
}

fn say_number(text: &[u8], x: u64) {
    say(text);
    io::print_decimal(1, x);
}

fn say_refusal(why: Refusal) {
    say_number(b": refused ", u64::from(answers::number_of(why)));
}

fn say_synced(r: Result<Synced, SyncRefusal>) {
    match r {
        Ok(s) => {
            say_number(b": done ", s.occupied);
            say_number(b" ", s.length);
        }
        Err(SyncRefusal::Refused(why)) => say_refusal(why),
        Err(SyncRefusal::RefusedAt(j, why)) => {
            say_refusal(why);
            say_number(b" at ", j as u64);
        }
    }
}

fn say_taken(r: Result<Taken, Refusal>) {
    match r {
        Ok(t) => {
            say_number(b": bucket ", t.bucket);
            say_number(b" page ", t.page);
        }
        Err(why) => say_refusal(why),
    }
}

fn say_writer(w: Writer) {
    match w {
        Writer::Fresh => say(b"; fresh"),
        Writer::Open(at, _) => say_number(b"; open ", at as u64),
        Writer::Finished(at) => say_number(b"; finished ", at as u64),
    }
}

// The bytes of a slice at some places, where it has them.
fn say_bytes(text: &[u8], s: &[u8], places: &[usize]) {
    say(text);
    for i in places {
        if let Some(byte) = s.get(*i) {
            say_number(b" ", u64::from(*byte));
        }
    }
}

// Of the log: its start, the first record's kind and first field, and what follows it if it is a clear. Then where an
// update of one slot stands first: its diff, its node, its elided children, its bucket, and what follows it. Then where
// it stands second, without its diff: after a clear, and after another such update.
fn say_memory(tags: &[u8], marks: &[u8], cells: &[u64; 2], log: &[u8]) {
    say_bytes(b"; tags", tags, &[0, 1, 2, 3]);
    say_bytes(b"; marks", marks, &[0, 1]);
    say_number(b"; cells ", cells[0]);
    say_number(b" ", cells[1]);
    say_bytes(b"; log", log, &[0, 1, 5, 6, 14]);
    say_bytes(b",", log, &[38, 54, 86, 94, 102]);
    say_bytes(b",", log, &[63, 95, 103, 111]);
    say_bytes(b",", log, &[151, 183, 191, 199]);
    say(b"\n");
}

// A change of slot 0, by a diff with this high word.
fn change(hash: u64, high: u64, place: Place) -> Change {
    Change {
        id: [33; 32],
        hash,
        diff: Diff { words: [1, high] },
        place,
    }
}

fn fresh() -> Change {
    change(0, PLAIN, sync::fresh())
}

// A page, by its first byte and the first of its elided children.
fn page(first: u8, elided: u8) -> [u8; 4096] {
    let mut page = [5u8; 4096];
    page[0] = first;
    page[4056] = elided;
    page
}

// Two such pages, one after the other.
fn two_pages() -> [u8; 8192] {
    let mut pages = [0u8; 8192];
    pages[..4096].copy_from_slice(&page(50, 51));
    pages[4096..].copy_from_slice(&page(60, 61));
    pages
}

// Tags that start with these two.
fn tags(tag_0: u8, tag_1: u8) -> [u8; 4096] {
    let mut tags = [0u8; 4096];
    tags[0] = tag_0;
    tags[1] = tag_1;
    tags
}

// A sync's start, and the changes, one after the other.
fn changed(
    tags: &mut [u8],
    marks: &mut [u8],
    cells: &mut [u64],
    log: &mut [u8],
    pages: &[u8],
    changes: &[Change],
    start: SyncStart,
) -> Result<SyncState, SyncRefusal> {
    let mut st = sync::begin_sync(&tags[..], marks, log, pages, changes.len(), start)?;
    let mut m = Lent {
        tags,
        marks,
        cells,
        log,
    };
    for (j, c) in changes.iter().enumerate() {
        st = sync::change_at(&mut m, pages, *c, j, Ok(st))?;
    }
    Ok(st)
}

// Such a sync to its end, its log starting so, and what it left.
fn synced_from(
    title: &[u8],
    tags: &mut [u8],
    marks: &mut [u8],
    log: &mut [u8],
    pages: &[u8],
    cell: u64,
    changes: &[Change],
    n: usize,
    log_start: Start,
) {
    let mut cells = [cell, 7];
    let start = SyncStart { n, log_start };
    let came = changed(tags, marks, &mut cells, log, pages, changes, start);
    let mut writer = Writer::Open(77, Edition::One);
    let r = sync::end_sync(log, came, &mut writer);
    say(title);
    say_synced(r);
    say_writer(writer);
    say_memory(tags, marks, &cells, log);
}

// The same of edition one, with the number of all runs, and an unset cell.
fn synced(
    title: &[u8],
    tags: &mut [u8],
    marks: &mut [u8],
    log: &mut [u8],
    pages: &[u8],
    changes: &[Change],
    n: usize,
) {
    let start = wal::edition_one(SEQN);
    synced_from(title, tags, marks, log, pages, UNSET, changes, n, start);
}

// One change on a table with these two tags first. (Never inlined, as are those below that make pages: each has its memory
// on a frame of its own.)
#[inline(never)]
fn one(title: &[u8], tag_0: u8, tag_1: u8, cell: u64, c: Change) {
    synced_from(
        title,
        &mut tags(tag_0, tag_1),
        &mut [WAS; 1],
        &mut [WAS; 8192],
        &page(50, 51),
        cell,
        &[c],
        N,
        wal::edition_one(SEQN),
    );
}

// One fresh page, its log of edition two: the seed's bytes stand where edition one has its first record.
#[inline(never)]
fn edition_two() {
    synced_from(
        b"edition two",
        &mut [0; 4096],
        &mut [WAS; 1],
        &mut [WAS; 8192],
        &page(50, 51),
        UNSET,
        &[fresh()],
        N,
        wal::edition_two(SEQN, [40; 16]),
    );
}

// Two changes, each with its own page.
#[inline(never)]
fn two(title: &[u8], tag_0: u8, tag_1: u8, first: Change, second: Change) {
    synced(
        title,
        &mut tags(tag_0, tag_1),
        &mut [WAS; 1],
        &mut [WAS; 8192],
        &two_pages(),
        &[first, second],
        N,
    );
}

// ---- what a sync tests before its first change
fn no_changes() {
    synced(
        b"no changes",
        &mut [MINE; 4096],
        &mut [WAS; 1],
        &mut [WAS; 8192],
        b"",
        &[],
        N,
    );
}

// A fresh page on empty tags, with so many bytes of log and of page, on a table of n buckets.
#[inline(never)]
fn sized(title: &[u8], marks: &mut [u8], log_size: usize, page_size: usize, n: usize)
    requires { (log_size ≤ 8192) × (page_size ≤ 4096) }
{
    let mut log = [WAS; 8192];
    let page = [5; 4096];
    synced(
        title,
        &mut [0; 4096],
        marks,
        &mut log[..log_size],
        &page[..page_size],
        &[fresh()],
        n,
    );
}

fn lengths_refused() {
    sized(b"pages short", &mut [WAS; 1], 8192, 4095, N);
    sized(b"two marks", &mut [WAS; 2], 8192, 4096, N);
    sized(b"no buckets", &mut [WAS; 1], 8192, 4096, 0);
    sized(b"log short", &mut [WAS; 1], 4095, 4096, N);
}

// ---- one change
fn cells_refused() {
    one(b"cell 2 of 2", 0, 0, UNSET, change(0, PLAIN, sync::cell(2)));
    one(b"cell holds 4", 0, 0, 4, change(0, PLAIN, sync::cell(0)));
}

fn buckets_refused() {
    one(
        b"known most",
        MINE,
        0,
        UNSET,
        change(0, PLAIN, sync::known(UNSET)),
    );
    one(
        b"known with another tag",
        OTHER,
        0,
        UNSET,
        change(0, PLAIN, sync::known(0)),
    );
    one(
        b"clear without a bucket",
        MINE,
        0,
        UNSET,
        change(0, CLEARED, sync::fresh()),
    );
    one(
        b"clear by an unset cell",
        MINE,
        0,
        UNSET,
        change(0, CLEARED, sync::cell(0)),
    );
    one(
        b"clear with another tag",
        OTHER,
        0,
        UNSET,
        change(0, CLEARED, sync::known(0)),
    );
}

fn diffs_refused() {
    one(b"bit 126", 0, 0, UNSET, change(0, BIT_126, sync::fresh()));
    one(
        b"bits 126 and 127",
        MINE,
        0,
        UNSET,
        change(0, BIT_126 + CLEARED, sync::known(0)),
    );
}

// ---- two changes
fn one_cell() {
    let c = change(0, PLAIN, sync::cell(0));
    two(b"one unset cell twice", OTHER, 0, c, c);
}

fn taken_again() {
    let c = change(OTHERS, CLEARED, sync::known(0));
    two(b"cleared and taken again", OTHER, 0, c, fresh());
}

fn second_refused() {
    let c = change(0, PLAIN, sync::known(1));
    two(b"second refused", 0, OTHER, fresh(), c);
}

// ---- one step alone
fn stepped(title: &[u8], writer: Writer, c: Change) {
    let mut tags = tags(0, MINE);
    let mut marks = [WAS; 1];
    let mut cells = [UNSET, 7];
    let mut log = [WAS; 8192];
    let mut st = SyncState {
        n: N,
        limit: probe::hit_limit(),
        writer,
        occupied: 0,
    };
    let mut m = Lent {
        tags: &mut tags,
        marks: &mut marks,
        cells: &mut cells,
        log: &mut log,
    };
    let r = sync::step(&mut m, &[5; 4096], c, &mut st);
    say(title);
    say_taken(r);
    say_number(b" occupied ", st.occupied);
    say_writer(st.writer);
    say_memory(&tags, &marks, &cells, &log);
}

fn steps() {
    stepped(b"step, fresh writer", Writer::Fresh, fresh());
    stepped(
        b"step, occupied 0",
        Writer::Open(5, Edition::One),
        change(0, CLEARED, sync::known(1)),
    );
}

// The clear's record would end where the log does and leave no byte for the end: 13. Its tag is looked at before that.
fn no_room() {
    let full = Writer::Open(8183, Edition::One);
    stepped(b"step, no room", full, change(0, CLEARED, sync::known(1)));
    stepped(
        b"step, no room, another tag",
        full,
        change(OTHERS, CLEARED, sync::known(1)),
    );
}

fn main() {
    no_changes();
    one(b"one fresh", 0, 0, UNSET, fresh());
    edition_two();
    lengths_refused();
    cells_refused();
    buckets_refused();
    diffs_refused();
    one_cell();
    taken_again();
    second_refused();
    steps();
    no_room();
}
