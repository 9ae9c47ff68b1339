// The cases on logs and what they carry, 35, 36, 40 to 48, 58 and 59 of docs/VECTORS.md: nodes packed and put
// back; a log read, read off and written; replay, and its stops. What is answered is held to the list; what is
// lent keeps its length.
// An operation and a kind are numbers of the list's text: the arm beside the number is all that it means.
#![tactic(auto)]

ghost use Rattle.std.specs.Prelude.{◌≡◌, length};

use answers::Refusal;
use page_diff::Diff;
use recover::{Expected, Recovered, Stepped};
use vector_memory::{
    Count, In, Words, counted, element, lent, low_four, no_count, number, of_number, of_outcome,
    one, part, said, said6, weighed,
};
use wal::{AfterEnd, Edition, Writer};
use wal_read::What;

fn diff(lo: u64, hi: u64) -> Diff {
    Diff { words: [lo, hi] }
}

// ---- 35 and 36: the nodes of a page

fn word_of(bytes: &[u8], index: u64) -> u64 {
    if index > 1000 {
        return 0;
    }
    blocks::read_u64(bytes, 8 * (index as usize))
}

fn word_of_nodes(nodes: &[[u8; 32]; 126], index: u64) -> u64 {
    let slot = index / 4;
    if slot > 125 {
        return 0;
    }
    word_of(&nodes[slot as usize], index % 4)
}

fn packed(d: Diff, page: &[u8], index: u64) -> Words {
    match page_diff::pack_changed_nodes(d, page) {
        Ok(p) => said(0, p.count as u64, word_of_nodes(&p.nodes, index)),
        Err(why) => one(number(why)),
    }
}

// The nodes of one page by a diff, zeros where it is refused.
fn nodes_by(d: Diff, page: &[u8]) -> [[u8; 32]; 126] {
    match page_diff::pack_changed_nodes(d, page) {
        Ok(p) => p.nodes,
        Err(_) => [[0; 32]; 126],
    }
}

// The nodes of one page by a diff, put into another by it.
fn carried(d: Diff, held: usize, from: &[u8], to: &mut [u8]) -> Words {
    one(of_outcome(page_diff::unpack_changed_nodes(d, nodes_by(d, from), held, to)))
}

// What is wanted after end: zeros for 1, else nothing, as the original does.
fn rule(x: u64) -> AfterEnd {
    if x == 1 {
        AfterEnd::Zeros
    } else {
        AfterEnd::Tolerant
    }
}

// ---- 40 to 43: a log is read

fn reader_next(log: &[u8], at: usize, after: AfterEnd) -> Words {
    let e = wal_read::entry_at(log, at, wal_read::edition_of(log), after);
    let [lo, hi] = e.diff.words;
    let next = e.next as u64;
    match e.what {
        Ok(What::End) => said6(0, 0, 0, next, 0, 0),
        Ok(What::Clear(bucket)) => said6(0, 1, bucket, next, 0, 0),
        Ok(What::Update(bucket)) => said6(0, 2, bucket, next, lo, hi),
        Err(why) => said6(number(why), 0, 0, next, 0, 0),
    }
}

// A word of an update's id (part 0), nodes (1) or elided children (2).
fn update_part(log: &[u8], at: usize, which: u64, index: u64) -> Words {
    let e = wal_read::entry_at(log, at, wal_read::edition_of(log), AfterEnd::Tolerant);
    one(match which {
        0 => word_of(&e.id, index),
        1 => word_of_nodes(&e.packed.nodes, index),
        _ => word_of(&e.elided, index),
    })
}

// The lines of a log, written out.
fn listed(log: &[u8]) -> Words {
    let mut lines = [0u8; wal_list::LINES_SIZE];
    let r = wal_list::lines_into(log, &mut lines);
    io::write_all(1, b"--\n");
    if let Ok(len) = r {
        io::write_all(1, &lines[..len as usize]);
    }
    of_number(r)
}

fn on_log(w: In, log: &[u8]) -> Words {
    let at = w.b as usize;
    match w.op {
        40 => of_number(wal_read::set(log)),
        41 => reader_next(log, at, rule(w.c)),
        42 => update_part(log, at, w.c, w.d),
        _ => listed(log),
    }
}

// ---- 44 to 48: a log is written

fn writer(kind: u64, at: u64) -> Writer {
    match kind {
        0 => Writer::Fresh,
        1 => Writer::Open(at as usize, Edition::One),
        _ => Writer::Finished(at as usize),
    }
}

// An answer, and where the writer stands after it: 0 fresh, 1 open, 2 finished.
fn with_writer(r: Result<(), Refusal>, w: Writer) -> Words {
    let r = of_outcome(r);
    match w {
        Writer::Fresh => said(r, 0, 0),
        Writer::Open(at, _) => said(r, 1, at as u64),
        Writer::Finished(at) => said(r, 2, at as u64),
    }
}

// An update from a page, which ends in its id.
fn page_update(w: In, log: &mut [u8], page: &[u8], state: &mut Writer) -> Result<(), Refusal> {
    let id = blocks::block::<32>(page, 4064);
    wal_write::write_page_update(log, state, id, diff(w.e, w.f), page, w.d)
}

// The same from the page's nodes by value, with an entry past their count.
fn packed_update(w: In, log: &mut [u8], page: &[u8], state: &mut Writer) -> Result<(), Refusal> {
    let d = diff(w.e, w.f);
    let id = blocks::block::<32>(page, 4064);
    let mut nodes = nodes_by(d, page);
    nodes[125] = id;
    let elided = blocks::block::<8>(page, 4056);
    wal_write::write_update(log, state, id, d, nodes, w.g as usize, elided, w.d)
}

fn on_writer(w: In, log: &mut [u8], page: &[u8]) -> Words {
    let mut state = writer(w.a, w.b);
    let r = match w.op {
        44 => wal_write::begin(log, &mut state, wal::edition_one(low_four(w.d))),
        45 => wal_write::write_clear(log, &mut state, w.d),
        46 => page_update(w, log, page, &mut state),
        47 => packed_update(w, log, page, &mut state),
        _ => wal_write::finish(log, &mut state).and(Ok(())),
    };
    with_writer(r, state)
}

// ---- 58 and 59: replay, and its stops

// A log of edition one names no store; those of edition two in the list are of the store whose seed is zeros.
fn wanted(sync: u32) -> Expected {
    Expected {
        sync,
        seed: [0; 16],
    }
}

fn of_recovered(r: Result<Recovered, Refusal>) -> Words {
    match r {
        Ok(Recovered::Nothing) => one(0),
        Ok(Recovered::Stale) => one(1),
        Ok(Recovered::Applied) => one(2),
        Err(why) => said(3, number(why), 0),
    }
}

// The table of the stops has three buckets, and their log this sync number.
const N: usize = 3;

const SIZE: usize = 16384;

const SYNC: u32 = 7;

const MOST_ENTRIES: usize = 16;

// The table's image, zeros where it is shorter.
fn image_of(table: &[u8]) -> [u8; SIZE] {
    let mut image = [0u8; SIZE];
    let n = SIZE.min(table.len());
    image[..n].copy_from_slice(&table[..n]);
    image
}

// Replays on the image, and compares it with the one expected.
fn ends_in(image: &mut [u8; SIZE], log: &[u8], hashes: &[u64], expected: &[u8; SIZE]) -> bool {
    let answer = recover::recover(image, N, log, wanted(SYNC), hashes, AfterEnd::Zeros);
    matches!(answer, Ok(Recovered::Applied)) && *image == *expected
}

// One stop: the bytes after an entry below a position, and those before it from there on. It is replayed from
// the start, and once more.
fn stop_at(
    before: &[u8; SIZE],
    after: &[u8; SIZE],
    position: usize,
    log: &[u8],
    hashes: &[u64],
    expected: &[u8; SIZE],
) -> bool {
    let mut image = *before;
    let n = position.min(SIZE);
    image[..n].copy_from_slice(&after[..n]);
    ends_in(&mut image, log, hashes, expected) && ends_in(&mut image, log, hashes, expected)
}

// All stops of one entry: before its first byte, and after each byte that it changes.
fn stops(
    t: Count,
    before: &[u8; SIZE],
    after: &[u8; SIZE],
    log: &[u8],
    hashes: &[u64],
    expected: &[u8; SIZE],
) -> Count {
    let mut t = counted(t, stop_at(before, after, 0, log, hashes, expected));
    for i in 0..SIZE {
        if before[i] != after[i] {
            t = counted(t, stop_at(before, after, i + 1, log, hashes, expected));
        }
    }
    t
}

// Where the replay stands: the next entry, and how many hashes are used.
#[derive(Clone, Copy)]
struct Standing {
    at: usize,
    used: usize,
}

// Applies one entry to the image; none where the log has ended.
fn entry(image: &mut [u8], log: &[u8], p: Standing, hashes: &[u64]) -> Option<Standing> {
    let hash = element(hashes, p.used, 0);
    match recover::apply_entry(
        image,
        N,
        log,
        wal_read::edition_of(log),
        p.at,
        hash,
        AfterEnd::Zeros,
    ) {
        Ok(Stepped::Cleared(at)) => Some(Standing { at, used: p.used }),
        Ok(Stepped::Updated(at)) => Some(Standing {
            at,
            used: p.used.wrapping_add(1),
        }),
        _ => None,
    }
}

// The stops of every entry of a log.
fn walk(table: &[u8], log: &[u8], hashes: &[u64], expected: &[u8; SIZE]) -> Count {
    let mut before = image_of(table);
    let mut after = before;
    let mut t = no_count();
    let mut p = Standing {
        at: wal_read::first_at(log),
        used: 0,
    };
    for _ in 0..MOST_ENTRIES {
        let Some(next) = entry(&mut after, log, p, hashes) else {
            break;
        };
        t = stops(t, &before, &after, log, hashes, expected);
        before = after;
        p = next;
    }
    t
}

// The replay without a stop, its image as one number, and how many stops there are and do not end in it.
fn stopped(table: &[u8], log: &[u8], hashes: &[u64]) -> Words {
    let mut expected = image_of(table);
    let r = of_recovered(recover::recover(
        &mut expected,
        N,
        log,
        wanted(SYNC),
        hashes,
        AfterEnd::Zeros,
    ));
    let t = walk(table, log, hashes, &expected);
    said6(r.a, weighed(&expected), t.answers, t.differ, 0, 0)
}

fn on_nodes(w: In, page: &mut [u8], b: &[u8]) -> Words {
    let d = diff(w.b, w.c);
    if w.op == 35 {
        return packed(d, page, w.d);
    }
    carried(d, w.d as usize, part(b, 4096), page)
}

fn replayed(w: In, image: &mut [u8], log: &[u8], hashes: &[u64]) -> Words {
    if w.op == 58 {
        let want = wanted(low_four(w.d));
        return of_recovered(recover::recover(image, w.a as usize, log, want, hashes, rule(w.f)));
    }
    stopped(image, log, hashes)
}

// Makes the call of a case.
pub fn on_logs(w: In, a: &mut [u8], b: &mut [u8], c: &[u64]) -> Words
    ensures { (length a.new ≡ length a.old) × (length b.new ≡ length b.old) }
{
    match w.op {
        35 | 36 => on_nodes(w, lent(a, w.a as usize), b),
        40..=43 => on_log(w, part(b, w.a as usize)),
        44..=48 => on_writer(w, lent(b, w.c as usize), part(a, 4096)),
        _ => replayed(
            w,
            lent(a, w.b as usize),
            part(b, w.c as usize),
            part(c, w.e as usize),
        ),
    }
}
