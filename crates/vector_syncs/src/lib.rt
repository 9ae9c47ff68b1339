// The cases on syncs, 49 and 50 of docs/VECTORS.md: a sync of up to eight changes, and one change of it. The tags
// start memory 0; behind them stands what is told of the changes. What is answered is held to the list; what is
// lent keeps its length.
// An operation and a kind are numbers of the list's text: the arm beside the number is all that it means.
#![tactic(auto)]

ghost use Rattle.std.specs.Prelude.{◌≡◌, ◌<◌, ◌≤◌, length};

use page_diff::Diff;
use sync::{Change, Lent, Place, SyncRefusal, SyncStart, SyncState, Synced};
use vector_memory::{In, Words, lent, low_four, number, part, said6};
use wal::{Edition, Writer};

// ---- what is told of the changes

// The bytes of eight pages, of which each ends in its id, and of eight times five words.
const TOLD: usize = 33088;

// What a memory tells from a place on, zeros where it is shorter.
fn told_by(memory: &[u8], at: usize) -> [u8; TOLD] {
    let mut told = [0u8; TOLD];
    let rest = &memory[at.min(memory.len())..];
    let n = TOLD.min(rest.len());
    told[..n].copy_from_slice(&rest[..n]);
    told
}

// Change j: its id from its page; its hash, the diff's two words, the kind of its place and the place.
fn change(told: &[u8], j: usize) -> Change
    requires { j < 8 }
{
    let at = 32768 + 40 * j;
    Change {
        id: blocks::block::<32>(told, 4096 * j + 4064),
        hash: blocks::read_u64(told, at),
        diff: Diff {
            words: [
                blocks::read_u64(told, at + 8),
                blocks::read_u64(told, at + 16),
            ],
        },
        place: Place {
            kind: blocks::read_u64(told, at + 24),
            at: blocks::read_u64(told, at + 32),
        },
    }
}

// ---- 49: a sync

// What the marks hold before a call.
const MARKS_BEFORE: [u8; 8] = [170; 8];

// A sync's start, and the first `count` changes, one after another.
fn changed(
    tags: &mut [u8],
    marks: &mut [u8],
    cells: &mut [u64],
    log: &mut [u8],
    told: &[u8],
    count: usize,
    start: SyncStart,
) -> Result<SyncState, SyncRefusal>
    requires { count ≤ 8 }
{
    let pages = part(told, 4096 * count);
    let mut st = sync::begin_sync(&tags[..], marks, log, pages, count, start)?;
    let mut m = Lent {
        tags,
        marks,
        cells,
        log,
    };
    for j in 0..count {
        st = sync::change_at(&mut m, pages, change(told, j), j, Ok(st))?;
    }
    Ok(st)
}

// A writer's state, 0 fresh, 1 open, 2 finished, and where it stands.
fn standing(w: Writer) -> (u64, u64) {
    match w {
        Writer::Fresh => (0, 0),
        Writer::Open(at, _) => (1, at as u64),
        Writer::Finished(at) => (2, at as u64),
    }
}

fn of_synced(r: Result<Synced, SyncRefusal>, w: Writer, marks: u64) -> Words {
    let (kind, at) = standing(w);
    match r {
        Ok(s) => said6(0, s.occupied, s.length, marks, kind, at),
        Err(SyncRefusal::Refused(why)) => said6(1, number(why), 0, marks, kind, at),
        Err(SyncRefusal::RefusedAt(j, why)) => said6(2, number(why), j as u64, marks, kind, at),
    }
}

fn synced(w: In, tags: &mut [u8], cells: &mut [u64], log: &mut [u8], told: &[u8]) -> Words {
    let mut marks = MARKS_BEFORE;
    let start = SyncStart {
        n: w.a as usize,
        log_start: wal::edition_one(low_four(w.f)),
    };
    let pages = tags.len() / 4096;
    let count = w.e.min(8) as usize;
    let came = changed(
        tags,
        lent(&mut marks, pages),
        cells,
        log,
        told,
        count,
        start,
    );
    let mut writer = Writer::Fresh;
    let r = sync::end_sync(log, came, &mut writer);
    of_synced(r, writer, blocks::read_u64(&marks, 0))
}

// ---- 50: one change

fn writer(kind: u64, at: u64) -> Writer {
    match kind {
        0 => Writer::Fresh,
        1 => Writer::Open(at as usize, Edition::One),
        _ => Writer::Finished(at as usize),
    }
}

fn stepped(w: In, tags: &mut [u8], cells: &mut [u64], log: &mut [u8], told: &[u8]) -> Words {
    let mut marks = MARKS_BEFORE;
    let mut st = SyncState {
        n: w.a as usize,
        limit: probe::hit_limit(),
        writer: writer(w.e, w.f),
        occupied: w.g,
    };
    let pages = tags.len() / 4096;
    let mut m = Lent {
        tags,
        marks: lent(&mut marks, pages),
        cells,
        log,
    };
    let r = sync::step(&mut m, part(told, 4096), change(told, 0), &mut st);
    let (kind, at) = standing(st.writer);
    match r {
        Ok(t) => said6(0, t.bucket, t.page, kind, at, st.occupied),
        Err(why) => said6(number(why), 0, 0, kind, at, st.occupied),
    }
}

// Makes the call of a case.
pub fn on_syncs(w: In, a: &mut [u8], b: &mut [u8], c: &mut [u64]) -> Words
    ensures { (length a.new ≡ length a.old) × (length b.new ≡ length b.old) × (length c.new ≡ length c.old) }
{
    let told = told_by(a, w.b as usize);
    let tags = lent(a, w.b as usize);
    let log = lent(b, w.c as usize);
    let cells = lent(c, w.d as usize);
    if w.op == 49 {
        return synced(w, tags, cells, log, &told);
    }
    stepped(w, tags, cells, log, &told)
}
