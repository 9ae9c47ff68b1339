// A sync: changes to pages, each logged, with their buckets taken and given back in the tags: the
// original's `prepare_sync`. `step` is one change; `sync` begins the log, walks the list of changes and
// finishes the log. Data pages are not written: the caller does that, and replay repeats it after a stop.
#![tactic(auto)]

ghost use Rattle.std.specs.Prelude.{◌≡◌, true, [], ◌≤◌, ◌<◌, length};
ghost use Rattle.answers.specs.Answers.{given};
ghost use Rattle.ht_file.specs.Places.{tags_fit, bucket_page};
ghost use Rattle.sync.specs.Change.{Wide, mem_of, mem_at, Same, where_of, place_of, by_named, does_of, StepPromise};
ghost use Rattle.sync.specs.declared.SyncRefusal.TheVariants.{Refused};
ghost use Rattle.sync_parts.specs.Parts.{bucket};
ghost use Rattle.sync_parts.specs.declared.Where.TheVariants.{Known, Fresh as FreshPage, Cell};
ghost use Rattle.sync.specs.InnerChange.{planned_said, LookPromise};
ghost use Rattle.sync.specs.Sync.{page_of, ChangePromise, BeginPromise, WalkPromise, EndPromise, SyncPromise};

use answers::Refusal;
use meta_map::TOMBSTONE;
use page_diff::Diff;
use sync_parts::Where;
use wal::{Start, Writer};

// The kinds of a place, in numbers: they cross the boundary to C.
const KNOWN: u64 = 0;

const FRESH: u64 = 1;

const CELL: u64 = 2;

// Where a page's bucket is known from, as two numbers, for records that cross the boundary to C: 0 is a
// known bucket, 1 a new page, and any other kind a cell.
#[repr(C)]
#[derive(Clone, Copy)]
pub struct Place {
    pub kind: u64,
    pub at: u64,
}

// A change of a page: its id and hash, the slots that changed, and where its bucket is known from. A
// diff with the mark of a cleared page clears it.
#[repr(C)]
#[derive(Clone, Copy)]
pub struct Change {
    pub id: [u8; 32],
    pub hash: u64,
    pub diff: Diff,
    pub place: Place,
}

// What a sync is lent and may change: the tags, a mark for each of their pages, the cells and the log. That it is the
// same that is lent after a call (`same` of the contracts) tells a caller what its own slices hold then.
#[derive(Drop)]
pub struct Lent<'a> {
    pub tags: &'a mut [u8],
    pub marks: &'a mut [u8],
    pub cells: &'a mut [u64],
    pub log: &'a mut [u8],
}

// What a sync carries from change to change: the count of buckets, how many hits allocation may meet, where
// its log stands, and how many buckets are full.
#[derive(Clone, Copy)]
pub struct SyncState {
    pub n: usize,
    pub limit: Option<usize>,
    pub writer: Writer,
    pub occupied: u64,
}

// What a change has come to: its bucket and the number of its page in the table's file.
#[derive(Clone, Copy)]
pub struct Taken {
    pub bucket: u64,
    pub page: u64,
}

// What a sync begins with: the count of buckets; and what its log starts with (number, edition, seed).
#[derive(Clone, Copy)]
pub struct SyncStart {
    pub n: usize,
    pub log_start: Start,
}

// What a whole sync has come to: the full buckets and the length of the finished log.
#[derive(Clone, Copy)]
pub struct Synced {
    pub occupied: u64,
    pub length: u64,
}

// Why a sync was refused: not at a change, and it has not begun; or at a change, counted from 0.
#[derive(Clone, Copy, Debug, PartialEq, Eq, Drop)]
pub enum SyncRefusal {
    Refused(Refusal),
    RefusedAt(usize, Refusal),
}

impl From<Refusal> for SyncRefusal {
    ghost from_gives = { λ why r. r ≡ Refused why };

    fn from(why: Refusal) -> SyncRefusal {
        SyncRefusal::Refused(why)
    }
}

// What a change is to do.
#[derive(Clone, Copy)]
enum Planned {
    Clears(u64),
    Updates(u64),
    Allocates,
}

// Where a place says that the bucket is known from.
impl From<Place> for Where {
    ghost from_gives = { λ p w. w ≡ where_of p };

    fn from(p: Place) -> Where {
        match p.kind {
            KNOWN => Where::Known(p.at),
            FRESH => Where::Fresh,
            _ => Where::Cell(p.at as usize),
        }
    }
}

// The place of a bucket that is known.
pub fn known(b: u64) -> Place
    ensures { result ≡ place_of (Known b) }
{
    Place { kind: KNOWN, at: b }
}

// The place of a new page.
pub fn fresh() -> Place
    ensures { result ≡ place_of FreshPage }
{
    Place { kind: FRESH, at: 0 }
}

// The place of a bucket that cell i has, or will have.
pub fn cell(i: usize) -> Place
    ensures { result ≡ place_of (Cell i) }
{
    Place {
        kind: CELL,
        at: i as u64,
    }
}

// What a named bucket is to take: 9 and 14 are decided here.
fn plan_named(tags: &[u8], n: usize, clearing: bool, hash: u64, b: u64) -> Result<Planned, Refusal>
    requires { tags_fit n (length tags.now) ≡ true }
    ensures { planned_said result ≡ by_named clearing n tags.now hash (given (bucket b)) }
{
    if b >= n as u64 {
        return Err(Refusal::BucketOutside);
    }
    if !sync_parts::tag_fits(hash, tags[b as usize]) {
        return Err(Refusal::BucketUnfit);
    }
    if clearing {
        return Ok(Planned::Clears(b));
    }
    Ok(Planned::Updates(b))
}

// What a change is to do, on the tags and the cells as they are: 4, 2, 9 and 14 are decided here.
fn plan(tags: &[u8], n: usize, cells: &[u64], c: Change) -> Result<Planned, Refusal>
    requires { tags_fit n (length tags.now) ≡ true }
    ensures { planned_said result ≡ does_of n tags.now cells.now c }
{
    let spare = page_diff::changed(c.diff, 126)?;
    if spare {
        return Err(Refusal::DiffReserved);
    }
    let clearing = page_diff::cleared(c.diff);
    let name = sync_parts::name_of(c.place.into(), cells)?;
    match name {
        Some(b) => plan_named(tags, n, clearing, c.hash, b),
        None if clearing => Err(Refusal::BucketUnfit),
        None => Ok(Planned::Allocates),
    }
}

// What a change will have done, if it is accepted: nothing is written yet.
#[derive(Clone, Copy)]
enum Outlook {
    Clears(u64),
    Updates(u64),
    Takes(u64),
}

// The plan, with the room for its record, and a bucket where one is to be allocated: 13, then 10 or 11.
fn look_ahead(m: &Lent, c: Change, st: SyncState) -> Result<Outlook, Refusal>
    requires { tags_fit st.n (length m.now.tags.now) ≡ true }
    ensures { LookPromise st (mem_at m.now) c result }
{
    let planned = plan(m.tags, st.n, m.cells, c)?;
    let clearing = matches!(planned, Planned::Clears(_));
    if !wal_write::has_room(
        m.log.len(),
        st.writer,
        sync_parts::body_of(clearing, c.diff),
    ) {
        return Err(Refusal::NoRoom);
    }
    match planned {
        Planned::Clears(b) => Ok(Outlook::Clears(b)),
        Planned::Updates(b) => Ok(Outlook::Updates(b)),
        Planned::Allocates => Ok(Outlook::Takes(probe::find_bucket(
            m.tags, st.n, c.hash, st.limit,
        )?)),
    }
}

// An accepted change's bucket and page number.
fn taken_at(n: usize, b: u64) -> Taken
    requires { (n ≤ 1048576) × (b < n) }
    ensures { (result.bucket ≡ b) × (result.page ≡ bucket_page n b) }
{
    Taken {
        bucket: b,
        page: ht_file::tag_pages(n) as u64 + b,
    }
}

// One change: its tag, its mark, its cell and its record in the log; the state is that after it. A refused change
// leaves all of them. The record's room was looked at, so its call is not refused.
pub fn step(m: &mut Lent, page: &[u8], c: Change, st: &mut SyncState) -> Result<Taken, Refusal>
    ensures does { StepPromise st.old (mem_at m.old) page.now c result st.new (mem_at m.new) }
    ensures same { Same m.old m.new }
{
    let n = st.n;
    ht_file::check_tags(n, m.tags.len())?;
    if page.len() != 4096 {
        return Err(Refusal::LengthUnfit);
    }
    if m.marks.len() != ht_file::tag_pages(n) {
        return Err(Refusal::LengthUnfit);
    }
    let Writer::Open(_, _) = st.writer else {
        return Err(Refusal::WriterNotOpen);
    };
    let ahead = look_ahead(m, c, *st)?;
    match ahead {
        Outlook::Clears(b) => {
            wal_write::write_clear(m.log, &mut st.writer, b)?;
            sync_parts::write_tag(m.tags, m.marks, b as usize, TOMBSTONE);
            st.occupied = st.occupied.saturating_sub(1);
            Ok(taken_at(n, b))
        }
        Outlook::Updates(b) => {
            wal_write::write_page_update(m.log, &mut st.writer, c.id, c.diff, page, b)?;
            Ok(taken_at(n, b))
        }
        Outlook::Takes(b) => {
            wal_write::write_page_update(m.log, &mut st.writer, c.id, c.diff, page, b)?;
            sync_parts::write_tag(m.tags, m.marks, b as usize, meta_map::full_entry(c.hash));
            sync_parts::set_cell(m.cells, c.place.into(), b);
            st.occupied = st.occupied.saturating_add(1);
            Ok(taken_at(n, b))
        }
    }
}

// The page of change j, among the lent pages; none where they do not reach that far.
fn page_at(pages: &[u8], j: usize) -> &[u8]
    ensures { result.now ≡ page_of pages.now j }
{
    if j < pages.len() / 4096 {
        return &pages[4096 * j..4096 * j + 4096];
    }
    &pages[..0]
}

// Change j of a sync, whose page is the j-th of the lent pages: how the sync goes after it. One that was refused stays as
// it is, and leaves all. What the types say of the change's parts is handed out.
pub fn change_at(
    m: &mut Lent,
    pages: &[u8],
    c: Change,
    j: usize,
    run: Result<SyncState, SyncRefusal>,
) -> Result<SyncState, SyncRefusal>
    ensures goes { ChangePromise (mem_at m.old) pages.now c j run result (mem_at m.new) }
    ensures same { Same m.old m.new }
    ensures wide { Wide c }
{
    let Ok(st) = run else {
        return run;
    };
    let mut state = st;
    let taken = step(m, page_at(pages, j), c, &mut state);
    match taken {
        Ok(_) => Ok(state),
        Err(why) => Err(SyncRefusal::RefusedAt(j, why)),
    }
}

// The start of a sync of so many changes: the lengths are tested, the log is begun, the marks are zeroed and
// the full tags counted. A refusal leaves all.
pub fn begin_sync(
    tags: &[u8],
    marks: &mut [u8],
    log: &mut [u8],
    pages: &[u8],
    count: usize,
    start: SyncStart,
) -> Result<SyncState, Refusal>
    ensures { BeginPromise start (mem_of tags.now marks.old [] log.old) pages.now count result (mem_of tags.now marks.new [] log.new) }
{
    let n = start.n;
    ht_file::check_tags(n, tags.len())?;
    if pages.len() / 4096 != count {
        return Err(Refusal::LengthUnfit);
    }
    if pages.len() % 4096 != 0 {
        return Err(Refusal::LengthUnfit);
    }
    if marks.len() != ht_file::tag_pages(n) {
        return Err(Refusal::LengthUnfit);
    }
    let mut writer = Writer::Fresh;
    wal_write::begin(log, &mut writer, start.log_start)?;
    blocks::zero_all(marks);
    Ok(SyncState {
        n,
        limit: probe::hit_limit(),
        writer,
        occupied: sync_parts::full_tags(tags, n),
    })
}

// begin_sync, for tags that a `&mut Lent` has: they are lent on by `&` here, as after a `&` of its field a proof has lost
// what that field holds.
fn begin_lent(
    tags: &mut [u8],
    marks: &mut [u8],
    log: &mut [u8],
    pages: &[u8],
    count: usize,
    start: SyncStart,
) -> Result<SyncState, Refusal>
    ensures { BeginPromise start (mem_of tags.old marks.old [] log.old) pages.now count result (mem_of tags.new marks.new [] log.new) }
{
    begin_sync(&tags[..], marks, log, pages, count, start)
}

// The start of a sync and its changes, one after another, as far as none is refused.
fn all_changes(
    m: &mut Lent,
    pages: &[u8],
    changes: &[Change],
    start: SyncStart,
) -> Result<SyncState, SyncRefusal>
    ensures walks { WalkPromise start (mem_at m.old) pages.now changes.now result (mem_at m.new) }
    ensures same { Same m.old m.new }
{
    let mut st = begin_lent(m.tags, m.marks, m.log, pages, changes.len(), start)?;
    for (j, c) in changes.iter().enumerate() {
        st = change_at(m, pages, *c, j, Ok(st))?;
    }
    Ok(st)
}

// What comes after the last change, or after the one that was refused: the log is finished, or given up, and its
// writer fresh. The log and the writer of a sync that has not begun stay.
pub fn end_sync(
    log: &mut [u8],
    run: Result<SyncState, SyncRefusal>,
    w: &mut Writer,
) -> Result<Synced, SyncRefusal>
    ensures { EndPromise run log.old w.old result w.new log.new }
{
    match run {
        Ok(st) => {
            *w = st.writer;
            let length = wal_write::finish(log, w)?;
            Ok(Synced {
                occupied: st.occupied,
                length,
            })
        }
        Err(SyncRefusal::Refused(why)) => Err(SyncRefusal::Refused(why)),
        Err(SyncRefusal::RefusedAt(j, why)) => {
            *w = Writer::Fresh;
            Err(SyncRefusal::RefusedAt(j, why))
        }
    }
}

// A sync: the changes one after another, logged, between the start of the log and its end. The lent writer is left
// as the log's; a sync that has not begun leaves it as it was.
pub fn sync(
    m: &mut Lent,
    pages: &[u8],
    changes: &[Change],
    start: SyncStart,
    w: &mut Writer,
) -> Result<Synced, SyncRefusal>
    ensures syncs { SyncPromise start (mem_at m.old) pages.now changes.now w.old result w.new (mem_at m.new) }
    ensures same { Same m.old m.new }
{
    let run = all_changes(m, pages, changes, start);
    end_sync(m.log, run, w)
}
