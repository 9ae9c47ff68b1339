// The parts of a sync, each of which decides or writes one thing: the bucket that a change names, the tag
// rule, the length of its record, a tag and its page's mark, a cell, the number of full buckets. They
// take any numbers and any lent memory; `sync` puts them together.
#![tactic(auto)]

ghost use Rattle.std.specs.Prelude.{◌≡◌, ◌/◌, set};
ghost use Rattle.sync_parts.specs.Parts.{named_by, name_said, tag_fits, body_of, cells_at, full_tags};

use answers::Refusal;
use page_diff::Diff;

// A cell that has no bucket yet: a number, since cells are lent across the boundary to C.
pub const UNSET: u64 = u64::MAX;

// Where a page's bucket is known from: it is known; the page is new; or a cell has it, or will have it.
#[derive(Clone, Copy)]
pub enum Where {
    Known(u64),
    Fresh,
    Cell(usize),
}

// The bucket that a change names, if it names one: the one that is known, or that the cell has.
pub fn name_of(place: Where, cells: &[u64]) -> Result<Option<u64>, Refusal>
    ensures { name_said result ≡ named_by place cells.now }
{
    match place {
        Where::Known(b) => Ok(Some(b)),
        Where::Fresh => Ok(None),
        Where::Cell(i) => {
            let b = *cells.get(i).ok_or(Refusal::LengthUnfit)?;
            if b == UNSET {
                return Ok(None);
            }
            Ok(Some(b))
        }
    }
}

// The tag rule: a named bucket has the tag of the page's own hash, whether it is updated or cleared.
pub fn tag_fits(hash: u64, tag: u8) -> bool
    ensures { result ≡ tag_fits hash tag }
{
    tag == meta_map::full_entry(hash)
}

// How long the record of a change is after its mark.
#[tactic(auto, using(page_diff::proofs::SlotLaws::slots_few))]
pub fn body_of(clearing: bool, d: Diff) -> usize
    ensures { result ≡ body_of clearing d.words }
{
    if clearing {
        return wal::CLEAR_BODY;
    }
    wal::UPDATE_BODY + 32 * page_diff::count(d)
}

// One byte, where it is there. (By `get_mut` the proof that another place leaves all does not close.)
#[tactic(auto, using(crate::proofs::PartLaws::set_past))]
fn set_byte(s: &mut [u8], i: usize, x: u8)
    ensures { s.new ≡ set s.old i x }
{
    if i < s.len() {
        s[i] = x;
    }
}

// A tag and the mark of its page, each where it is there.
pub fn write_tag(tags: &mut [u8], marks: &mut [u8], b: usize, tag: u8)
    ensures { (tags.new ≡ set tags.old b tag) × (marks.new ≡ set marks.old (b / 4096) 1) }
{
    set_byte(tags, b, tag);
    let m = meta_map::page_index(b as u64) as usize;
    set_byte(marks, m, 1);
}

// The cell that was to have the bucket has it. (As `set_byte`, by its place.)
#[tactic(auto, using(crate::proofs::PartLaws::set_past))]
pub fn set_cell(cells: &mut [u64], place: Where, b: u64)
    ensures { cells.new ≡ cells_at place b cells.old }
{
    if let Where::Cell(i) = place {
        if i < cells.len() {
            cells[i] = b;
        }
    }
}

// The full tags among the first n; none are counted where the tags are not those of n buckets.
#[tactic(auto, using(crate::proofs::PartLaws::counted))]
pub fn full_tags(tags: &[u8], n: usize) -> u64
    ensures { result ≡ full_tags n tags.now }
{
    meta_map::full_count(tags, n).unwrap_or(0)
}
