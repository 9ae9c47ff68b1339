// Which slots of a page have changed, and their nodes packed and put back: the original's
// page_diff.rs. A diff goes by value throughout; pages are lent.
#![tactic(auto)]

ghost use Rattle.std.specs.Prelude.{◌≡◌, false, map, ◌+◌, ◌*◌, ◌<◌, ◌≤◌, length, IfOk, MatchOption};
ghost use Rattle.blocks.specs.Blocks.{put, flat, tabulate};
ghost use Rattle.std.specs.Iterator.{YieldsFirst, item_count};
ghost use Rattle.answers.specs.Answers.{answer_of, done_of};
ghost use Rattle.page_diff.specs.Diff.{slots, marked, count_of, reserved, set_answer, set_words, ask_answer, cleared_words, joined, first_slot, without_first, bytes_of_words, read_answer, read_words};
ghost use Rattle.page_diff.specs.Pack.{node_at, table_of, packed_by, pack_answer, packed_of, nodes_put, pack_into_answer, packed_into, unpacked_byte, Unpacks};

use answers::Refusal;

// A page is 126 nodes of 32 bytes, 24 bytes that nobody has, the elided children and the page id.
pub const PAGE_SIZE: usize = 4096;

pub const NODES_PER_PAGE: usize = 126;

// The bytes of its nodes.
const NODES_SIZE: usize = 4032;

// Where it has its elided children.
pub const ELIDED_AT: usize = 4056;

const CLEAR_BIT: u64 = 0x8000_0000_0000_0000;

const RESERVED: u64 = 0x4000_0000_0000_0000;

// Bit i of words[w] marks slot 64w + i. Slots 0 to 125 are a page's nodes, 126 is never used, and 127
// says that the page was cleared.
#[repr(C)]
#[derive(Clone, Copy)]
pub struct Diff {
    pub words: [u64; 2],
}

// The nodes of the marked slots in the slots' order, with their count; zeros from the count on. It crosses to C so.
#[repr(C)]
#[derive(Clone, Copy)]
pub struct Packed {
    pub nodes: [[u8; 32]; 126],
    pub count: usize,
}

// A diff out of its sixteen bytes; one with bit 126 or 127 is refused.
pub fn from_bytes(bytes: [u8; 16]) -> Result<Diff, Refusal>
    ensures answer { done_of result ≡ read_answer bytes }
    ensures value { IfOk result (λ d. d.words ≡ read_words bytes) }
{
    let lo = blocks::read_u64(&bytes, 0);
    let hi = blocks::read_u64(&bytes, 8);
    if hi < RESERVED {
        let words = [lo, hi];
        return Ok(Diff { words });
    }
    Err(Refusal::DiffReserved)
}

// The sixteen bytes of a diff, whatever its marks.
pub fn as_bytes(d: Diff) -> [u8; 16]
    ensures { result ≡ bytes_of_words d.words }
{
    let mut bytes = [0; 16];
    blocks::write_u64(&mut bytes, 0, d.words[0]);
    blocks::write_u64(&mut bytes, 8, d.words[1]);
    bytes
}

// Marks a slot of a node and drops the mark of a cleared page; a slot above 125 is refused.
pub fn set_changed(d: Diff, slot: usize) -> Result<Diff, Refusal>
    ensures answer { done_of result ≡ set_answer slot }
    ensures value { IfOk result (λ r. r.words ≡ set_words d.words slot) }
{
    if 125 < slot {
        return Err(Refusal::SlotUnfit);
    }
    let mut r = d;
    r.words[slot / 64] |= 1 << (slot % 64);
    r.words[1] &= !CLEAR_BIT;
    Ok(r)
}

// Whether a slot is marked; above 127 there is none to ask after.
pub fn changed(d: Diff, slot: usize) -> Result<bool, Refusal>
    ensures { answer_of result ≡ ask_answer d.words slot }
{
    if 127 < slot {
        return Err(Refusal::SlotUnfit);
    }
    Ok((d.words[slot / 64] >> (slot % 64)) % 2 == 1)
}

// Marks the page as cleared; the other marks stay.
pub fn set_cleared(d: Diff) -> Diff
    ensures { result.words ≡ cleared_words d.words }
{
    let words = [d.words[0], d.words[1] | CLEAR_BIT];
    Diff { words }
}

// Whether the page was cleared.
pub fn cleared(d: Diff) -> bool
    ensures { result ≡ marked d.words 127 }
{
    CLEAR_BIT <= d.words[1]
}

// Whether bit 126 or 127 is set: such a diff is neither read nor packed.
pub fn is_reserved(d: Diff) -> bool
    ensures { result ≡ reserved d.words }
{
    RESERVED <= d.words[1]
}

// How many marks there are, bits 126 and 127 included.
pub fn count(d: Diff) -> usize
    ensures { result ≡ count_of d.words }
{
    d.words[0].count_ones() as usize + d.words[1].count_ones() as usize
}

// All marks of both.
pub fn join(a: Diff, b: Diff) -> Diff
    ensures { result.words ≡ joined a.words b.words }
{
    let words = [a.words[0] | b.words[0], a.words[1] | b.words[1]];
    Diff { words }
}

// The step along the marked slots, rising: the first of them and the marks without it, while there is one.
pub fn next_slot(d: Diff) -> Option<(usize, Diff)>
    ensures { MatchOption result (first_slot d.words ≡ 128) (λ n. (n.0 < 128) × ((n.0 ≡ first_slot d.words) × (n.1.words ≡ without_first d.words))) }
{
    let [lo, hi] = d.words;
    if lo != 0 {
        let words = [lo & (lo - 1), hi];
        return Some((lo.trailing_zeros() as usize, Diff { words }));
    }
    if hi != 0 {
        let words = [0, hi & (hi - 1)];
        return Some((64 + hi.trailing_zeros() as usize, Diff { words }));
    }
    None
}

// The marked slots of a diff, rising, for a loop.
#[derive(Clone, Copy)]
pub struct Slots {
    pub left: Diff,
}

impl Iterator for Slots {
    type Item = usize;

    ghost next_gives = { YieldsFirst (λ s. slots s.left.words) };

    ghost remaining = { item_count (λ s. slots s.left.words) };

    fn next(&mut self) -> Option<usize> {
        let (slot, rest) = next_slot(self.left)?;
        self.left = rest;
        Some(slot)
    }
}

// The marked slots, rising.
pub fn marked_slots(d: Diff) -> Slots
    ensures { result.left ≡ d }
{
    Slots { left: d }
}

// A packed table out of its nodes and their count.
pub fn pack_up(nodes: [[u8; 32]; 126], count: usize) -> Packed
    ensures { result ≡ packed_by nodes count }
{
    Packed { nodes, count }
}

// The nodes of a packed table.
pub fn nodes_of(p: Packed) -> [[u8; 32]; 126]
    ensures { result ≡ p.nodes }
{
    p.nodes
}

// The nodes of a page's marked slots. Refused: a page that is not 4,096 bytes (2), bit 126 or 127 (4).
pub fn pack_changed_nodes(d: Diff, page: &[u8]) -> Result<Packed, Refusal>
    ensures answer { done_of result ≡ pack_answer d.words page.now }
    ensures value { IfOk result (λ p. p ≡ packed_of d.words page.now) }
{
    if page.len() != PAGE_SIZE {
        return Err(Refusal::LengthUnfit);
    }
    if is_reserved(d) {
        return Err(Refusal::DiffReserved);
    }
    Ok(pack_up(pack_nodes(d, page), count(d)))
}

// The table itself, for a whole page and a diff of nodes alone.
fn pack_nodes(d: Diff, page: &[u8]) -> [[u8; 32]; 126]
    requires { reserved d.words ≡ false }
    ensures { result ≡ table_of page.now (slots d.words) }
{
    let mut nodes = [[0u8; 32]; 126];
    for (c, s) in marked_slots(d).enumerate() {
        nodes[c] = blocks::block::<32>(page, 32 * s);
    }
    nodes
}

// The nodes of a page's marked slots, put one after the other.
fn put_marked_nodes(s: &mut [u8], at: usize, d: Diff, page: &[u8])
    requires { (reserved d.words ≡ false) × (at + 32 * count_of d.words ≤ length s.old) }
    ensures { s.new ≡ put s.old at (flat (map (node_at page.now) (slots d.words))) }
{
    for (c, slot) in marked_slots(d).enumerate() {
        blocks::put_block(s, at + 32 * c, blocks::block::<32>(page, 32 * slot));
    }
}

// Puts the nodes of a page's marked slots into s from `at` on, in the slots' order; every other byte stays.
// Nodes that would go past the end are not put, nor those of a diff with bit 126 or 127.
pub fn put_page_nodes(s: &mut [u8], at: usize, d: Diff, page: &[u8])
    ensures { s.new ≡ nodes_put s.old at d.words page.now }
{
    if is_reserved(d) {
        return;
    }
    let size = 32 * count(d);
    if s.len() < size {
        return;
    }
    if s.len() - size < at {
        return;
    }
    put_marked_nodes(s, at, d, page);
}

// Packs the nodes of a page's marked slots into lent memory of 126 nodes, zeros after them, and answers
// their count: what `pack_changed_nodes` answers by value, with no table between. Refused: a page that is not
// 4,096 bytes (2), bit 126 or 127 (4), memory that is not 4,032 bytes (2).
pub fn pack_into(nodes: &mut [u8], d: Diff, page: &[u8]) -> Result<u64, Refusal>
    ensures { (answer_of result ≡ pack_into_answer d.words page.now nodes.old) × (nodes.new ≡ packed_into d.words page.now nodes.old) }
{
    if page.len() != PAGE_SIZE {
        return Err(Refusal::LengthUnfit);
    }
    if is_reserved(d) {
        return Err(Refusal::DiffReserved);
    }
    if nodes.len() != NODES_SIZE {
        return Err(Refusal::LengthUnfit);
    }
    let count = count(d);
    let used = 32 * count;
    put_page_nodes(nodes, 0, d, page);
    blocks::put_zeros(nodes, used, NODES_SIZE - used);
    Ok(count as u64)
}

// Puts packed nodes, by value with their count, back at the marked slots of a page; every other byte stays.
// Refused: a page that is not 4,096 bytes (2), bit 126 or 127 (4), a count that is not the diff's (2). Entries
// past the count are not looked at. (Document 01 has the table by value, with its count beside it.)
pub fn unpack_changed_nodes(
    d: Diff,
    nodes: [[u8; 32]; 126],
    held: usize,
    page: &mut [u8],
) -> Result<(), Refusal>
    ensures { Unpacks d.words nodes held page.old result page.new }
{
    unpack_lent_nodes(d, &nodes, held, page)
}

// The same of a lent table, so that none is moved.
pub fn unpack_lent_nodes(
    d: Diff,
    nodes: &[[u8; 32]; 126],
    held: usize,
    page: &mut [u8],
) -> Result<(), Refusal>
    ensures { Unpacks d.words nodes.now held page.old result page.new }
{
    if page.len() != PAGE_SIZE {
        return Err(Refusal::LengthUnfit);
    }
    if is_reserved(d) {
        return Err(Refusal::DiffReserved);
    }
    if count(d) != held {
        return Err(Refusal::LengthUnfit);
    }
    unpack_nodes(d, nodes, page);
    Ok(())
}

// The nodes themselves, for a whole page and a diff of nodes alone.
fn unpack_nodes(d: Diff, nodes: &[[u8; 32]; 126], page: &mut [u8])
    requires { (reserved d.words ≡ false) × (length page.old ≡ 4096) }
    ensures { page.new ≡ tabulate (unpacked_byte d.words nodes.now page.old) 4096 }
{
    for (c, s) in marked_slots(d).enumerate() {
        blocks::put_block(page, 32 * s, nodes[c]);
    }
}
