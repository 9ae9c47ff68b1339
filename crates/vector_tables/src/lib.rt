// The cases on tables, 23 to 34, 37, 56 and 57 of docs/VECTORS.md: every small table swept; tags, blocks and
// markers; growth and audit. What is answered is held to the list; what is lent keeps its length.
// An operation and a kind are numbers of the list's text: the arm beside the number is all that it means.
#![tactic(auto)]

ghost use Rattle.std.specs.Prelude.{◌≡◌, ◌<◌, ◌≤◌, length};

use answers::Refusal;
use probe::{Found, Probed};
use rehash::{Grown, Marker};
use validate::Audit;
use vector_memory::{
    In, Words, lent, low_byte, number, of_number, of_outcome, of_truth, one, part, put, said, said6,
};

// ---- 24 to 31: a table's tags

fn of_probed(r: Result<Probed, Refusal>) -> Words {
    match r {
        Ok(Probed::Empty { bucket, visit }) => said(0, bucket, visit),
        Ok(Probed::Tombstone { bucket, visit }) => said(1, bucket, visit),
        Ok(Probed::PossibleHit { bucket, visit }) => said(2, bucket, visit),
        Ok(Probed::Closed) => one(3),
        Err(why) => said(4, number(why), 0),
    }
}

fn of_allocated(r: Result<u64, Refusal>, after: u64) -> Words {
    match r {
        Ok(bucket) => said(0, bucket, after),
        Err(why) => said(number(why), 0, after),
    }
}

fn allocated(t: &mut [u8], n: usize, hash: u64) -> Words {
    let r = probe::allocate_bucket(t, n, hash, probe::hit_limit());
    of_allocated(r, blocks::read_u64(t, 0))
}

fn of_found(r: Result<Found, Refusal>) -> Words {
    match r {
        Ok(Found::At(bucket)) => said(0, bucket, 0),
        Ok(Found::Absent) => one(1),
        Ok(Found::Closed) => one(2),
        Err(why) => said(3, number(why), 0),
    }
}

fn on_tags(w: In, t: &mut [u8]) -> Words {
    let n = w.a as usize;
    match w.op {
        24 => one(of_outcome(meta_map::set_full(t, n, w.c, w.d))),
        25 => one(of_outcome(meta_map::set_tombstone(t, n, w.c))),
        26 => of_number(meta_map::full_count(t, n)),
        27 => of_truth(meta_map::padding_is_empty(t, n)),
        28 => of_probed(probe::probe_from(t, n, w.c, w.d)),
        29 => allocated(t, n, w.c),
        30 => of_allocated(probe::find_bucket(t, n, w.c, probe::hit_limit()), 0),
        _ => of_found(probe::lookup(t, n, w.c, [low_byte(w.d); 32])),
    }
}

// ---- 23: every table of up to four buckets over five tags

const HASHES: [u64; 6] = [
    0,
    1,
    5,
    144115188075855872,
    144115188075855875,
    0xFFFF_FFFF_FFFF_FFFF,
];

const TAGS: [u8; 5] = [0x00, 0x7F, 0x01, 0x80, 0x81];

// The first tags become those of a table, by its digits in base five.
fn set_table(tags: &mut [u8], table: usize) {
    let mut digits = table;
    for i in 0..4 {
        put(tags, i, TAGS[digits % 5]);
        digits /= 5;
    }
}

// What each table and hash is asked.
#[derive(Clone, Copy)]
enum Asked {
    Allocation,
    Probing,
    Lookup,
}

impl Asked {
    fn of(kind: u64) -> Asked {
        match kind {
            0 => Asked::Allocation,
            1 => Asked::Probing,
            _ => Asked::Lookup,
        }
    }

    // How many cases a table and a hash have: one allocation, probing on from eleven visits, lookup with sixteen
    // patterns of pages.
    fn ways(self) -> usize
        ensures { (0 < result) × (result ≤ 16) }
    {
        match self {
            Asked::Allocation => 1,
            Asked::Probing => 11,
            Asked::Lookup => 16,
        }
    }
}

fn tables(n: usize) -> usize
    ensures { result ≤ 625 }
{
    match n {
        1 => 5,
        2 => 25,
        3 => 125,
        _ => 625,
    }
}

// The tags of n buckets as one number, all four where n is 0.
fn tags_weighed(t: &[u8], n: usize) -> u64 {
    part(t, if n == 0 { 4 } else { n })
        .iter()
        .fold(0, |sum, tag| sum % 65521 * 256 % 65521 + u64::from(*tag))
}

fn allocated_code(t: &mut [u8], n: usize, hash: u64) -> u64 {
    let r = probe::allocate_bucket(t, n, hash, probe::hit_limit());
    let weight = tags_weighed(t, n) % 100000 * 1024;
    match r {
        Ok(bucket) => bucket % 1024 + weight,
        Err(why) => 900 + number(why) % 100 + weight,
    }
}

fn probed_code(r: Result<Probed, Refusal>) -> u64 {
    match r {
        Ok(Probed::Empty { bucket, visit }) => 1000 + 100 * (bucket % 10) + visit % 100,
        Ok(Probed::Tombstone { bucket, visit }) => 2000 + 100 * (bucket % 10) + visit % 100,
        Ok(Probed::PossibleHit { bucket, visit }) => 3000 + 100 * (bucket % 10) + visit % 100,
        _ => 801,
    }
}

fn found_code(r: Result<Found, Refusal>) -> u64 {
    match r {
        Ok(Found::At(bucket)) => bucket,
        Ok(Found::Absent) => 800,
        _ => 801,
    }
}

// The visit to set out from: 0 to 9, or the largest number that can be lent.
fn visit_at(i: usize) -> u64 {
    if i < 10 { i as u64 } else { u64::MAX }
}

// A page ends in 32 bytes 0xAB where the pattern has its bit; else one of these is 0xAA.
fn set_page(image: &mut [u8], page: usize, pattern: usize)
    requires { (page ≤ 3) × (pattern ≤ 16) }
{
    let end = 8160 + 4096 * page;
    blocks::put_block(image, end, [0xAB; 32]);
    if (pattern >> page) % 2 == 0 {
        put(image, end + (7 * page + pattern) % 32, 0xAA);
    }
}

fn looked_up(image: &mut [u8], n: usize, hash: u64, pattern: usize) -> u64
    requires { (n ≤ 4) × (pattern ≤ 16) }
{
    for page in 0..4 {
        set_page(image, page, pattern);
    }
    found_code(probe::lookup(part(image, 4096 * (1 + n)), n, hash, [0xAB; 32]))
}

fn tried(what: Asked, image: &mut [u8], n: usize, hash: u64, way: usize) -> u64
    requires { (n ≤ 4) × (way ≤ 16) }
{
    match what {
        Asked::Allocation => allocated_code(lent(image, 4096), n, hash),
        Asked::Probing => probed_code(probe::probe_from(part(image, 4096), n, hash, visit_at(way))),
        Asked::Lookup => looked_up(image, n, hash, way),
    }
}

fn swept_case(what: Asked, n: usize, i: usize) -> u64
    requires { n ≤ 4 }
{
    let each = what.ways();
    let mut image = [0u8; 20480];
    set_table(&mut image, i / each / HASHES.len());
    tried(
        what,
        &mut image,
        n,
        HASHES[i / each % HASHES.len()],
        i % each % 16,
    )
}

// How many cases there are of n buckets, and a sum over the answers in their order.
fn swept(what: Asked, n: usize) -> Words
    requires { n ≤ 4 }
{
    let count = tables(n) * HASHES.len() * what.ways();
    let mut sum: u64 = 0;
    for i in 0..count {
        sum = (sum * 31 + swept_case(what, n, i) % 16777216) % 1000003;
    }
    said(count as u64, sum, 0)
}

fn sweep(w: In) -> Words {
    let n = w.b as usize;
    if n <= 4 {
        swept(Asked::of(w.a), n)
    } else {
        one(0)
    }
}

// ---- 33, 34 and 37: blocks and markers

fn block_read(s: &[u8], at: usize) -> Words {
    said(
        u64::from(blocks::read_u32(s, at)),
        blocks::read_u64(s, at),
        0,
    )
}

fn block_write(s: &mut [u8], at: usize, width: u64) {
    match width {
        4 => blocks::write_u32(s, at, 0),
        8 => blocks::write_u64(s, at, 0),
        16 => blocks::put_block(s, at, [0; 16]),
        _ => blocks::put_block(s, at, [0; 32]),
    }
}

fn of_marker(r: Result<Marker, Refusal>) -> Words {
    match r {
        Ok(m) => said(0, u64::from(m.old), u64::from(m.new)),
        Err(why) => one(number(why)),
    }
}

fn written_block(w: In, s: &mut [u8]) -> Words {
    block_write(s, w.b as usize, w.c);
    one(vector_memory::others(s, 1))
}

fn on_blocks(w: In, s: &mut [u8]) -> Words {
    match w.op {
        33 => block_read(s, w.b as usize),
        34 => written_block(w, s),
        _ => of_marker(rehash::read_marker(s)),
    }
}

// ---- 56 and 57: growth and audit

fn of_grown(r: Result<Grown, Refusal>) -> Words {
    match r {
        Ok(Grown::Done) => said(0, 0, 0),
        Ok(Grown::NothingToDo) => said(0, 1, 0),
        Err(why) => one(number(why)),
    }
}

fn grown(w: In, old: &[u8], new: &mut [u8], c: &[u64]) -> Words {
    let hashes = part(c, w.e as usize);
    of_grown(rehash::grow(old, w.a as usize, new, w.c as usize, hashes))
}

// The bits of a rate, which are those of one f64.
fn bits_of(rate: f64) -> u64 {
    if rate < 2.0 { rate.to_bits() } else { 0 }
}

fn of_audit(r: Result<Audit, Refusal>) -> Words {
    match r {
        Ok(a) => said6(0, a.capacity, a.occupied, bits_of(a.rate), 0, 0),
        Err(why) => one(number(why)),
    }
}

fn audited(w: In, image: &[u8], c: &[u64]) -> Words {
    let hashes = part(c, w.c as usize);
    of_audit(validate::validate_hashtable(image, w.a as usize, hashes))
}

fn on_images(w: In, a: &mut [u8], b: &mut [u8], c: &[u64]) -> Words {
    let t = lent(a, w.b as usize);
    if w.op == 56 {
        return grown(w, t, lent(b, w.d as usize), c);
    }
    audited(w, t, c)
}

// Makes the call of a case.
pub fn on_tables(w: In, a: &mut [u8], b: &mut [u8], c: &[u64]) -> Words
    ensures { (length a.new ≡ length a.old) × (length b.new ≡ length b.old) }
{
    match w.op {
        23 => sweep(w),
        24..=31 => on_tags(w, lent(a, w.b as usize)),
        56 | 57 => on_images(w, a, b, c),
        _ => on_blocks(w, lent(a, w.a as usize)),
    }
}
