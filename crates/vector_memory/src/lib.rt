// What a case of the list of answers is given and what it answers, as words; the memories of which its calls
// are lent parts, filled and looked at. What a call answers is held to the list (docs/VECTORS.md): promises
// are of words, of parts, and of lengths.
// An operation and a kind are numbers of the list's text: the arm beside the number is all that it means.
#![tactic(auto)]

ghost use Rattle.std.specs.Prelude.{◌≡◌, ◌%◌, ◌<◌, ◌≤◌, length, take, slice_index_or, slice_set};
ghost use Rattle.answers.specs.Answers.{answer_of};
ghost use Rattle.answers.specs.Refusals.{number_of};
ghost use Rattle.vector_memory.specs.Words.{six, refusal_word, number_words, truth_words, counts, counted_by};

use answers::Refusal;

// What a call is given: an operation and its inputs.
#[derive(Clone, Copy)]
pub struct In {
    pub op: u64,
    pub a: u64,
    pub b: u64,
    pub c: u64,
    pub d: u64,
    pub e: u64,
    pub f: u64,
    pub g: u64,
}

// An answer in words, zero where it has no more.
#[derive(Clone, Copy, PartialEq, Eq)]
pub struct Words {
    pub a: u64,
    pub b: u64,
    pub c: u64,
    pub d: u64,
    pub e: u64,
    pub f: u64,
}

// An answer of six words.
pub fn said6(a: u64, b: u64, c: u64, d: u64, e: u64, f: u64) -> Words
    ensures { result ≡ six a b c d e f }
{
    Words { a, b, c, d, e, f }
}

// An answer of three words.
pub fn said(a: u64, b: u64, c: u64) -> Words
    ensures { result ≡ six a b c 0 0 0 }
{
    said6(a, b, c, 0, 0, 0)
}

// An answer of one word.
pub fn one(a: u64) -> Words
    ensures { result ≡ six a 0 0 0 0 0 }
{
    said(a, 0, 0)
}

// A refusal's number.
pub fn number(why: Refusal) -> u64
    ensures { result ≡ number_of why }
{
    u64::from(answers::number_of(why))
}

// A refusal's number, 0 for none.
pub fn of_outcome(r: Result<(), Refusal>) -> u64
    ensures { result ≡ refusal_word (answer_of r) }
{
    match r {
        Ok(()) => 0,
        Err(why) => number(why),
    }
}

// A number, or the refusal.
pub fn of_number(r: Result<u64, Refusal>) -> Words
    ensures { result ≡ number_words (answer_of r) }
{
    match r {
        Ok(x) => said(0, x, 0),
        Err(why) => one(number(why)),
    }
}

// 1 for what holds and 0 for what does not, or the refusal.
pub fn of_truth(r: Result<bool, Refusal>) -> Words
    ensures { result ≡ truth_words (answer_of r) }
{
    match r {
        Ok(holds) => said(0, u64::from(holds), 0),
        Err(why) => one(number(why)),
    }
}

// How many answers were looked at, and how many differ.
#[derive(Clone, Copy)]
pub struct Count {
    pub answers: u64,
    pub differ: u64,
}

// None were looked at yet.
pub fn no_count() -> Count
    ensures { result ≡ counts 0 0 }
{
    Count {
        answers: 0,
        differ: 0,
    }
}

// One more was looked at.
pub fn counted(c: Count, well: bool) -> Count
    ensures { result ≡ counted_by c well }
{
    Count {
        answers: c.answers.wrapping_add(1),
        differ: if well {
            c.differ
        } else {
            c.differ.wrapping_add(1)
        },
    }
}

// ---- parts of what is lent

// The element at i, or `none` past the end.
pub fn element<T: Copy>(s: &[T], i: usize, none: T) -> T
    ensures { result ≡ slice_index_or s.now i none }
{
    s.get(i).copied().unwrap_or(none)
}

// The element at i becomes x; past the end nothing does.
pub fn put<T: Copy>(s: &mut [T], i: usize, x: T)
    ensures { s.new ≡ slice_set s.old i x }
{
    if i < s.len() {
        s[i] = x;
    }
}

// The first n of a slice, or all of a shorter one.
pub fn part<T>(s: &[T], n: usize) -> &[T]
    ensures { result.now ≡ take n s.now }
{
    &s[..n.min(s.len())]
}

// The same of a slice that is written to.
pub fn lent<T>(s: &mut [T], n: usize) -> &mut [T]
    ensures { result.now ≡ take n s.old }
{
    let n = n.min(s.len());
    &mut s[..n]
}

// The lowest byte of a number.
pub fn low_byte(x: u64) -> u8
    ensures { result ≡ x % 256 }
{
    (x % 256) as u8
}

// The lowest four bytes of a number.
pub fn low_four(x: u64) -> u32
    ensures { result ≡ x % 4294967296 }
{
    (x % 4294967296) as u32
}

// ---- 16 to 22: the memories

// `count` bytes, `stride` apart, each the one before and `step`.
fn fill(s: &mut [u8], at: usize, count: usize, stride: usize, value: u64, step: u64) {
    let mut to = at;
    let mut x = value;
    for _ in 0..count {
        put(s, to, low_byte(x));
        to = to.wrapping_add(stride);
        x = x.wrapping_add(step);
    }
}

// The same of words of eight bytes.
fn fill_words(s: &mut [u8], at: usize, count: usize, stride: usize, value: u64, step: u64) {
    let mut to = at;
    let mut x = value;
    for _ in 0..count {
        blocks::write_u64(s, to, x);
        to = to.wrapping_add(stride);
        x = x.wrapping_add(step);
    }
}

// The same of a memory of words, one after another.
fn fill_cells(s: &mut [u64], at: usize, count: usize, value: u64, step: u64) {
    let mut x = value;
    for i in 0..count {
        put(s, at.wrapping_add(i), x);
        x = x.wrapping_add(step);
    }
}

fn mixture(i: u64, seed: u64) -> u8 {
    ((7 * (i % 1000000) + i % 1000000 / 32 + seed % 1000) % 251) as u8
}

// Bytes that differ from place to place; after each `period` they begin anew with the next seed.
fn mingle(s: &mut [u8], at: usize, count: usize, seed: u64, period: usize) {
    let mut j: usize = 0;
    let mut x = seed;
    for i in 0..count {
        put(s, at.wrapping_add(i), mixture(j as u64, x));
        j = j.wrapping_add(1);
        if j == period {
            j = 0;
            x = x.wrapping_add(1);
        }
    }
}

// How many bytes are not the given one.
pub fn others(s: &[u8], than: u8) -> u64
    ensures { result ≤ length s.now }
{
    s.iter().filter(|b| **b != than).count() as u64
}

// All bytes as one number.
pub fn weighed(s: &[u8]) -> u64
    ensures { result < 1000003 }
{
    let mut sum: u64 = 0;
    for b in s {
        sum = (31 * sum + u64::from(*b)) % 1000003;
    }
    sum
}

fn byte_at(s: &[u8], i: u64) -> u64 {
    u64::from(element(s, i as usize, 0))
}

fn look(s: &[u8], w: In) -> Words {
    said6(
        byte_at(s, w.b),
        byte_at(s, w.c),
        byte_at(s, w.d),
        byte_at(s, w.e),
        byte_at(s, w.f),
        byte_at(s, w.g),
    )
}

fn seen(w: In, s: &[u8]) -> Words {
    match w.op {
        19 => look(s, w),
        20 => one(others(part(s, w.b as usize), low_byte(w.c))),
        21 => one(weighed(part(s, w.b as usize))),
        _ => one(blocks::read_u64(s, w.b as usize)),
    }
}

fn on_bytes(w: In, s: &mut [u8]) -> Words {
    let at = w.b as usize;
    let count = w.c as usize;
    match w.op {
        16 => fill(s, at, count, w.d as usize, w.e, w.f),
        17 => fill_words(s, at, count, w.d as usize, w.e, w.f),
        18 => mingle(s, at, count, w.d, w.e as usize),
        _ => return seen(w, s),
    }
    one(0)
}

fn on_cells(w: In, c: &mut [u64]) -> Words {
    if w.op < 19 {
        fill_cells(c, w.b as usize, w.c as usize, w.e, w.f);
        return one(0);
    }
    one(element(c, w.b as usize, 0))
}

// The memory that is named is filled or looked at; each keeps its length.
pub fn on_memory(w: In, a: &mut [u8], b: &mut [u8], c: &mut [u64]) -> Words
    ensures { (length a.new ≡ length a.old) × (length b.new ≡ length b.old) × (length c.new ≡ length c.old) }
{
    match w.a {
        0 => on_bytes(w, a),
        1 => on_bytes(w, b),
        _ => on_cells(w, c),
    }
}
