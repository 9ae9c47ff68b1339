// A list of cases, run: each line of the standard input is a call with its inputs and the answer that is due,
// the original's or one worked out from document 01 apart from this code (docs/VECTORS.md). What ours answers
// is held to it; a line that differs is told. Bytes and words that calls are lent stand in three memories,
// which other lines fill.
// An operation and a kind are numbers of the list's text: the arm beside the number is all that it means.
#![tactic(auto)]

ghost use Rattle.std.specs.Prelude.{◌≡◌, ◌≤◌, length};

use answers::Refusal;
use page_diff::Diff;
use rehash::Decision;
use vector_memory::{
    Count, In, Words, counted, low_byte, low_four, no_count, number, of_number, of_outcome,
    of_truth, one, part, said, said6,
};

// The words of a line: the operation, its inputs, and from ANSWER on what is due. The last is for what is not
// read.
const WORDS: usize = 20;

const ANSWER: usize = 12;

const REST: usize = 19;

// ---- a line's words

// Which word a byte of a line belongs to, after one of word k.
fn place(k: usize, b: u8) -> usize
    requires { k ≤ 19 }
    ensures { result ≤ 19 }
{
    if k == REST {
        return REST;
    }
    match b {
        b' ' => k + 1,
        b':' => ANSWER - 1,
        b'#' => REST,
        _ => k,
    }
}

// A digit behind those of a word, which is decimal, or hexadecimal where an x stands before it.
fn longer(w: u64, hex: bool, b: u8) -> u64 {
    match b {
        b'0'..=b'9' if hex => (w << 4) | u64::from(b - b'0'),
        b'0'..=b'9' => w.wrapping_mul(10).wrapping_add(u64::from(b - b'0')),
        b'a'..=b'f' => (w << 4) | u64::from(b - b'a' + 10),
        _ => w,
    }
}

// The words of a line.
fn words_of_line(line: &[u8]) -> [u64; WORDS] {
    let mut ws = [0u64; WORDS];
    let mut k = 0;
    let mut hex = false;
    for b in line {
        k = place(k, *b);
        hex = match *b {
            b' ' => false,
            b'x' => true,
            _ => hex,
        };
        ws[k] = longer(ws[k], hex, *b);
    }
    ws
}

// Where the reading of a line stands: in its words, in the remark behind them, at what is no word, or at its end.
#[derive(Clone, Copy, PartialEq, Eq)]
enum State {
    Words,
    Remark,
    Strange,
    Ended,
}

// Where it stands after one byte more.
fn behind(state: State, b: u8) -> State {
    match (state, b) {
        (State::Strange, _) => State::Strange,
        (_, b'\n') => State::Ended,
        (State::Remark, _) | (_, b'#') => State::Remark,
        (_, b' ' | b'0'..=b':' | b'a'..=b'f' | b'x') => State::Words,
        _ => State::Strange,
    }
}

// Whether a line is whole, with nothing but words before its remark.
fn is_whole(line: &[u8]) -> bool {
    line.iter().fold(State::Words, |state, b| behind(state, *b)) == State::Ended
}

// Whether there is such an operation; 0 is that of a line with a remark alone.
fn is_operation(op: u64) -> bool {
    matches!(op, 0..=31 | 33..=37 | 40..=50 | 56..=59)
}

// ---- 1 to 15: words alone

fn of_bool(b: bool) -> Words {
    one(u64::from(b))
}

fn diff(lo: u64, hi: u64) -> Diff {
    Diff { words: [lo, hi] }
}

fn words_of(d: Diff) -> Words {
    let [lo, hi] = d.words;
    said(lo, hi, 0)
}

// A diff, or the refusal with the diff that stands then.
fn of_diff(r: Result<Diff, Refusal>, held: Diff) -> Words {
    let (outcome, d) = match r {
        Ok(d) => (0, d),
        Err(why) => (number(why), held),
    };
    let [lo, hi] = d.words;
    said(outcome, lo, hi)
}

fn diff_bytes(d: Diff) -> Words {
    let bytes = page_diff::as_bytes(d);
    said(blocks::read_u64(&bytes, 0), blocks::read_u64(&bytes, 8), 0)
}

fn tag_hints(tag: u8, hash: u64) -> Words {
    said6(
        u64::from(meta_map::hint_empty(tag)),
        u64::from(meta_map::hint_tombstone(tag)),
        u64::from(meta_map::hint_not_match(tag, hash)),
        u64::from(meta_map::is_full(tag)),
        0,
        0,
    )
}

fn places(n: usize) -> Words {
    let pages = of_number(ht_file::num_meta_byte_pages(n));
    let length = of_number(ht_file::expected_file_len(n));
    said(pages.a, pages.b, length.b)
}

fn marker_write(old: u32, new: u32) -> Words {
    match rehash::write_marker(old, new) {
        Ok(bytes) => said(0, blocks::read_u64(&bytes, 0), blocks::read_u64(&bytes, 8)),
        Err(why) => one(number(why)),
    }
}

fn pending(old: u64, new: u64, meta: u64, file: u64) -> Words {
    match rehash::pending(old, new, meta, file) {
        Ok(Decision::Tidy) => said(0, 0, 0),
        Ok(Decision::UpdateMetaThenTidy) => said(0, 1, 0),
        Err(why) => one(number(why)),
    }
}

fn of_words(op: u64, a: u64, b: u64, c: u64, d: u64) -> Words {
    match op {
        9 => one(u64::from(meta_map::full_entry(a))),
        10 => tag_hints(low_byte(a), b),
        11 => places(a as usize),
        12 => of_number(ht_file::data_page_index(a as usize, b)),
        13 => one(meta_map::page_index(a)),
        14 => marker_write(low_four(a), low_four(b)),
        _ => pending(a, b, c, d),
    }
}

fn of_diffs(op: u64, d: Diff, slot: u64, other: u64) -> Words {
    match op {
        1 => of_diff(page_diff::from_bytes(page_diff::as_bytes(d)), diff(0, 0)),
        2 => of_diff(page_diff::set_changed(d, slot as usize), d),
        3 => of_truth(page_diff::changed(d, slot as usize)),
        4 => words_of(page_diff::set_cleared(d)),
        5 => of_bool(page_diff::cleared(d)),
        6 => one(page_diff::count(d) as u64),
        7 => words_of(page_diff::join(d, diff(slot, other))),
        _ => diff_bytes(d),
    }
}

fn words_alone(w: In) -> Words {
    if w.op < 9 {
        return of_diffs(w.op, diff(w.a, w.b), w.c, w.d);
    }
    of_words(w.op, w.a, w.b, w.c, w.d)
}

// ---- the lines

fn answer(w: In, a: &mut [u8], b: &mut [u8], c: &mut [u64]) -> Words {
    match w.op {
        0..=15 => words_alone(w),
        16..=22 => vector_memory::on_memory(w, a, b, c),
        35 | 36 | 40..=48 | 58 | 59 => vector_logs::on_logs(w, a, b, c),
        49 | 50 => vector_syncs::on_syncs(w, a, b, c),
        _ => vector_tables::on_tables(w, a, b, c),
    }
}

fn say_word(x: u64) {
    io::write_all(1, b" ");
    io::print_decimal(1, x);
}

// A line that differs, and what ours answers.
fn tell(line: &[u8], s: Words) {
    io::write_all(1, b"differs: ");
    io::write_all(1, line);
    say_word(s.a);
    say_word(s.b);
    say_word(s.c);
    say_word(s.d);
    io::write_all(1, b"\n");
}

// One line, which counts unless it fills a memory or has a remark alone.
fn run(line: &[u8], k: Count, a: &mut [u8], b: &mut [u8], c: &mut [u64]) -> Count {
    let ws = words_of_line(line);
    if !(is_whole(line) && is_operation(ws[0])) {
        io::write_all(1, b"no line: ");
        io::write_all(1, line);
        return counted(k, false);
    }
    if ws[0] == 0 {
        return k;
    }
    let w = In {
        op: ws[0],
        a: ws[1],
        b: ws[2],
        c: ws[3],
        d: ws[4],
        e: ws[5],
        f: ws[6],
        g: ws[7],
    };
    let s = answer(w, a, b, c);
    let well = s == said6(ws[12], ws[13], ws[14], ws[15], ws[16], ws[17]);
    if !well {
        tell(line, s);
    }
    if 15 < w.op && w.op < 19 {
        return k;
    }
    counted(k, well)
}

// The lines of a text.
fn lines(text: &[u8], a: &mut [u8], b: &mut [u8], c: &mut [u64]) -> Count {
    let mut count = no_count();
    for line in text.split_inclusive(|b| *b == b'\n') {
        count = run(line, count, a, b, c);
    }
    count
}

// Room for so many bytes. Where the size stands in the literal, the prover writes out so many zeros.
fn room<const N: usize>() -> [u8; N]
    ensures { N ≡ length result }
{
    [0; N]
}

fn main() {
    let mut text = room::<524288>();
    let len = io::read_full(0, &mut text);
    let mut a = room::<397312>();
    let mut b = room::<290816>();
    let mut c = [0u64; 96];
    let count = lines(part(&text, len), &mut a, &mut b, &mut c);
    io::print_decimal(1, count.answers);
    io::write_all(1, b" answers, ");
    io::print_decimal(1, count.differ);
    io::write_all(1, b" differ\n");
}
