// Readers that are asked again: past the end, past a refusal, and moving on, on logs of both editions; and each byte after
// end set by itself. The file `stdout` is worked out from document 01 and requests W-207 and W-208 apart from this code.
#![tactic(auto)]

ghost use Rattle.std.specs.Prelude.{◌≡◌, ◌+◌, ◌≤◌, length};
ghost use Rattle.wal.specs.declared.AfterEnd.TheVariants.{Zeros, Tolerant};
ghost use Rattle.wal.specs.Reader.{start_of};
ghost use Rattle.wal_read.specs.Entry.{next_of, Taken};
ghost use Rattle.wal_read.specs.Set.{first_at, gives_at};

use answers::Refusal;
use wal::AfterEnd;
use wal_read::{WalEntry, What};

// Lays bytes into a log from `at` on.
fn lay(log: &mut [u8], at: usize, bytes: &[u8])
    requires { at + length bytes.now ≤ length log.old }
{
    log[at..at + bytes.len()].copy_from_slice(bytes);
}

// What a reader set on a log gives when it is asked a second time.
fn read_again(log: &[u8]) -> WalEntry
    ensures { Taken (gives_at Zeros (start_of log.now) log.now (next_of (gives_at Zeros (start_of log.now) log.now (first_at log.now)) (first_at log.now))) (next_of (gives_at Zeros (start_of log.now) log.now (first_at log.now)) (first_at log.now)) result }
{
    let mut r = wal_read::new(log);
    wal_read::read_entry(&mut r);
    wal_read::read_entry(&mut r)
}

// What its tolerant reader gives first.
fn peek_tolerant(log: &[u8]) -> WalEntry
    ensures { Taken (gives_at Tolerant (start_of log.now) log.now (first_at log.now)) (first_at log.now) result }
{
    wal_read::peek(wal_read::tolerant(wal_read::new(log)))
}

// A word and a number.
fn word(w: &[u8], n: u64) {
    io::write_all(1, w);
    io::print_decimal(1, n);
}

fn show_refusal(why: Refusal) {
    word(b"refused ", u64::from(answers::number_of(why)));
}

// What an entry is, and the position after it.
fn show_entry(e: WalEntry) {
    match e.what {
        Ok(What::Clear(bucket)) => word(b"clear ", bucket),
        Ok(What::Update(bucket)) => word(b"update ", bucket),
        Ok(What::End) => {
            io::write_all(1, b"end");
        }
        Err(why) => show_refusal(why),
    }
    word(b", next at ", e.next as u64);
    io::write_all(1, b"\n");
}

// A log of n bytes that starts with some and goes on with zeros, and what a reader set on it gives the second time.
fn show_log(title: &[u8], bytes: &[u8], n: usize)
    requires { (length bytes.now ≤ 4096) × (n ≤ 4096) }
{
    let mut log = [0u8; 4096];
    lay(&mut log, 0, bytes);
    io::write_all(1, title);
    show_entry(read_again(&log[..n]));
}

// Readers that were refused, that stand at the end or at a bad record, and that move on, in edition one.
fn edition_one() {
    show_log(b"-- reader: no byte\n", b"", 0);
    show_log(b"-- reader: one byte\n", b"", 1);
    show_log(b"-- reader: no start\n", b"", 4096);
    show_log(b"-- reader: a tag that is none\n", b"\x01\x07", 4096);
    show_log(b"-- reader: the end\n", b"\x01\x07\0\0\0\x02", 4096);
    show_log(
        b"-- reader: a clear, then the end\n",
        b"\x01\x07\0\0\0\x03\x03\0\0\0\0\0\0\0\x02",
        4096,
    );
    show_log(
        b"-- reader: two clears\n",
        b"\x01\x07\0\0\0\x03\x03\0\0\0\0\0\0\0\x03\x09",
        4096,
    );
}

// A log of edition two in bytes: sync 7 and a seed, a clear of bucket 3 at 22, an update of bucket 9 with slot 0 at
// 32, the end at 130.
fn log_two(log: &mut [u8])
    requires { 4096 ≤ length log.old }
{
    lay(log, 0, b"\xB2\x01\x07\0\0\0seed of 16 bytes");
    lay(log, 22, b"\xB2\x03\x03\0\0\0\0\0\0\0");
    lay(log, 32, b"\xB2\x04the id of a page, thirty-two byt");
    lay(
        log,
        66,
        b"\x01\0\0\0\0\0\0\0\0\0\0\0\0\0\0\0a node of the page: thirty-two b",
    );
    lay(log, 114, b"8 elided\x09\0\0\0\0\0\0\0\xB2\x02");
}

// The start of a log and where its first entry stands, then four entries, each from where the one before it ended.
fn show_all(log: &[u8]) {
    let start = wal_read::set(log);
    match start {
        Ok(sync) => word(b"sync ", sync),
        Err(why) => show_refusal(why),
    }
    let mut at = wal_read::first_at(log);
    word(b", first at ", at as u64);
    io::write_all(1, b"\n");
    for _ in 0..4 {
        let e = wal_read::entry_set(log, at, start, AfterEnd::Zeros);
        at = e.next;
        show_entry(e);
    }
}

// That log with other bytes at a place: read through; by a reader that is asked twice; and what stands at the last
// byte, where no reader set on a log comes, as every size of edition two is even.
fn show_two(title: &[u8], at: usize, bytes: &[u8])
    requires { at + length bytes.now ≤ 4096 }
{
    let mut log = [0u8; 4096];
    log_two(&mut log);
    lay(&mut log, at, bytes);
    io::write_all(1, title);
    show_all(&log);
    show_entry(read_again(&log));
    show_entry(wal_read::entry_at(&log, 4095, wal_read::edition_of(&log), AfterEnd::Zeros));
}

fn edition_two() {
    show_two(b"-- edition two\n", 0, b"");
    show_two(b"-- edition two: 0xB2 and no start\n", 1, b"\x02");
    show_two(b"-- edition two: a bare tag\n", 32, b"\x04");
    show_two(b"-- edition two: 0xB2 as the last byte\n", 4095, b"\xB2");
}

// Whether a reader stays at `at` with the refusal of a byte after end.
fn refuses(e: WalEntry, at: usize) -> bool {
    e.next == at && matches!(e.what, Err(Refusal::AfterEndUsed))
}

// Whether it stays there at the end.
fn ends(e: WalEntry, at: usize) -> bool {
    e.next == at && matches!(e.what, Ok(What::End))
}

// Whether a log whose end is its first entry gives that refusal there, both by the call with a position and by a reader
// that is asked again.
fn refused_twice(log: &[u8], at: usize) -> bool {
    let first = wal_read::entry_set(log, at, wal_read::set(log), AfterEnd::Zeros);
    refuses(first, at) && refuses(read_again(log), at)
}

// Whether its tolerant reader gives end there, and so does the call with the position after that.
fn ended_twice(log: &[u8], at: usize) -> bool {
    let first = peek_tolerant(log);
    let again = wal_read::entry_set(log, first.next, wal_read::set(log), AfterEnd::Tolerant);
    ends(first, at) && ends(again, at)
}

// Of a log of n bytes: the position of end, the bytes after it, those at which the reader refuses there twice, and those
// at which the tolerant one answers end there twice.
fn show_counts(n: usize, at: usize, tried: u64, refused: u64, ended: u64) {
    word(b"log of ", n as u64);
    word(b", end at ", at as u64);
    word(b", bytes after it ", tried);
    word(b", 27 twice ", refused);
    word(b", end twice ", ended);
    io::write_all(1, b"\n");
}

// A log of n bytes that is a start and an end, then zeros; each byte after end is set by itself.
fn show_after(bytes: &[u8], n: usize)
    requires { (length bytes.now ≤ 12288) × (n ≤ 12288) }
{
    let mut log = [0u8; 12288];
    lay(&mut log, 0, bytes);
    let at = wal_read::first_at(bytes);
    let mut refused: u64 = 0;
    let mut ended: u64 = 0;
    for i in bytes.len()..n {
        log[i] = 1;
        refused += u64::from(refused_twice(&log[..n], at));
        ended += u64::from(ended_twice(&log[..n], at));
        log[i] = 0;
    }
    show_counts(n, at, n.saturating_sub(bytes.len()) as u64, refused, ended);
}

// Such a log of one page, and of three.
fn show_pages(title: &[u8], bytes: &[u8])
    requires { length bytes.now ≤ 12288 }
{
    io::write_all(1, title);
    show_after(bytes, 4096);
    show_after(bytes, 12288);
}

fn after_end() {
    show_pages(b"-- a byte after end\n", b"\x01\x07\0\0\0\x02");
    show_pages(
        b"-- edition two: a byte after end\n",
        b"\xB2\x01\x07\0\0\0seed of 16 bytes\xB2\x02",
    );
}

fn main() {
    edition_one();
    edition_two();
    after_end();
}
