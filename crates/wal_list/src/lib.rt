// Reading off a log of either edition: the lines of the program `list`. `line_at` makes one line, `lines_into` all of
// them.
#![tactic(auto)]

ghost use Rattle.std.specs.Prelude.{◌≡◌, ◌++◌, ◌+◌, ◌≤◌, length, IfOk, Ok};
ghost use Rattle.answers.specs.Answers.{given, answer_of};
ghost use Rattle.answers.specs.Refusals.{number_of};
ghost use Rattle.blocks.specs.Blocks.{put};
ghost use Rattle.wal_list.specs.Lines.{ascii, decimal, end_line, refused_line};
ghost use Rattle.wal_list.specs.Shown.{first_shown, shown_at, text_of, said_of, line_said, line_answer, line_after, lines_answer, lines_after};

use answers::Refusal;
use wal::AfterEnd;
use wal_read::Head;

// The longest log that is read.
pub const MOST: usize = 65536;

// No line is longer.
pub const LINE_SIZE: usize = 80;

// The lines of any log fit: at most four bytes for each of its bytes and a line, and room for one line more.
pub const LINES_SIZE: usize = 4 * MOST + 2 * LINE_SIZE;

// The bytes of the line that was filled in, and the position of the record that has the next one.
#[derive(Clone, Copy)]
pub enum Line {
    More { len: usize, next: usize },
    Last { len: usize },
}

// Puts a text into a line from `at` on and answers the position after it.
#[tactic(auto, using(std::proofs::lemmas::Grind::common_steps, blocks::proofs::Laws::put_fits))]
fn put_text(line: &mut [u8], at: usize, text: &[u8]) -> usize
    requires { at + length text.now ≤ length line.old }
    ensures { (line.new ≡ put line.old at text.now) × (result ≡ at + length text.now) }
{
    let end = at + text.len();
    line[at..end].copy_from_slice(text);
    end
}

// The same with a number in decimal.
#[tactic(auto, using(crate::proofs::Decimal::spelt))]
fn put_decimal(line: &mut [u8], at: usize, n: u64) -> usize
    requires { at + 20 ≤ length line.old }
    ensures { (line.new ≡ put line.old at (decimal n)) × (result ≡ at + length (decimal n)) }
{
    let mut digits = [0u8; 20];
    let k = io::decimal(n, &mut digits);
    put_text(line, at, &digits[..k])
}

// Puts an offset, a word with its spaces and a number at the start of a line.
#[tactic(auto, using(crate::proofs::Writing::line_parts))]
fn put_field(line: &mut [u8], offset: usize, word: &[u8], n: u64) -> usize
    requires { (80 ≤ length line.old) × (length word.now ≤ 9) }
    ensures { (line.new ≡ put line.old 0 (decimal offset ++ word.now ++ decimal n)) × (result ≡ length (decimal offset ++ word.now ++ decimal n)) }
{
    let a = put_decimal(line, 0, offset as u64);
    let b = put_text(line, a, word);
    put_decimal(line, b, n)
}

// A line of one field.
#[tactic(auto, using(crate::proofs::Writing::line_parts))]
fn put_line(line: &mut [u8], offset: usize, word: &[u8], n: u64) -> usize
    requires { (80 ≤ length line.old) × (length word.now ≤ 9) }
    ensures { (line.new ≡ put line.old 0 (decimal offset ++ word.now ++ decimal n ++ ascii "\n")) × (result ≡ length (decimal offset ++ word.now ++ decimal n ++ ascii "\n")) }
{
    let a = put_field(line, offset, word, n);
    put_text(line, a, b"\n")
}

// The line of an update.
#[tactic(auto, using(crate::proofs::Writing::line_parts))]
fn put_update(line: &mut [u8], offset: usize, bucket: u64, count: usize) -> usize
    requires { 80 ≤ length line.old }
    ensures { (line.new ≡ put line.old 0 (decimal offset ++ ascii " update " ++ decimal bucket ++ ascii " " ++ decimal count ++ ascii "\n")) × (result ≡ length (decimal offset ++ ascii " update " ++ decimal bucket ++ ascii " " ++ decimal count ++ ascii "\n")) }
{
    let a = put_field(line, offset, b" update ", bucket);
    let b = put_text(line, a, b" ");
    let c = put_decimal(line, b, count as u64);
    put_text(line, c, b"\n")
}

// The line of the end.
#[tactic(auto, using(crate::proofs::Writing::line_parts))]
fn put_end(line: &mut [u8], offset: usize) -> usize
    requires { 80 ≤ length line.old }
    ensures { (line.new ≡ put line.old 0 (end_line offset)) × (result ≡ length (end_line offset)) }
{
    let a = put_decimal(line, 0, offset as u64);
    put_text(line, a, b" end\n")
}

// The line of a refusal, with its number.
fn put_refused(line: &mut [u8], offset: usize, why: Refusal) -> usize
    requires { 80 ≤ length line.old }
    ensures { (line.new ≡ put line.old 0 (refused_line offset (number_of why))) × (result ≡ length (refused_line offset (number_of why))) }
{
    put_line(
        line,
        offset,
        b" refused ",
        u64::from(answers::number_of(why)),
    )
}

// The first line: the start, or why there is none.
#[tactic(auto, unfolding(crate::specs::Shown::first_shown))]
fn first_line(log: &[u8], line: &mut [u8]) -> Line
    requires { 80 ≤ length line.old }
    ensures { (line_said (Ok result) ≡ given (said_of (first_shown log.now))) × (line.new ≡ put line.old 0 (text_of (first_shown log.now))) }
{
    if MOST < log.len() {
        let len = put_refused(line, 0, Refusal::LengthUnfit);
        return Line::Last { len };
    }
    if log.is_empty() {
        let len = put_text(line, 0, b"empty\n");
        return Line::Last { len };
    }
    match wal_read::set(log) {
        Ok(sync) => Line::More {
            len: put_line(line, 0, b" start ", sync),
            next: wal_read::first_at(log),
        },
        Err(why) => Line::Last {
            len: put_refused(line, 0, why),
        },
    }
}

// The line of the record at `at`, where the start is at 0.
fn filled(log: &[u8], at: usize, line: &mut [u8]) -> Line
    requires { 80 ≤ length line.old }
    ensures { (line_said (Ok result) ≡ given (said_of (shown_at log.now at))) × (line.new ≡ put line.old 0 (text_of (shown_at log.now at))) }
{
    if at == 0 {
        return first_line(log, line);
    }
    let read = wal_read::head_at(log, at, wal_read::edition_of(log), AfterEnd::Tolerant);
    if let Err(why) = read {
        let len = put_refused(line, at, why);
        return Line::Last { len };
    }
    if let Ok(Head::Clear { bucket, next }) = read {
        let len = put_line(line, at, b" clear ", bucket);
        return Line::More { len, next };
    }
    let Ok(
        Head::Update {
            bucket,
            count,
            next,
        },
    ) = read
    else {
        let len = put_end(line, at);
        return Line::Last { len };
    };
    let len = put_update(line, at, bucket, count);
    Line::More { len, next }
}

// Fills in the line of the record at `at` (the start is at 0) and says how long it is and where the next
// one is; every other byte of the buffer stays. A buffer shorter than LINE_SIZE is refused with 2.
pub fn line_at(log: &[u8], at: usize, line: &mut [u8]) -> Result<Line, Refusal>
    ensures { (line_said result ≡ line_answer line.old (shown_at log.now at)) × (line.new ≡ line_after line.old (shown_at log.now at)) }
{
    if line.len() < LINE_SIZE {
        return Err(Refusal::LengthUnfit);
    }
    Ok(filled(log, at, line))
}

// Puts the lines of a log at the start of `out`, one after the other, and answers how many bytes they are; every
// byte after them stays. Memory shorter than LINES_SIZE is refused with 2 and left alone.
pub fn lines_into(log: &[u8], out: &mut [u8]) -> Result<u64, Refusal>
    ensures lines { (answer_of result ≡ lines_answer out.old log.now) × (out.new ≡ lines_after out.old log.now) }
    ensures within { IfOk result (λ n. n ≤ length out.new) }
{
    if out.len() < LINES_SIZE {
        return Err(Refusal::LengthUnfit);
    }
    let mut done = 0;
    let mut at = 0;
    // Each line tells where the next record stands, so there is no range to go over.
    loop {
        // There is room for each line, so none is refused.
        match line_at(log, at, &mut out[done..])? {
            Line::More { len, next } => {
                done += len;
                at = next;
            }
            Line::Last { len } => return Ok((done + len) as u64),
        }
    }
}
