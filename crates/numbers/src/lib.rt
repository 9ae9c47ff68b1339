// What other languages are told in numbers, part by part: the number of a refusal, of an edition and of a
// writer's state, and the values of an audit. `bitbox` puts them into the structs that cross the boundary.
// They are functions and no `From`, which would stand in `wal` and `answers`: the C interface alone has these numbers.
#![tactic(auto)]

ghost use Rattle.std.specs.Prelude.{◌≡◌};
ghost use Rattle.answers.specs.Answers.{answer_of};
ghost use Rattle.answers.specs.Refusals.{number_of};
ghost use Rattle.numbers.specs.Numbers.{refusal_of, edition_of, edition_number, open_kind, writer_from, writer_kind, writer_at, audit_values};

use answers::Refusal;
use validate::Audit;
use wal::{Edition, Writer};

// The number of a refusal.
pub fn refusal_number(why: Refusal) -> u64
    ensures { result ≡ number_of why }
{
    answers::number_of(why) as u64
}

// The same of what a call answers, 0 where it is done.
pub fn refusal_of<T>(r: &Result<T, Refusal>) -> u64
    ensures { result ≡ refusal_of (answer_of r.now) }
{
    match r {
        Ok(_) => 0,
        Err(why) => refusal_number(*why),
    }
}

// The edition that a number says.
pub fn edition_of(number: u32) -> Edition
    ensures { result ≡ edition_of number }
{
    match number {
        2 => Edition::Two,
        _ => Edition::One,
    }
}

// And the number of an edition.
pub fn edition_number(e: Edition) -> u32
    ensures { result ≡ edition_number e }
{
    match e {
        Edition::One => 1,
        Edition::Two => 2,
    }
}

// The kind of a writer that is open on a log of an edition.
fn open_kind(e: Edition) -> u64
    ensures { result ≡ open_kind e }
{
    match e {
        Edition::One => 1,
        Edition::Two => 3,
    }
}

// The writer that a kind and a position or length say.
pub fn writer_from(kind: u64, at: u64) -> Writer
    ensures { result ≡ writer_from kind at }
{
    match kind {
        0 => Writer::Fresh,
        1 => Writer::Open(at as usize, Edition::One),
        3 => Writer::Open(at as usize, Edition::Two),
        _ => Writer::Finished(at as usize),
    }
}

// And the kind of a writer.
pub fn writer_kind(w: Writer) -> u64
    ensures { result ≡ writer_kind w }
{
    match w {
        Writer::Fresh => 0,
        Writer::Open(_, edition) => open_kind(edition),
        Writer::Finished(_) => 2,
    }
}

// Its position, or the length of its log.
pub fn writer_at(w: Writer) -> u64
    ensures { result ≡ writer_at w }
{
    match w {
        Writer::Fresh => 0,
        Writer::Open(at, _) => at as u64,
        Writer::Finished(len) => len as u64,
    }
}

// The values of an audit that passes, zeros of one that does not.
#[tactic(auto, using(crate::proofs::Told::told))]
pub fn audit_values(a: Result<Audit, Refusal>) -> Audit
    ensures { result ≡ audit_values (answer_of a) }
{
    a.unwrap_or(Audit {
        capacity: 0,
        occupied: 0,
        rate: 0.0,
    })
}
