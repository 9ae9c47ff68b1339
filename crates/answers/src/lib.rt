// Why a call did not do what was asked: the refusals of document 01 by name. A call answers a `Result` with
// what it was asked for, or one of these. docs/ANSWERS.md has a line for a person on each.
#![tactic(auto)]

ghost use Rattle.std.specs.Prelude.{◌≡◌};
ghost use Rattle.answers.specs.Refusals.{number_of};

// Why a call did not do what was asked. Each has document 01's number, by `number_of`.
#[derive(Clone, Copy, Debug, PartialEq, Eq, Drop)]
pub enum Refusal {
    TableUnfit,
    LengthUnfit,
    SlotUnfit,
    DiffReserved,
    LogNotPages,
    LogCut,
    NoStart,
    TagUnknown,
    BucketOutside,
    PathCrowded,
    PathClosed,
    WriterNotOpen,
    NoRoom,
    BucketUnfit,
    MarkerLength,
    MarkerMagic,
    MarkerOrder,
    NothingPending,
    WouldShrink,
    PaddingUsed,
    LabelTwice,
    TagWrong,
    EmptyFirst,
    NotReached,
    OtherStore,
    AfterEndUsed,
}

// Document 01's number of a refusal, under the name that docs/ANSWERS.md has for it.
pub fn number_of(r: Refusal) -> u8
    ensures { result ≡ number_of r }
{
    match r {
        Refusal::TableUnfit => 1,
        Refusal::LengthUnfit => 2,
        Refusal::SlotUnfit => 3,
        Refusal::DiffReserved => 4,
        Refusal::LogNotPages => 5,
        Refusal::LogCut => 6,
        Refusal::NoStart => 7,
        Refusal::TagUnknown => 8,
        Refusal::BucketOutside => 9,
        Refusal::PathCrowded => 10,
        Refusal::PathClosed => 11,
        Refusal::WriterNotOpen => 12,
        Refusal::NoRoom => 13,
        Refusal::BucketUnfit => 14,
        Refusal::MarkerLength => 15,
        Refusal::MarkerMagic => 16,
        Refusal::MarkerOrder => 17,
        Refusal::NothingPending => 18,
        Refusal::WouldShrink => 19,
        Refusal::PaddingUsed => 20,
        Refusal::LabelTwice => 21,
        Refusal::TagWrong => 22,
        Refusal::EmptyFirst => 23,
        Refusal::NotReached => 24,
        Refusal::OtherStore => 26,
        Refusal::AfterEndUsed => 27,
    }
}
