// The log of a sync, as in the original's wal/mod.rs: its edition, the tags of its records, their sizes, and
// the writer's state. Reading is in wal_read, writing in wal_write; all three cite specs/ here.
#![tactic(auto)]

ghost use Rattle.std.specs.Prelude.{◌≡◌};
ghost use Rattle.wal.specs.Log.{mark_size, start_size, edition_one, edition_two};

pub const WAL_ENTRY_TAG_START: u8 = 1;

pub const WAL_ENTRY_TAG_END: u8 = 2;

pub const WAL_ENTRY_TAG_CLEAR: u8 = 3;

pub const WAL_ENTRY_TAG_UPDATE: u8 = 4;

// What stands before each tag in a log of edition two.
pub const WAL_EDITION_TWO: u8 = 0xB2;

pub const PAGE_SIZE: usize = 4096;

// The bytes after the mark, of a clear and of an update without its nodes.

pub const CLEAR_BODY: usize = 8;

pub const UPDATE_BODY: usize = 64;

// Where after its mark an update has its diff, and its nodes.
pub const DIFF_AT: usize = 32;

pub const NODES_AT: usize = 48;

// Where the start of a log of edition two has the seed of its store.
pub const SEED_AT: usize = 6;

// The edition of a log: one, in which a record's mark is its tag; or two, with 0xB2 before each tag and the
// store named in the start.
#[derive(Clone, Copy)]
pub enum Edition {
    One,
    Two,
}

// What a log starts with: its sync number, its edition and the seed of its store, which edition one leaves out.
#[derive(Clone, Copy)]
pub struct Start {
    pub sync: u32,
    pub edition: Edition,
    pub seed: [u8; 16],
}

// What is wanted after the end of a log: zeros, up to the end of what is lent; or, by a tolerant call, nothing.
#[derive(Clone, Copy)]
pub enum AfterEnd {
    Zeros,
    Tolerant,
}

// Where a writer stands: not begun, open at a position of a log of an edition, or finished with a length. It is
// lent at each call, as the log is.
#[derive(Clone, Copy)]
pub enum Writer {
    Fresh,
    Open(usize, Edition),
    Finished(usize),
}

// The start of a log of edition one.
pub fn edition_one(sync: u32) -> Start
    ensures { result ≡ edition_one sync }
{
    let seed = [0u8; 16];
    Start {
        sync,
        edition: Edition::One,
        seed,
    }
}

// The start of a log of edition two, of the store with this seed.
pub fn edition_two(sync: u32, seed: [u8; 16]) -> Start
    ensures { result ≡ edition_two sync seed }
{
    Start {
        sync,
        edition: Edition::Two,
        seed,
    }
}

// The bytes of a mark.
pub fn mark_size(edition: Edition) -> usize
    ensures { result ≡ mark_size edition }
{
    match edition {
        Edition::One => 1,
        Edition::Two => 2,
    }
}

// The bytes of a start; the first entry stands after them.
pub fn start_size(edition: Edition) -> usize
    ensures { result ≡ start_size edition }
{
    match edition {
        Edition::One => 5,
        Edition::Two => 22,
    }
}
