// Little-endian numbers and blocks of fixed width, out of a slice and into one: the original's
// `read_buf`, `to_le_bytes` and `copy_from_slice`. Every call is total: past the slice's end zeros are
// read and nothing is written. A block goes through an array by value, which compiles to wide moves.
#![tactic(auto)]

ghost use Rattle.std.specs.Prelude.{◌≡◌, ◌&&◌, ◌≤◌, length, drop, replicate};
ghost use Rattle.blocks.specs.Blocks.{le, bytes_of, block, put, same_bytes, all_zero};

// So many bytes are looked at before it is asked whether one was not zero.
const LOOKED: usize = 1024;

// The N bytes of s from `at` on.
pub fn block<const N: usize>(s: &[u8], at: usize) -> [u8; N]
    ensures { result ≡ block N s.now at }
{
    if let Some(rest) = s.get(at..)
        && let Some(found) = rest.first_chunk()
    {
        return *found;
    }
    [0; N]
}

// Puts N bytes into s from `at` on; every other byte stays.
pub fn put_block<const N: usize>(s: &mut [u8], at: usize, b: [u8; N])
    ensures { (s.new ≡ put s.old at b.entry) × (length b.entry ≡ N) }
{
    // The width is tested first: where a loop puts blocks, that test is made once, before it.
    if N <= s.len() && at <= s.len() - N {
        s[at..at + N].copy_from_slice(&b);
    }
}

// Numbers of four and of eight bytes, a call of one line for each: a trait would have the same lines in its impls.

// The number that the 4 bytes of s from `at` on are.
pub fn read_u32(s: &[u8], at: usize) -> u32
    ensures { result ≡ le (block 4 s.now at) }
{
    u32::from_le_bytes(block(s, at))
}

// The number that the 8 bytes of s from `at` on are.
pub fn read_u64(s: &[u8], at: usize) -> u64
    ensures { result ≡ le (block 8 s.now at) }
{
    u64::from_le_bytes(block(s, at))
}

// Puts a number's 4 bytes into s from `at` on; every other byte stays.
pub fn write_u32(s: &mut [u8], at: usize, x: u32)
    ensures { s.new ≡ put s.old at (bytes_of 4 x) }
{
    put_block::<4>(s, at, x.to_le_bytes());
}

// Puts a number's 8 bytes into s from `at` on; every other byte stays.
pub fn write_u64(s: &mut [u8], at: usize, x: u64)
    ensures { s.new ≡ put s.old at (bytes_of 8 x) }
{
    put_block::<8>(s, at, x.to_le_bytes());
}

// Puts `n` zeros into s from `at` on; every other byte stays.
pub fn put_zeros(s: &mut [u8], at: usize, n: usize)
    ensures { s.new ≡ put s.old at (replicate n 0) }
{
    if at <= s.len() && n <= s.len() - at {
        s[at..at + n].fill(0);
    }
}

// Every byte of s becomes zero.
pub fn zero_all(s: &mut [u8])
    ensures { s.new ≡ replicate (length s.old) 0 }
{
    s.fill(0);
}

// Whether two blocks are the same.
pub fn same_block<const N: usize>(a: [u8; N], b: [u8; N]) -> bool
    ensures { result ≡ same_bytes a.entry b.entry }
{
    a == b
}

// Whether the bytes of s are all zero. There is no stop between, so many are looked at at once.
fn only_zeros(s: &[u8]) -> bool
    ensures { result ≡ all_zero s.now }
{
    let mut zero = true;
    for b in s {
        if *b != 0 {
            zero = false;
        }
    }
    zero
}

// Whether every byte of s from `from` on is zero.
pub fn zeros_from(s: &[u8], from: usize) -> bool
    ensures { result ≡ all_zero (drop from s.now) }
{
    if let Some(rest) = s.get(from..) {
        for part in rest.chunks(LOOKED) {
            if !only_zeros(part) {
                return false;
            }
        }
    }
    true
}
