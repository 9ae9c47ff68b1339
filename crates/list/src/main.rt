// The program `list`: reads a log on standard input and writes its lines, one for each record.
#![tactic(auto)]

ghost use Rattle.std.specs.Prelude.{◌≡◌, length};

// One byte more than the longest log that is read, which shows that the input is longer.
const READ: usize = wal_list::MOST + 1;

// Room for what is read.
fn buffer() -> [u8; READ]
    ensures { 65537 ≡ length result }
{
    [0; READ]
}

// Room for the lines of any log.
fn room() -> [u8; wal_list::LINES_SIZE]
    ensures { 262304 ≡ length result }
{
    [0; wal_list::LINES_SIZE]
}

fn main() {
    let mut log = buffer();
    let n = io::read_full(0, &mut log);
    let mut lines = room();
    if let Ok(len) = wal_list::lines_into(&log[..n], &mut lines) {
        io::write_all(1, &lines[..len as usize]);
    }
}
