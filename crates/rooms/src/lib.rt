// Rooms: how many records and entries they hold, and zeros after those. A record takes eight numbers of work room, an entry six of list room.
#![tactic(auto)]

ghost use Rattle.std.specs.Prelude.{◌≡◌, ◌++◌, ◌*◌, ◌-◌, ◌^◌, ◌≤◌, ◌<◌, min, length, take, replicate};
ghost use Rattle.rules.specs.Lists.{zeros};
ghost use Rattle.rules.specs.Rooms.{work_holds, list_holds};

// The numbers of a record.
const RECORD: usize = 8;

// The numbers of an entry.
const ENTRY: usize = 6;

// How many records a work room holds: a remainder holds nothing.
pub fn record_count(room: &[u32]) -> usize
    ensures { result ≡ work_holds room.now }
{
    room.len() / RECORD
}

// How many entries a list room holds.
pub fn entry_count(room: &[u32]) -> usize
    ensures { result ≡ list_holds room.now }
{
    room.len() / ENTRY
}

// Where the first n entries end, or the list room does.
pub fn entries_end(list: &[u32], n: usize) -> usize
    requires { 6 * n < 2 ^ 64 }
    ensures { result ≡ min (6 * n) (length list.now) }
{
    list.len().min(ENTRY * n)
}

// Zeros from an index on. One store a number.
pub fn zero_from(room: &mut [u32], from: usize)
    requires { from ≤ length room.old }
    ensures { room.new ≡ take from room.old ++ replicate (length room.old - from) 0 }
{
    room[from..].fill(0);
}

// Zeros after the first n of so many numbers each, where the room has more.
fn zero_behind<const SIZE: usize>(room: &mut [u32], n: usize)
    requires { SIZE * n < 2 ^ 64 }
    ensures { room.new ≡ take (SIZE * n) room.old ++ replicate (length room.old - SIZE * n) 0 }
{
    zero_from(room, room.len().min(SIZE * n));
}

// Zeros after the first n records, where the room has more.
pub fn zero_after(room: &mut [u32], n: usize)
    requires { 8 * n < 2 ^ 64 }
    ensures { room.new ≡ take (8 * n) room.old ++ replicate (length room.old - 8 * n) 0 }
{
    zero_behind::<RECORD>(room, n);
}

// Zeros after the first n entries, where the room has more.
pub fn zero_after_entries(list: &mut [u32], n: usize)
    requires { 6 * n < 2 ^ 64 }
    ensures { list.new ≡ take (6 * n) list.old ++ replicate (length list.old - 6 * n) 0 }
{
    zero_behind::<ENTRY>(list, n);
}

// All zeros.
pub fn zero_all(room: &mut [u32])
    ensures { room.new ≡ zeros room.old }
{
    room.fill(0);
}
