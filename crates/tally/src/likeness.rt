// Whether two answers and two buffers are alike.
ghost use Rattle.std.specs.Prelude.{◌≤◌, length};

use super::counts::Notes;
use super::shown::report;
use cases::Question;

// The first place where two buffers differ, the length of the shorter where there is none; what is alike goes into the digest.
pub fn alike<T: Copy + PartialEq + Into<u64>>(a: &[T], b: &[T], notes: &mut Notes) -> usize
    ensures { (result ≤ length a.now) × (result ≤ length b.now) }
{
    for (i, (x, y)) in a.iter().zip(b).enumerate() {
        if x != y {
            return i;
        }
        notes.mix((*x).into());
    }
    a.len().min(b.len())
}

// Whether the answers are equal and the buffers alike in every place of the room; reports the question if not.
pub fn same(q: Question, table: &[u8], room: usize, one: u64, two: u64, at: usize) -> bool {
    if one == two && at == room {
        return true;
    }
    report(q, table, room, one, two, at);
    false
}
