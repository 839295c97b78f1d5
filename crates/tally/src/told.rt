// Answers to reason, and the four numbers behind them.
use super::counts::Notes;
use super::likeness::{alike, same};
use super::shown::{number_of, report};
use cases::Question;

// Whether an answer names a station.
pub(crate) fn names(answer: u64) -> bool {
    answer != 0 && number_of(answer) == 0
}

// Whether two answers and the four numbers behind each are alike; what is alike goes into the digest; reports the question if not.
pub fn same_told(
    q: Question,
    table: &[u8],
    one: u64,
    two: u64,
    mine: &[u32; 4],
    other: &[u32; 4],
    notes: &mut Notes,
) -> bool {
    let at = alike(mine, other, notes);
    same(q, table, 4, one, two, at)
}

// Whether an answer that names no station left the filling; reports the question if not.
pub fn kept(q: Question, table: &[u8], answer: u64, told: &[u32; 4], filling: u32) -> bool {
    if names(answer) || *told == [filling; 4] {
        return true;
    }
    io::write_all(1, b"no station is named, and numbers are written\n");
    report(q, table, 4, answer, answer, 0);
    false
}
