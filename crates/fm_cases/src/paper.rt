// The paper's cases, with the numbers that it gives.
use super::given::number_as;
use beside::{First, Implementation, NUMBERS, Second, compare_rows};
use cases::{Kind, Question, UNTOLD, paper_question, put_seven, separations};
use scenes::put_header;
use tally::{MOST, Notes, Row, seventy_three, stands, unlike};

// A question with rows whose count, and one row at a place, the paper gives.
fn rows_as(
    q: Question,
    table: &[u8],
    count: u64,
    place: usize,
    row: Row,
    notes: &mut Notes,
) -> bool {
    if !compare_rows(q, table, NUMBERS, UNTOLD, notes) {
        return false;
    }
    let mut rows = [0u32; MOST];
    let answer = Second::rows(q, table, &mut rows);
    answer == count && stands(&rows, place, row) || unlike(q, table, answer, count)
}

// Whether D of two points on the equator, so many seconds from each other, is the paper's.
fn distance_as(seconds: u32, km: u64, notes: &mut Notes) -> bool {
    let q = paper_question(Kind::Distance, 0, 0, 0, seconds);
    number_as(q, b"", km, notes)
}

// Whether a station of a class is short to a proposal of that class with the paper's D and R.
fn short_as(
    station: u32,
    class: u32,
    channel: u32,
    seconds: u32,
    row: Row,
    notes: &mut Notes,
) -> bool {
    let mut table = [0u8; 24];
    put_seven(&mut table, station, class, 0);
    let q = paper_question(Kind::Check, channel, channel, class, seconds);
    rows_as(q, &table, 3, 0, row, notes)
}

// Whether all of the paper's separations are.
fn separations_as(notes: &mut Notes) -> bool {
    separations().iter().all(|s| {
        let row = Row {
            a: 7,
            b: 0,
            c: s.km,
        };
        short_as(240, s.class, s.channel, 0, row, notes)
    })
}

// The question for all arrangements of class A at the crossing of equator and meridian.
fn all_channels() -> Question {
    paper_question(Kind::Arrange, 221, 300, 0, 0)
}

// Whether the arrangements of the empty table are the paper's.
fn empty_as(notes: &mut Notes) -> bool {
    let mut table = [0u8; 8];
    put_header(&mut table, 0);
    let row = Row { a: 300, b: 0, c: 0 };
    rows_as(all_channels(), &table, 240, 237, row, notes)
}

// Whether the arrangements beside one station on channel 260, movable or fixed, are the paper's.
fn one_as(flags: u32, count: u64, row: Row, notes: &mut Notes) -> bool {
    let mut table = [0u8; 24];
    put_seven(&mut table, 260, 0, flags);
    rows_as(all_channels(), &table, count, 108, row, notes)
}

// Whether that holds of the rows beside the movable station.
fn moves_as() -> bool {
    let mut table = [0u8; 24];
    put_seven(&mut table, 260, 0, 0);
    let mut rows = [0u32; MOST];
    First::rows(all_channels(), &table, &mut rows);
    if seventy_three(&rows) {
        return true;
    }
    io::write_all(
        1,
        b"the rows of the one movable station are not the paper's\n",
    );
    false
}

// The arrangements that the paper gives.
fn arrangements_as(notes: &mut Notes) -> bool {
    let unmoved = Row { a: 264, b: 0, c: 0 };
    let moved = Row {
        a: 257,
        b: 7,
        c: 221,
    };
    empty_as(notes)
        && one_as(1, 219, unmoved, notes)
        && one_as(0, 1_752, moved, notes)
        && moves_as()
}

// All of the paper's cases that are not proved as P1 to P12, with the distances that its separation of 115 km turns on; whether both
// implementations give its numbers.
pub(crate) fn paper_cases(notes: &mut Notes) -> bool {
    let row = Row {
        a: 7,
        b: 114,
        c: 115,
    };
    short_as(250, 0, 250, 3_702, row, notes)
        && distance_as(3_702, 114, notes)
        && distance_as(3_703, 115, notes)
        && separations_as(notes)
        && arrangements_as(notes)
}
