// The cases whose answers are given: check and arrange with an id left aside, reason, read, across the 180th meridian, and by a
// standard.
use beside::{Implementation, NUMBERS, Second, compare_number, compare_reason, compare_rows};
use cases::{
    GIVEN_BYTES, Given, Kind, Question, UNTOLD, among_equals, distances_across, entered_twice,
    faulty_aside, lesser_columns, lone_headers, no_standards, odd_entries, reasons_aside,
    rows_aside, separations, studies_across,
};
use tally::{MOST, Notes, first_four, same_told, unlike};

// Whether the answer to read or distance is the given one.
pub(crate) fn number_as(q: Question, table: &[u8], number: u64, notes: &mut Notes) -> bool {
    if !compare_number(q, table, notes) {
        return false;
    }
    let answer = Second::number(q, table);
    answer == number || unlike(q, table, answer, number)
}

// Whether the answers to check or arrange, with all the room and with one place for rows, and the first four numbers of the rows
// are the given ones.
fn rows_as(given: Given, table: &[u8], notes: &mut Notes) -> bool {
    let q = given.question;
    if !compare_rows(q, table, NUMBERS, UNTOLD, notes)
        || !compare_rows(q, table, 1, UNTOLD, notes)
    {
        return false;
    }
    let mut rows = [UNTOLD; MOST];
    let answer = Second::rows(q, table, &mut rows);
    let first = first_four(&rows);
    let all = given.answer.with_room();
    if !same_told(q, table, answer, all, &first, &given.answer.told(), notes) {
        return false;
    }
    let narrow = Second::rows(q, table, &mut [0]);
    let one = given.answer.in_one_place();
    narrow == one || unlike(q, table, narrow, one)
}

// Whether the answer to reason, and the four numbers behind it, are the given ones.
fn reason_as(given: Given, table: &[u8], notes: &mut Notes) -> bool {
    let q = given.question;
    if !compare_reason(q, table, UNTOLD, notes) {
        return false;
    }
    let mut told = [UNTOLD; 4];
    let answer = Second::reason(q, table, &mut told);
    let wanted = given.answer;
    same_told(
        q,
        table,
        answer,
        wanted.with_room(),
        &told,
        &wanted.told(),
        notes,
    )
}

// Whether both implementations give the answer of a case.
fn given_as(given: Given, notes: &mut Notes) -> bool {
    let mut bytes = [0u8; GIVEN_BYTES];
    let length = given.scene.put(&mut bytes);
    let table = &bytes[..length];
    match given.question.kind {
        Kind::Read | Kind::Distance => {
            number_as(given.question, table, given.answer.with_room(), notes)
        }
        Kind::Reason => reason_as(given, table, notes),
        _ => rows_as(given, table, notes),
    }
}

// Whether they give those of all cases of an array.
fn all_as(cases: &[Given], notes: &mut Notes) -> bool {
    cases.iter().all(|given| given_as(*given, notes))
}

// Whether they tell the reasons of the paper's separations.
fn separations_told(notes: &mut Notes) -> bool {
    separations()
        .iter()
        .all(|separation| given_as(separation.reason(), notes))
}

// All of them, up to the first that differs; whether both implementations give these answers.
pub(crate) fn given_cases(notes: &mut Notes) -> bool {
    separations_told(notes)
        && all_as(&reasons_aside(), notes)
        && all_as(&rows_aside(), notes)
        && all_as(&among_equals(), notes)
        && all_as(&faulty_aside(), notes)
        && all_as(&lone_headers(), notes)
        && all_as(&distances_across(), notes)
        && all_as(&studies_across(), notes)
        && all_as(&lesser_columns(), notes)
        && all_as(&no_standards(), notes)
        && all_as(&odd_entries(), notes)
        && all_as(&entered_twice(), notes)
}
