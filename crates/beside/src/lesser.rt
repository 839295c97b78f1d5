// Check, arrange and reason by the lesser table beside the same by Table A.
use crate::implementation::{First, Implementation};
use cases::{Kind, Question};
use tally::Notes;

// The first implementation's answer to check or arrange with one place for rows, or to reason.
fn briefly(q: Question, table: &[u8]) -> Option<u64> {
    match q.kind {
        Kind::Check | Kind::Arrange => Some(First::rows(q, table, &mut [0])),
        Kind::Reason => Some(First::reason(q, table, &mut [0; 4])),
        _ => None,
    }
}

// Counts such a question, and whether Table A answers it otherwise.
pub(crate) fn beside_table_a(q: Question, table: &[u8], notes: &mut Notes) {
    if q.standard != 2 {
        return;
    }
    let same = Question { standard: 1, ..q };
    if let (Some(lesser), Some(table_a)) = (briefly(q, table), briefly(same, table)) {
        notes.note_lesser(q.kind, lesser, table_a);
    }
}
