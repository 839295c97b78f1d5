// The limits of two classes at a column: all pairs of classes in both orders, all columns, and one class and one column more; and
// questions on both sides of each limit by either standard.
use beside::{First, Implementation, Second, compare_reason, compare_rows};
use cases::{CHANNELS, Kind, Side, UNTOLD, put_seven};
use tally::Notes;

// Whether both implementations tell the same limit; else writes for which classes and column they do not.
fn limit_alike(a: u32, b: u32, column: u32) -> bool {
    if First::limit(a, b, column) == Second::limit(a, b, column) {
        return true;
    }
    io::write_all(
        1,
        b"the limits differ; 45 times the first class, 5 times the second, and the column: ",
    );
    let place = 45 * u64::from(a) + 5 * u64::from(b) + u64::from(column);
    io::print_decimal(1, place);
    io::write_all(1, b"\n");
    false
}

// Whether both implementations tell the same limits, up to the first difference.
pub(crate) fn limits_alike() -> bool {
    (0..9).all(|a| (0..9).all(|b| (0..5).all(|column| limit_alike(a, b, column))))
}

// Check, reason and arrange on one side of a limit; whether both implementations answer alike.
fn side_alike(side: Side, notes: &mut Notes) -> bool {
    let mut table = [0u8; 24];
    put_seven(&mut table, 240, side.station, 0);
    compare_rows(side.question(Kind::Check), &table, 3, UNTOLD, notes)
        && compare_reason(side.question(Kind::Reason), &table, UNTOLD, notes)
        && compare_rows(side.question(Kind::Arrange), &table, 1, UNTOLD, notes)
}

// The same on both sides of the limits of two classes by a standard.
fn classes_alike(standard: u32, station: u32, class: u32, notes: &mut Notes) -> bool {
    for channel in CHANNELS {
        for less in 0..2 {
            let side = Side {
                standard,
                station,
                class,
                channel,
                less,
            };
            if !side_alike(side, notes) {
                return false;
            }
        }
    }
    true
}

// The same on both sides of all limits, up to the first difference.
pub(crate) fn sides_alike(notes: &mut Notes) -> bool {
    for standard in 1..=2 {
        for station in 0..8 {
            for class in 0..8 {
                if !classes_alike(standard, station, class, notes) {
                    return false;
                }
            }
        }
    }
    true
}
