// What 47 CFR Part 73 decides: the classes that a zone permits, the column of a channel difference, the rows of Table A, and
// which row is that of two classes.
#![tactic(auto)]

ghost use Rattle.std.specs.Prelude.{◌≡◌, ◌≤◌, ◌<◌};
ghost use Rattle.part73.specs.Classes.{is_class, is_zone, permits};
ghost use Rattle.part73.specs.Columns.{gap, column, IsColumn};
ghost use Rattle.part73.specs.TableA.{table_a};
ghost use Rattle.part73.specs.Reading.{rows_of, RowOf};

// The channels that a new or a moved station may have.
pub const LOWEST: usize = 221;

pub const HIGHEST: usize = 300;

// The same, as they are asked for.
pub const LOWEST_ASKED: u32 = LOWEST as u32;

pub const HIGHEST_ASKED: u32 = HIGHEST as u32;

// How many they are.
pub const CHANNEL_COUNT: usize = 80;

// The separations of a table in km: one row for each pair of classes, in the order of the document; in a row, the four columns.
pub type Rows = [[u16; 4]; 36];

// Table A.
const TABLE_A: [[u16; 4]; 36] = [
    [115, 72, 31, 10],
    [143, 96, 48, 12],
    [178, 113, 69, 15],
    [142, 89, 42, 12],
    [166, 106, 55, 15],
    [200, 133, 75, 22],
    [215, 152, 86, 25],
    [226, 165, 95, 29],
    [175, 114, 50, 14],
    [211, 145, 71, 17],
    [175, 114, 50, 14],
    [200, 134, 56, 17],
    [233, 161, 77, 24],
    [248, 180, 87, 27],
    [259, 193, 105, 31],
    [241, 169, 74, 20],
    [211, 145, 71, 17],
    [241, 169, 74, 20],
    [270, 195, 79, 27],
    [272, 214, 89, 31],
    [274, 217, 105, 35],
    [153, 99, 43, 14],
    [177, 117, 56, 17],
    [211, 144, 76, 24],
    [226, 163, 87, 27],
    [237, 176, 96, 31],
    [190, 130, 58, 20],
    [224, 158, 79, 27],
    [239, 176, 89, 31],
    [249, 188, 105, 35],
    [245, 177, 82, 34],
    [259, 196, 94, 37],
    [270, 209, 105, 41],
    [270, 207, 96, 41],
    [281, 220, 105, 45],
    [290, 241, 105, 48],
];

// The rows of the document, for all that read the table.
pub fn table_rows() -> Rows
    ensures { result ≡ rows_of table_a }
{
    TABLE_A
}

// The row of two classes in the document's order is counted from the rows of the classes before.
fn ordered(lo: usize, hi: usize) -> usize
    requires { (lo ≤ hi) × (hi < 8) }
    ensures { RowOf lo hi result }
{
    lo * (15 - lo) / 2 + hi
}

// The row of two classes, in any order.
pub fn row_of(a: usize, b: usize) -> usize
    requires { (a < 8) × (b < 8) }
    ensures { RowOf a b result }
{
    ordered(a.min(b), a.max(b))
}

// Classes and zones are numbers and no enums: these functions answer for every number, and an enum would ask more of callers.
#[tactic(auto, unfolding(crate::specs::Classes::is_class))]
pub fn is_class(class: u32) -> bool
    ensures { result ≡ is_class class }
{
    class <= 7
}

#[tactic(auto, using(std::proofs::lemmas::Bool::Decides::nat_tests), unfolding(crate::specs::Classes::is_zone, ground::specs::Lists::some))]
pub fn is_zone(zone: u32) -> bool
    ensures { result ≡ is_zone zone }
{
    matches!(zone, 1..=3)
}

// The class may be authorized in the zone: A, B1 and B in zones I and I-A; A, and C3 to C, in zone II.
#[tactic(auto, using(std::proofs::lemmas::Bool::Decides::nat_tests), unfolding(crate::specs::Classes::permits, crate::specs::Classes::classes_of, ground::specs::Lists::some))]
pub fn permitted(zone: u32, class: u32) -> bool
    ensures { result ≡ permits zone class }
{
    match zone {
        1 | 2 => class <= 2,
        3 => matches!(class, 0 | 3..=7),
        _ => false,
    }
}

// The absolute difference of two channels.
#[tactic(auto, unfolding(crate::specs::Columns::gap))]
pub fn gap_of(x: usize, y: usize) -> usize
    ensures { result ≡ gap x y }
{
    x.abs_diff(y)
}

// The column that a channel difference reads, where there is a requirement.
#[tactic(auto, using(ground::proofs::Guards::guards), unfolding(crate::specs::Columns::column))]
pub fn column_of(d: usize) -> Option<usize>
    ensures { IsColumn (column d) result }
{
    match d {
        0 => Some(0),
        1 => Some(1),
        2 | 3 => Some(2),
        53 | 54 => Some(3),
        _ => None,
    }
}
