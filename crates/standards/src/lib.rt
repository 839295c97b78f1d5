// The table of separations that a standard chooses: its rows, one of its separations, the co-channel ones of a class, and its squares.
#![tactic(auto)]

ghost use Rattle.std.specs.Prelude.{◌≡◌, ℕ, ◌<◌};
ghost use Rattle.part73.specs.Standards.{is_standard, chosen};
ghost use Rattle.part73.specs.Reading.{rows_of, Tabled, CoChannel};
ghost use Rattle.squares.specs.Squares.{squared_limits};

mod lesser_table;

use lesser_table::{LESSER_ROWS, LESSER_SQUARES};
use part73::{Rows, row_of};
use squares::Squares;

// The standards: Table A of 73.207(b)(1), and the lesser separations of 73.215(e). They are numbers and no enum, since each function
// answers for every number: an enum would ask more of callers.
pub const BY_TABLE_A: u32 = 1;

pub const BY_LESSER: u32 = 2;

// Whether a number is a standard.
#[tactic(auto, unfolding(part73::specs::Standards::is_standard))]
pub fn is_standard(standard: u32) -> bool
    ensures { result ≡ is_standard standard }
{
    matches!(standard, BY_TABLE_A | BY_LESSER)
}

// The rows of the chosen table. A constant is made anew wherever it is named, so a pass reads the rows once and lends them on.
pub fn rows_by(standard: u32) -> Rows
    ensures { result ≡ rows_of (chosen standard) }
{
    if standard == BY_LESSER {
        LESSER_ROWS
    } else {
        part73::table_rows()
    }
}

// The separation of two classes, in any order, at a column, by rows that are lent.
pub fn separation(rows: &Rows, a: usize, b: usize, column: usize) -> u16
    requires { (a < 8) × (b < 8) × (column < 4) }
    ensures { (km : ℕ → ℕ → ℕ → ℕ) → Tabled km rows.now → result ≡ km a b column }
{
    rows[row_of(a, b)][column]
}

// The co-channel separations of a class against each of the eight, by the chosen table.
pub fn co_channel_of(standard: u32, class: usize) -> [u16; 8]
    requires { class < 8 }
    ensures { CoChannel (chosen standard) class result }
{
    let table = rows_by(standard);
    let mut out = [0; 8];
    for b in 0..8 {
        out[b] = separation(&table, class, b, 0);
    }
    out
}

// The squared limits of the chosen table: read once for a question and lent on. The choice is that of `rows_by`, and stands twice,
// since one function for both would be handed two tables ready made.
pub fn squares_by(standard: u32) -> Squares
    ensures { result ≡ squared_limits (chosen standard) }
{
    if standard == BY_LESSER {
        LESSER_SQUARES
    } else {
        squares::by_table_a()
    }
}
