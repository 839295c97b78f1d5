// The squared limits that the pair rule holds S to: a table for all pairs of classes, and one entry of it.
#![tactic(auto)]

ghost use Rattle.std.specs.Prelude.{◌≡◌};
ghost use Rattle.part73.specs.TableA.{table_a};
ghost use Rattle.squares.specs.Squares.{squared_limits, limit_for};

mod table_a;

use table_a::SQUARED_LIMITS;

// A table: by the class of one station, the class of the other, and the column.
pub type Squares = [[[u64; 4]; 8]; 8];

// The table of Table A. A constant is made anew wherever it is named, so a question reads it once and lends it on.
pub fn by_table_a() -> Squares
    ensures { result ≡ squared_limits table_a }
{
    SQUARED_LIMITS
}

// The limit of two classes at a column; 0 where there is none.
#[tactic(auto, using(crate::proofs::Rule::no_class, crate::proofs::Rule::no_other, crate::proofs::Rule::past_columns, crate::proofs::Rule::stands), unfolding(part73::specs::Classes::is_class))]
pub fn limit_for(a: u32, b: u32, column: u32) -> u64
    ensures { result ≡ limit_for table_a a b column }
{
    if part73::is_class(a) && part73::is_class(b) && column <= 3 {
        let squares = by_table_a();
        return squares[a as usize][b as usize][column as usize];
    }
    0
}
