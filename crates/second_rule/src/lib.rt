// The pair rule a second time: Table A and the lesser table in numbers of twelve digits, the distance by numbers as sign and size.

#![tactic(auto)]

mod chosen;
mod groups;
mod lesser;
mod signed;
mod sites;
mod table_a;

pub use chosen::{LESSER, TABLE_A, separation};
pub use sites::{LATITUDES, LONGITUDES, kilometres};
pub use table_a::{column, limit};
