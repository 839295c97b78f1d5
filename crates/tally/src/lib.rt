// The answers of `fm_cases` compared, counted by question and number and mixed into a digest, and the first difference shown.
#![tactic(auto)]

mod counts;
mod likeness;
mod meridian;
mod room;
mod rows;
mod shown;
mod told;

pub use counts::Notes;
pub use likeness::{alike, same};
pub use room::{PLENTY, needed, room_for};
pub use rows::{MOST, Row, first_four, seventy_three, stands};
pub use shown::unlike;
pub use told::{kept, same_told};
