// The eight questions of the desk a second time: plain enumeration, numbers as sign and size, D by search; and the limit.
// An answer below 2^32 is granted (a count, D, or a place); any other is a refusal's number times 2^32 plus its extra number,
// as at the C interface, since both are compared.
#![tactic(auto)]

mod answer;
mod asked;
mod editing;
mod enumeration;
mod image;
mod limits;
mod reading;
mod reasoning;
mod rows;
mod shortness;
mod stations;
mod studies;
mod tables;
mod versions;

pub use editing::{add, move_to, withdraw};
pub use enumeration::arrange;
pub use limits::limit;
pub use reading::{distance, read};
pub use reasoning::reason;
pub use shortness::check;
