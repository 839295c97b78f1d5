// The two implementations side by side: a question put to each, and what they answer compared.
#![tactic(auto)]

mod comparing;
mod implementation;
mod lesser;

pub use comparing::{
    IMAGE_ROOM, Images, NUMBERS, compare, compare_number, compare_reason, compare_rows,
};
pub use implementation::{First, Implementation, Second};
