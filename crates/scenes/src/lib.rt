// Made tables: numbers from a fixed seed, sites at the limits, records around what is asked, some that repeat others, and damage.
#![tactic(auto)]

mod chance;
mod damage;
mod image;
mod limits;
mod repeats;
mod sizes;
mod styles;
mod tables;
mod words;

pub use chance::{Chance, SEED, mixed};
pub use damage::damaged;
pub use image::{Record, put, put_any_header, put_header, put_record};
pub use limits::{at_limit, edge, separation};
pub use repeats::repeat_some;
pub use sizes::{IMAGE_BYTES, LIMIT, LINE, MOST, TABLE_BYTES};
pub use styles::Style;
pub use tables::{any_site, made_table, site_astride};
pub use words::Site;
