// The table image: judged in the paper's order, read by position, and written.
#![tactic(auto)]

mod judging;
mod reading;
mod table;
mod writing;

pub use judging::judge;
pub use reading::{count_of, is_movable, record_from, station_at};
pub use table::Table;
pub use versions::{HEADER, RECORD};
pub use writing::{copy, put_header, put_station};

#[derive(Clone, Copy, Debug, PartialEq, Eq)]
pub struct Station {
    pub id: u32,
    pub channel: u16,
    pub class: u8,
    pub flags: u8,
    pub latitude: i32,
    pub longitude: i32,
}

const MARK: [u8; 3] = *b"FMS";

const FOUR_RECORDS: usize = 64;
