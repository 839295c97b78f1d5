// Rows, and whether they are the paper's.
use std::ops::RangeInclusive;

// Three numbers of a row.
#[derive(Clone, Copy, Debug, PartialEq, Eq)]
pub struct Row {
    pub a: u32,
    pub b: u32,
    pub c: u32,
}

// The most numbers in rows that the paper gives.
pub const MOST: usize = 1_752;

// The number at a place, 0 past the end.
fn at(rows: &[u32], place: usize) -> u32 {
    rows.get(place).copied().unwrap_or(0)
}

// The first four numbers of rows, 0 past the end.
pub fn first_four(rows: &[u32]) -> [u32; 4] {
    [at(rows, 0), at(rows, 1), at(rows, 2), at(rows, 3)]
}

// Whether a row starts at a place; past the end all numbers are 0.
pub fn stands(rows: &[u32], place: usize, row: Row) -> bool {
    let rest = rows.get(place..).unwrap_or_default();
    Row {
        a: at(rest, 0),
        b: at(rest, 1),
        c: at(rest, 2),
    } == row
}

// Whether a row, or the part of one at the end, has one of the new channels and moves an id, 0 for none.
fn moves(row: &[u32], channels: &RangeInclusive<u32>, id: u32) -> bool {
    channels.contains(&at(row, 0)) && at(row, 1) == id
}

// How many rows from a new channel to another move an id, 0 for none, of as many as the paper gives.
fn rows_with(rows: &[u32], channels: RangeInclusive<u32>, id: u32) -> usize {
    rows.chunks(3)
        .take(MOST / 3)
        .filter(|row| moves(row, &channels, id))
        .count()
}

// Whether 73 rows move nothing, and 73 move the station for each new channel from 257 to 263.
pub fn seventy_three(rows: &[u32]) -> bool {
    rows_with(rows, 221..=300, 0) == 73
        && (257..=263).all(|channel| rows_with(rows, channel..=channel, 7) == 73)
}
