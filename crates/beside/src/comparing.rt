// One question put to both implementations: answers and whole buffers compared, counted and mixed into the digest.
ghost use Rattle.std.specs.Prelude.{◌≤◌};

use crate::implementation::{First, Implementation, Second};
use crate::lesser::beside_table_a;
use cases::{Kind, Question, UNTOLD};
use scenes::{Chance, IMAGE_BYTES};
use tally::{Notes, PLENTY, alike, kept, needed, room_for, same, same_told};

// The places of a buffer for an image.
pub const IMAGE_ROOM: usize = IMAGE_BYTES + PLENTY;

// The places of a buffer for rows: three numbers for each of 80 new channels and 79 moves.
pub const NUMBERS: usize = 3 * 80 * 79 + PLENTY;

// So many places are lent of short buffers, which cost little to fill.
const FEW: usize = 512;

// Two buffers for images, filled only as far as they are used.
#[derive(Drop)]
pub struct Images {
    pub mine: [u8; IMAGE_ROOM],
    pub other: [u8; IMAGE_ROOM],
}

impl Images {
    // Two buffers of zeros.
    pub fn new() -> Images {
        Images {
            mine: [0; IMAGE_ROOM],
            other: [0; IMAGE_ROOM],
        }
    }
}

// Read or distance.
pub fn compare_number(q: Question, table: &[u8], notes: &mut Notes) -> bool {
    let one = First::number(q, table);
    let two = Second::number(q, table);
    notes.note(q.kind, one);
    same(q, table, 0, one, two, 0)
}

// Check or arrange, into so many places of two buffers of N alike, all of them where that is more. The buffers are filled in place, and
// as N is any number the proof unfolds none of their places.
fn rows_within<const N: usize>(
    q: Question,
    table: &[u8],
    places: usize,
    filling: u32,
    notes: &mut Notes,
) -> bool
    requires { N ≤ 19260 }
{
    let room = places.min(N);
    let mut mine = [filling; N];
    let mut other = [filling; N];
    let one = First::rows(q, table, &mut mine[..room]);
    let two = Second::rows(q, table, &mut other[..room]);
    notes.note(q.kind, one);
    let at = alike(&mine[..room], &other[..room], notes);
    same(q, table, room, one, two, at)
}

// Check or arrange, into so many places of two buffers alike, all of them where that is more.
pub fn compare_rows(
    q: Question,
    table: &[u8],
    places: usize,
    filling: u32,
    notes: &mut Notes,
) -> bool {
    if places <= FEW {
        rows_within::<FEW>(q, table, places, filling, notes)
    } else {
        rows_within::<NUMBERS>(q, table, places, filling, notes)
    }
}

// Reason, into two times four numbers alike.
pub fn compare_reason(q: Question, table: &[u8], filling: u32, notes: &mut Notes) -> bool {
    let mut mine = [filling; 4];
    let mut other = [filling; 4];
    let one = First::reason(q, table, &mut mine);
    let two = Second::reason(q, table, &mut other);
    notes.note_reason(one, &mine);
    same_told(q, table, one, two, &mine, &other, notes) && kept(q, table, one, &mine, filling)
}

// A question with an image, with some room.
fn image_case(
    chance: &mut Chance,
    q: Question,
    table: &[u8],
    mine: &mut [u8],
    other: &mut [u8],
    notes: &mut Notes,
) -> bool {
    let need = needed(First::image(q, table, &mut [0]));
    let room = room_for(chance, need).min(mine.len()).min(other.len());
    let filling = chance.below(256) as u8;
    mine[..room].fill(filling);
    other[..room].fill(filling);
    let one = First::image(q, table, &mut mine[..room]);
    let two = Second::image(q, table, &mut other[..room]);
    notes.note_image(q.kind, one, table, &mine[..room]);
    let at = alike(&mine[..room], &other[..room], notes);
    same(q, table, room, one, two, at)
}

// A question with rows, with some room.
fn rows_case(chance: &mut Chance, q: Question, table: &[u8], notes: &mut Notes) -> bool {
    let need = needed(First::rows(q, table, &mut [0]));
    let places = room_for(chance, need);
    let filling = chance.below(4_294_967_295);
    compare_rows(q, table, places, filling, notes)
}

// A question of any kind, with some room; two buffers are lent for images, and filled only as far as they are used.
pub fn compare(
    chance: &mut Chance,
    q: Question,
    table: &[u8],
    mine: &mut [u8],
    other: &mut [u8],
    notes: &mut Notes,
) -> bool {
    notes.note_meridian(q, table);
    beside_table_a(q, table, notes);
    match q.kind {
        Kind::Read | Kind::Distance => compare_number(q, table, notes),
        Kind::Add | Kind::Withdraw | Kind::Move => image_case(chance, q, table, mine, other, notes),
        Kind::Check | Kind::Arrange => rows_case(chance, q, table, notes),
        Kind::Reason => {
            let filling = chance.below(4_294_967_295);
            compare_reason(q, table, filling, notes)
        }
    }
}
