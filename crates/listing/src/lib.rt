// The rows that are written, from the marks of the new channels and the flags of the moves.
#![tactic(auto)]

ghost use Rattle.std.specs.Prelude.{◌+◌, ◌*◌, ◌≤◌};
ghost use Rattle.part73.specs.Channels.{channel_count, highest};
ghost use Rattle.marking.specs.Marks.{Asked};
ghost use Rattle.planning.specs.Flags.{Room};
ghost use Rattle.ground.specs.Writing.{Wrote};
ghost use Rattle.ground.specs.Puts.{Puts};
ghost use Rattle.desk.specs.Answers.{grant, Answered};
ghost use Rattle.listing.specs.Listing.{id_at, move_rows, channel_rows, all_rows, Surveyed};

use ground::Rows;
use marking::Channels;
use part73::{CHANNEL_COUNT, HIGHEST, LOWEST};
use planning::lone;
use refusals::Fault;
use stations::Table;

// What is found of new channels: a mark for each, and, where it is of one station alone, the flags of that one's moves.
#[derive(Clone, Copy)]
pub struct Findings<'a> {
    pub table: Table<'a>,
    pub channels: Channels,
    pub marks: &'a [u16; CHANNEL_COUNT],
    pub moves: &'a [[bool; CHANNEL_COUNT]],
    ghost asked: { Asked channels },
    ghost surveyed: { Surveyed table.image.now channels marks.now },
    ghost room: { Room channels moves.now },
}

// The rows of the moves of one station.
fn list_moves(row: &[bool; CHANNEL_COUNT], id: u32, c: usize, rows: &mut Rows)
    requires { (c ≤ highest) × (rows.old.at ≤ 100000) }
    ensures { Puts (move_rows row.now id c) rows.old rows.new }
{
    for m in LOWEST..HIGHEST + 1 {
        if row[m - LOWEST] {
            rows.put([c as u32, id, m as u32]);
        }
    }
}

impl Findings<'_> {
    // The rows of one new channel.
    fn list_channel(&self, c: usize, rows: &mut Rows)
        requires { (self.now.channels.first ≤ c) × (c ≤ self.now.channels.last) × (rows.old.at ≤ 100000) }
        ensures puts { let s = self.now in Puts (channel_rows (id_at s.table.image.now) s.marks.now s.channels.first s.moves.now c) rows.old rows.new }
        ensures upper_bound { rows.new.at ≤ rows.old.at + 3 * channel_count }
    {
        let mark = self.marks[c - LOWEST];
        if mark == 0 {
            rows.put([c as u32, 0, 0]);
        } else if let Some(i) = lone(mark) {
            let id = self.table.station_at(i).id;
            list_moves(&self.moves[c - self.channels.first], id, c, rows);
        }
    }

    // The rows of all of them, and the count of their numbers.
    fn list(&self, buffer: &mut [u32]) -> usize
        ensures { let s = self.now in (Wrote (all_rows (id_at s.table.image.now) s.marks.now s.channels s.moves.now) buffer.old 0 buffer.new result) × (result ≤ 3 * channel_count * channel_count) }
    {
        let mut rows = Rows::new(buffer);
        for c in self.channels.first..self.channels.last + 1 {
            self.list_channel(c, &mut rows);
        }
        rows.at
    }

    // The answer: the rows are counted, and then written where there is room.
    pub fn list_if_room(&self, rows: &mut [u32]) -> Result<u32, Fault>
        ensures { let s = self.now in Answered (grant (all_rows (id_at s.table.image.now) s.marks.now s.channels s.moves.now)) rows.old rows.new result }
    {
        let need = self.list(&mut [0; 1]) as u32;
        desk::room_fault(rows.len(), need)?;
        Ok(self.list(rows) as u32)
    }
}
