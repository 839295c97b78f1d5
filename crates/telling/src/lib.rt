// The answers of the programs, told in lines or as an image; they go to standard output.
#![tactic(auto)]

ghost use Rattle.std.specs.Prelude.{◌≡◌, ◌+◌, ◌-◌, ◌*◌, ◌≤◌, ◌<◌, length, take};
ghost use Rattle.lines.specs.Lines.{refused_line};
ghost use Rattle.lines.specs.Puts.{Puts};
ghost use Rattle.part73.specs.Channels.{channel_count};
ghost use Rattle.reasons.specs.Reason.{outcome_of};
ghost use Rattle.refusals.specs.Faults.{refusal};
ghost use Rattle.streams.specs.Pieces.{Roomed};
ghost use Rattle.streams.specs.Tells.{Tells};
ghost use Rattle.versions.specs.Version.{limit};
ghost use Rattle.telling.specs.Texts.{lines_text, short_text, image_text, distance_text, reason_text, printed};
ghost use Rattle.telling.specs.Told.{told, Within, is_refused};

use lines::{LINE, Text, put_clear, put_heading, put_lines, put_numbers, put_refusal};
use neighbours::Neighbour;
use refusals::{Fault, Refusal};
use streams::{Unwritten, hand, room};

// The numbers of the rows that are put between two looks at the room that is left.
const BATCH: usize = 3 * 500;

// Hands over what waits in a text.
pub fn hand_over(text: &Text, mark: &mut usize) -> Result<(), Unwritten>
    ensures { Tells (take text.now.at text.now.bytes.now) mark.old mark.new result }
{
    hand(&text.bytes[..text.at], mark)
}

// Makes room in a text for so many bytes more: where too few are left, what waits is handed over.
pub fn make_room(text: &mut Text, need: usize, mark: &mut usize) -> Result<(), Unwritten>
    requires { need ≤ length text.old.bytes.now }
    ensures same_text { text.new.bytes.now ≡ text.old.bytes.now }
    ensures same_reference { text.new.bytes.ghost_name ≡ text.old.bytes.ghost_name }
    ensures need_in_bounds { text.new.at + need ≤ length text.new.bytes.now }
    ensures roomed { Roomed text.old.bytes.now text.old.at mark.old text.new.at mark.new result }
{
    let mut at = text.at;
    // Lent as `&` from the field, its bytes would not be known afterwards.
    let bytes = &mut *text.bytes;
    let made = room(bytes, &mut at, need, mark);
    text.at = at;
    made
}

// The refusal's line alone.
fn tell_refusal(text: &mut [u8], fault: Fault, mark: &mut usize) -> Result<(), Unwritten>
    requires { 33 ≤ length text.old }
    ensures { Tells (refused_line (refusal fault)) mark.old mark.new result }
{
    let mut line = Text { bytes: text, at: 0 };
    put_refusal(&mut line, Refusal::from(fault));
    hand_over(&line, mark)
}

// `short K`, and K lines.
fn tell_short(text: &mut [u8], rows: &[u32], n: usize, mark: &mut usize) -> Result<(), Unwritten>
    requires { (65536 ≤ length text.old) × ((n ≤ length rows.now) × (n < 4294967296)) }
    ensures { Tells (short_text (take n rows.now)) mark.old mark.new result }
{
    let mut lines = Text { bytes: text, at: 0 };
    put_heading(&mut lines, (n / 3) as u32);
    for batch in rows[..n].chunks(BATCH) {
        make_room(&mut lines, LINE * BATCH / 3, mark)?;
        put_lines(&mut lines, batch);
    }
    hand_over(&lines, mark)
}

// The answer to a check.
pub fn tell_check(
    text: &mut [u8],
    rows: &[u32],
    answer: Result<u32, Fault>,
    mark: &mut usize,
) -> Result<(), Unwritten>
    requires { (65536 ≤ length text.old) × ((length rows.now ≡ 3 * limit) × (Within (length rows.now) answer)) }
    ensures { Tells (told short_text rows.now answer) mark.old mark.new result }
{
    match answer {
        Ok(n) => tell_short(text, rows, n as usize, mark),
        Err(fault) => tell_refusal(text, fault, mark),
    }
}

// The answer for one new channel, put into the text: its lines, or the refusal's line; answers whether it was refused. One station
// may go to all channels but its own.
pub fn put_answer(text: &mut Text, rows: &[u32], answer: Result<u32, Fault>) -> bool
    requires { (text.old.at + 33 * (channel_count - 1) ≤ length text.old.bytes.now) × ((length rows.now ≡ 3 * (channel_count - 1)) × (Within (length rows.now) answer)) }
    ensures puts { Puts (told lines_text rows.now answer) text.old text.new }
    ensures at_bound { text.new.at ≤ text.old.at + 33 * (channel_count - 1) }
    ensures refused { result ≡ is_refused answer }
{
    match answer {
        Ok(n) => {
            put_lines(text, &rows[..n as usize]);
            false
        }
        Err(fault) => {
            put_refusal(text, Refusal::from(fault));
            true
        }
    }
}

// The answer to a change.
pub fn tell_change(
    image: &mut [u8],
    answer: Result<u32, Fault>,
    mark: &mut usize,
) -> Result<(), Unwritten>
    requires { (length image.old ≡ 8 + 16 * limit) × (Within (length image.old) answer) }
    ensures { Tells (told image_text image.old answer) mark.old mark.new result }
{
    match answer {
        Ok(n) => hand(&image[..n as usize], mark),
        Err(fault) => tell_refusal(image, fault, mark),
    }
}

// A distance, or the refusal's line.
fn put_distance(text: &mut Text, answer: Result<u32, Fault>)
    requires { text.old.at + 33 ≤ length text.old.bytes.now }
    ensures { Puts (distance_text answer) text.old text.new }
{
    match answer {
        Ok(d) => put_numbers(text, &[d]),
        Err(fault) => put_refusal(text, Refusal::from(fault)),
    }
}

// The answer to the question for a distance.
pub fn tell_distance(
    text: &mut [u8],
    answer: Result<u32, Fault>,
    mark: &mut usize,
) -> Result<(), Unwritten>
    requires { 33 ≤ length text.old }
    ensures { Tells (distance_text answer) mark.old mark.new result }
{
    let mut line = Text { bytes: text, at: 0 };
    put_distance(&mut line, answer);
    hand_over(&line, mark)
}

// A reason, asked by a standard: its line, or the refusal's.
fn put_reason(text: &mut Text, why: Result<Option<Neighbour>, Fault>, standard: u32)
    requires { text.old.at + 55 ≤ length text.old.bytes.now }
    ensures { Puts (printed (reason_text standard) (outcome_of why)) text.old text.new }
{
    match why {
        Ok(None) => put_clear(text),
        Ok(Some(n)) => put_numbers(text, &[n.id, n.distance, n.separation, n.column, standard]),
        Err(fault) => put_refusal(text, Refusal::from(fault)),
    }
}

// The answer to the question for the reason, asked by a standard.
pub fn tell_reason(
    text: &mut [u8],
    why: Result<Option<Neighbour>, Fault>,
    standard: u32,
    mark: &mut usize,
) -> Result<(), Unwritten>
    requires { 55 ≤ length text.old }
    ensures { Tells (printed (reason_text standard) (outcome_of why)) mark.old mark.new result }
{
    let mut line = Text { bytes: text, at: 0 };
    put_reason(&mut line, why, standard);
    hand_over(&line, mark)
}
