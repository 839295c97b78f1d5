// The programs: each tells all that it prints of its input.
#![tactic(auto)]

ghost use Rattle.std.specs.Prelude.{◌≡◌, ◌+◌, ◌-◌, ◌*◌, ◌≤◌, length};
ghost use Rattle.lines.specs.Puts.{Puts};
ghost use Rattle.part73.specs.Channels.{channel_count};
ghost use Rattle.asking.specs.Asking.{arrange_input};
ghost use Rattle.streams.specs.Tells.{Tells};
ghost use Rattle.programs.specs.OneChannel.{channel_text, is_denied};
ghost use Rattle.programs.specs.Printed.{printed_check, printed_arrange, printed_change, printed_distance, printed_study, printed_reason, printed_by};
ghost use Rattle.programs.specs.Ran.{Ran};

use asking::{asked_arrange, asked_change, asked_check, asked_distance, asked_reason, standard_of};
use lines::{LINE, REASON_LINE, Text};
use part73::{CHANNEL_COUNT, HIGHEST_ASKED, LOWEST_ASKED};
use streams::Unwritten;
use subjects::{AFTER_TERMS, Subject, subject_of};
use survey::Terms;
use telling::{
    hand_over, make_room, put_answer, tell_change, tell_check, tell_distance, tell_reason,
};

// What a program asks.
#[derive(Clone, Copy)]
pub enum Program {
    Check,
    Arrange,
    Change,
    Study,
    Reason,
}

// The most rows for one new channel: one station may go to all channels but its own.
const MOVES: usize = CHANNEL_COUNT - 1;

// The numbers of these rows, of all rows of a Check, and the bytes of the longest image.
const ROWS_OF_ONE: usize = 3 * MOVES;

const ROWS: usize = 3 * versions::LIMIT;

const IMAGE: usize = stations::HEADER + stations::RECORD * versions::LIMIT;

// The terms of the programs of 01: nobody is left aside, and Table A is the standard.
const PLAIN: Terms = Terms {
    aside: 0,
    standard: standards::BY_TABLE_A,
};

// Check, on its input.
fn check(input: &[u8], terms: Terms, mark: &mut usize) -> Result<(), Unwritten>
    ensures { Tells (printed_check terms input.now) mark.old mark.new result }
{
    let mut rows = [0u32; ROWS];
    let answer = asked_check(input, terms, &mut rows);
    let mut text = streams::space();
    tell_check(&mut text, &rows, answer, mark)
}

// The lines of one new channel, or the refusal's line; answers whether it was refused.
fn put_channel(text: &mut Text, input: &[u8], terms: Terms, channel: u32) -> bool
    requires { text.old.at + 33 * (channel_count - 1) ≤ length text.old.bytes.now }
    ensures puts { Puts (channel_text terms input.now channel) text.old text.new }
    ensures at_bound { text.new.at ≤ text.old.at + 33 * (channel_count - 1) }
    ensures refused { result ≡ is_denied (arrange_input channel channel terms input.now) }
{
    let mut rows = [0u32; ROWS_OF_ONE];
    let answer = asked_arrange(input, terms, channel, &mut rows);
    put_answer(text, &rows, answer)
}

// The new channels from 221 to 300, one at a time. What is refused for one is refused for all, so it stands alone.
fn tell_channels(
    text: &mut [u8],
    input: &[u8],
    terms: Terms,
    mark: &mut usize,
) -> Result<(), Unwritten>
    requires { 65536 ≤ length text.old }
    ensures { Tells (printed_arrange terms input.now) mark.old mark.new result }
{
    let mut lines = Text { bytes: text, at: 0 };
    for channel in LOWEST_ASKED..=HIGHEST_ASKED {
        make_room(&mut lines, LINE * MOVES, mark)?;
        let refused = put_channel(&mut lines, input, terms, channel);
        if refused {
            return hand_over(&lines, mark);
        }
    }
    hand_over(&lines, mark)
}

// Arrange, on its input, for the new channels from 221 to 300.
fn arrange(input: &[u8], terms: Terms, mark: &mut usize) -> Result<(), Unwritten>
    ensures { Tells (printed_arrange terms input.now) mark.old mark.new result }
{
    let mut text = streams::space();
    tell_channels(&mut text, input, terms, mark)
}

// Add, Withdraw or Move, on its input: the new image.
fn change(input: &[u8], mark: &mut usize) -> Result<(), Unwritten>
    ensures { Tells (printed_change input.now) mark.old mark.new result }
{
    let mut image = [0u8; IMAGE];
    let answer = asked_change(input, &mut image);
    tell_change(&mut image, answer, mark)
}

// The distance between two sites, on its input.
fn distance(input: &[u8], mark: &mut usize) -> Result<(), Unwritten>
    ensures { Tells (printed_distance input.now) mark.old mark.new result }
{
    let mut text = [0u8; LINE];
    let answer = asked_distance(input);
    tell_distance(&mut text, answer, mark)
}

// A study, on its input.
fn study(input: &[u8], mark: &mut usize) -> Result<(), Unwritten>
    ensures { Tells (printed_study input.now) mark.old mark.new result }
{
    match subject_of(input) {
        Subject::Check(terms) => check(&input[AFTER_TERMS..], terms, mark),
        Subject::Arrange(terms) => arrange(&input[AFTER_TERMS..], terms, mark),
        Subject::Distance => distance(input, mark),
    }
}

// The reason, on its input.
fn reason(input: &[u8], mark: &mut usize) -> Result<(), Unwritten>
    ensures { Tells (printed_reason input.now) mark.old mark.new result }
{
    let mut text = [0u8; REASON_LINE];
    let why = asked_reason(input);
    let standard = standard_of(input);
    tell_reason(&mut text, why, standard, mark)
}

// The program that is named, on its input.
fn tell(program: Program, input: &[u8], mark: &mut usize) -> Result<(), Unwritten>
    ensures { Tells (printed_by program input.now) mark.old mark.new result }
{
    match program {
        Program::Check => check(input, PLAIN, mark),
        Program::Arrange => arrange(input, PLAIN, mark),
        Program::Change => change(input, mark),
        Program::Study => study(input, mark),
        Program::Reason => reason(input, mark),
    }
}

// Runs a program on a descriptor; it writes to standard output. The input is read as far as 65,536 bytes: a longer one is answered
// as these are.
pub fn run(program: Program, fd: i32) -> Result<(), Unwritten>
    ensures { Ran (printed_by program) result }
{
    let mut input = streams::space();
    let size = streams::read(fd, &mut input);
    let mut mark: usize = 0;
    tell(program, &input[..size], &mut mark)
}
