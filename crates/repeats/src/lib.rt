// Which record of a table repeats an earlier one: it agrees with it in channel, class, latitude and longitude.
#![tactic(auto)]

ghost use Rattle.std.specs.Prelude.{◌≡◌, ◌*◌, ◌/◌, ◌<◌};
ghost use Rattle.versions.specs.Version.{limit};
ghost use Rattle.repeats.specs.Repeats.{FirstRepeat};
ghost use Rattle.repeats.specs.Records.{subject_at, agrees, number, number_at, Holds, Twice, Compares};
ghost use Rattle.repeats.specs.Slots.{begin, onward, Kept, Sought};

use versions::{HEADER, LIMIT, RECORD};

// Where the ways begin.
const BUCKETS: usize = 4096;

const SLOTS: usize = BUCKETS + 2 * LIMIT;

// A position is handed on as twice itself, in halves of a record: where its own slots begin.
const HALF: usize = RECORD / 2;

// No position of a table, and above each, so that a way only goes up. An Option in its place would double what is cleared for a table.
const NONE: u16 = (2 * LIMIT) as u16;

// What of a record is compared but for the high byte of its channel: the low byte and its class in one number, and the bytes of its
// latitude and of its longitude in one each. The lowest byte comes first: so they are read at once.
#[derive(Clone, Copy, PartialEq)]
struct Subject {
    north: u32,
    east: u32,
    kind: u16,
}

fn subject_at(table: &[u8], own: usize) -> Subject
    requires { Twice table.now own }
    ensures { result ≡ subject_at table.now (own / 2) }
{
    let at = HEADER + HALF * own;
    Subject {
        north: wire::low(table, at + 8),
        east: wire::low(table, at + 12),
        kind: wire::low(table, at + 5),
    }
}

// Whether the record at a position agrees with an earlier one in channel, class, latitude and longitude.
fn agree(table: &[u8], own: usize, other: usize, r: Subject) -> bool
    requires { Compares table.now own other r }
    ensures { result ≡ agrees table.now (own / 2) (other / 2) }
{
    r == subject_at(table, other)
        && table[HEADER + HALF * own + 4] == table[HEADER + HALF * other + 4]
}

// A number that records which agree have in common.
#[tactic(auto, unfolding(crate::specs::Records::number))]
fn number_of(r: Subject) -> u64
    ensures { result ≡ number r }
{
    u64::from(r.kind) * 1_697_706_979
        + u64::from(r.north) * 1_652_984_621
        + u64::from(r.east) * 1_440_846_997
}

// Where the way of a number begins.
#[tactic(auto, unfolding(crate::specs::Slots::begin))]
fn beginning(number: u64) -> usize
    ensures { result ≡ begin number }
{
    (number / 1_048_576 % 4096) as usize
}

// Where a way goes on from a position.
#[tactic(auto, using(versions::proofs::Versions::limit_small), unfolding(crate::specs::Slots::onward))]
fn next_slot(other: usize, left: u64) -> usize
    requires { other < 2 * limit }
    ensures { result ≡ onward other left }
{
    BUCKETS + other + (left % 2) as usize
}

// The first empty slot on the way of the record at a position; the count of the slots where an earlier record agrees with it. An
// Option in its place takes 2.3 % more instructions for a table (callgrind: 206,702 for 201,990).
fn free_slot(table: &[u8], own: usize, slots: &[u16; SLOTS]) -> usize
    requires twice { Twice table.now own }
    requires kept { Kept (number_at table.now) slots.now (own / 2) }
    ensures { Sought (agrees table.now) (number_at table.now (own / 2)) slots.now (own / 2) result }
{
    let r = subject_at(table, own);
    let mut left = number_of(r);
    let mut slot = beginning(left);
    let mut met = slots[slot];
    while met != NONE {
        let other = met as usize;
        if agree(table, own, other, r) {
            return SLOTS;
        }
        slot = next_slot(other, left);
        left = left / 2;
        met = slots[slot];
    }
    slot
}

// The position of the first record that agrees with an earlier one, of the first n; n where none does, as `FirstRepeat` counts.
pub fn first_repeat(table: &[u8], n: usize) -> usize
    requires { Holds table.now n }
    ensures { FirstRepeat (agrees table.now) n result }
{
    let mut slots = [NONE; SLOTS];
    let end = 2 * n;
    let mut own: usize = 0;
    // By hand, in halves: `for i in 0..n` takes four instructions more for each record (callgrind).
    while own < end {
        let slot = free_slot(table, own, &slots);
        if slot == SLOTS {
            return own / 2;
        }
        slots[slot] = own as u16;
        own += 2;
    }
    n
}
