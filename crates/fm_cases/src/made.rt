// Runs of made cases.
use beside::{Images, compare};
use cases::{Run, made_runs};
use scenes::{Chance, SEED, TABLE_BYTES};
use tally::Notes;

// Room for the longest table that is made.
type Table = [u8; TABLE_BYTES];

// One made case.
fn one_case(
    run: Run,
    chance: &mut Chance,
    table: &mut Table,
    images: &mut Images,
    notes: &mut Notes,
) -> bool {
    let (q, length) = run.made_case(chance, table);
    compare(
        chance,
        q,
        &table[..length],
        &mut images.mine,
        &mut images.other,
        notes,
    )
}

// Whether no more tables were refused for a repeat than before; else says so.
fn none_repeated(before: u64, notes: &Notes) -> bool {
    let now = notes.repeats();
    if now == before {
        return true;
    }
    io::write_all(
        1,
        b"a record repeats another in a table that is made without repeats; refused so before and by now: ",
    );
    io::print_decimal(1, before);
    io::write_all(1, b" ");
    io::print_decimal(1, now);
    io::write_all(1, b"\n");
    false
}

// The cases of a run, up to the first difference; whether there is none, and no repeat that is not meant.
fn run_cases(
    run: Run,
    chance: &mut Chance,
    table: &mut Table,
    images: &mut Images,
    notes: &mut Notes,
) -> bool {
    let before = notes.repeats();
    for _ in 0..run.cases {
        if !one_case(run, chance, table, images, notes) {
            return false;
        }
    }
    run.repeats() || none_repeated(before, notes)
}

// All made cases, up to the first difference; whether there is none.
pub(crate) fn made_cases(notes: &mut Notes) -> bool {
    let mut table = [0u8; TABLE_BYTES];
    let mut images = Images::new();
    let mut chance = Chance::new(SEED);
    for run in made_runs() {
        if !run_cases(run, &mut chance, &mut table, &mut images, notes) {
            return false;
        }
    }
    true
}
