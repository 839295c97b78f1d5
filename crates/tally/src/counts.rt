// How often each question was answered in each way, and the digest of all answers and buffers.
ghost use Rattle.std.specs.Prelude.{◌<◌, ◌≤◌, length};

use super::meridian::is_across;
use super::shown::{number_of, print_number};
use super::told::names;
use cases::{Kind, Question};
use scenes::{SEED, mixed};

// The questions, in the order of their counts.
const KINDS: [Kind; 8] = [
    Kind::Read,
    Kind::Distance,
    Kind::Add,
    Kind::Withdraw,
    Kind::Move,
    Kind::Check,
    Kind::Arrange,
    Kind::Reason,
];

// The numbers that an answer may have: 0 where it is granted, else the refusal's.
const NUMBERS: usize = 28;

// The number of a table in which a record repeats an earlier one.
const REPEATED: usize = 27;

// What was counted, and the digest.
#[derive(Clone, Copy, Debug, PartialEq, Eq)]
pub struct Notes {
    // The answers to each question, by number.
    answers: [[u64; NUMBERS]; 8],
    // The reasons that name a station, by column, behind those that name none.
    reasons: [u64; 5],
    // The granted images, by the versions of the table and of the image.
    images: [[u64; 2]; 2],
    // The questions across the 180th meridian.
    across: [u64; 8],
    // The questions by the lesser table, and those of them that Table A answers otherwise.
    lesser: [u64; 8],
    otherwise: [u64; 8],
    digest: u64,
}

// Adds one to a count.
fn count(place: &mut u64) {
    *place = place.wrapping_add(1);
}

// 1 where an image is of version 2, else 0.
fn upper(image: &[u8]) -> usize
    ensures { result ≤ 1 }
{
    if image.get(4) == Some(&2) { 1 } else { 0 }
}

// Whether a question can be answered with a number.
fn is_possible(kind: Kind, number: usize) -> bool {
    match number {
        0 => true,
        1..=12 | REPEATED => kind != Kind::Distance,
        13 => !matches!(kind, Kind::Read | Kind::Distance | Kind::Withdraw),
        14..=16 => matches!(kind, Kind::Add | Kind::Check | Kind::Arrange | Kind::Reason),
        17 => !matches!(kind, Kind::Read | Kind::Withdraw | Kind::Move),
        18 | 19 | 21 => kind == Kind::Add,
        20 => matches!(kind, Kind::Add | Kind::Move),
        22 => !matches!(kind, Kind::Read | Kind::Distance | Kind::Reason),
        23 => !matches!(kind, Kind::Read | Kind::Distance | Kind::Add),
        24 => kind == Kind::Distance,
        25 => kind == Kind::Move,
        26 => matches!(kind, Kind::Check | Kind::Arrange | Kind::Reason),
        _ => false,
    }
}

// Writes counts, and gives how many of them are 0.
fn print_each(counts: &[u64]) -> usize
    ensures { result ≤ length counts.now }
{
    let mut missing = 0;
    for &count in counts {
        print_number(count);
        if count == 0 {
            missing += 1;
        }
    }
    missing
}

impl Notes {
    // Notes before the first question.
    pub fn new() -> Self {
        Notes {
            answers: [[0; NUMBERS]; 8],
            reasons: [0; 5],
            images: [[0; 2]; 2],
            across: [0; 8],
            lesser: [0; 8],
            otherwise: [0; 8],
            digest: SEED,
        }
    }

    // Mixes a number into the digest.
    pub(crate) fn mix(&mut self, value: u64) {
        self.digest = mixed(self.digest).wrapping_add(value);
    }

    // Counts an answer, and mixes it into the digest.
    pub fn note<K: Into<Kind>>(&mut self, kind: K, answer: u64) {
        let kind: Kind = kind.into();
        let number = number_of(answer) as usize % NUMBERS;
        count(&mut self.answers[kind as usize][number]);
        self.mix(answer);
    }

    // Counts an answer to add, withdraw or move, by the versions of the table and of the image too where it is granted.
    pub fn note_image<K: Into<Kind>>(&mut self, kind: K, answer: u64, table: &[u8], image: &[u8]) {
        self.note(kind, answer);
        if number_of(answer) == 0 {
            count(&mut self.images[upper(table)][upper(image)]);
        }
    }

    // Counts an answer to reason, by its column too where it names a station.
    pub fn note_reason(&mut self, answer: u64, told: &[u32; 4]) {
        self.note(Kind::Reason, answer);
        if answer == 0 {
            count(&mut self.reasons[0]);
        }
        if names(answer) {
            count(&mut self.reasons[1 + told[3] as usize % 4]);
        }
    }

    // Counts a question by the lesser table, and whether Table A answers it otherwise.
    pub fn note_lesser<K: Into<Kind>>(&mut self, kind: K, lesser: u64, table_a: u64) {
        let kind: Kind = kind.into();
        count(&mut self.lesser[kind as usize]);
        if lesser != table_a {
            count(&mut self.otherwise[kind as usize]);
        }
    }

    // Counts a question whose two sites are near each other on the two sides of the 180th meridian, or its site and that of some
    // record.
    pub fn note_meridian(&mut self, q: Question, table: &[u8]) {
        if is_across(q, table) {
            count(&mut self.across[q.kind as usize]);
        }
    }

    // How often a table was refused because a record repeats an earlier one.
    pub fn repeats(&self) -> u64 {
        let mut repeats: u64 = 0;
        for numbers in &self.answers {
            repeats = repeats.wrapping_add(numbers[REPEATED]);
        }
        repeats
    }

    // Writes the counts of one number, `-` where a question is never answered so, and gives how many questions can be and never were.
    fn print_line(&self, number: usize) -> usize
        requires { number < NUMBERS }
        ensures { result ≤ 8 }
    {
        io::print_decimal(1, number as u64);
        let mut missing = 0;
        for kind in KINDS {
            if is_possible(kind, number) {
                missing += print_each(&[self.answers[kind as usize][number]]);
            } else {
                io::write_all(1, b" -");
            }
        }
        io::write_all(1, b"\n");
        missing
    }

    // Writes the counts number by number, and gives how many of the possible answers never came.
    fn print_lines(&self) -> usize
        ensures { result ≤ 224 }
    {
        let mut missing = 0;
        for number in 0..NUMBERS {
            missing += self.print_line(number);
        }
        missing
    }

    // Writes the counts of the reasons, of the granted images, of the questions across the 180th meridian and by the lesser table, and
    // gives how many of these ways never came.
    fn print_ways(&self) -> usize
        ensures { result ≤ 23 }
    {
        io::write_all(1, b"reason: clear, and blocked by column:");
        let reasons = print_each(&self.reasons);
        io::write_all(
            1,
            b"\ngranted image: version 1 from 1, 2 from 1, 1 from 2, 2 from 2:",
        );
        let images = print_each(&self.images[0]) + print_each(&self.images[1]);
        io::write_all(1, b"\nquestions across the 180th meridian:");
        let across = print_each(&self.across);
        io::write_all(
            1,
            b"\ncheck, arrange and reason by the lesser table, and those that Table A answers with another count or station:",
        );
        let lesser = print_each(&self.lesser[5..]) + print_each(&self.otherwise[5..]);
        io::write_all(1, b"\n");
        reasons + images + across + lesser
    }

    // Writes all counts, how many of the possible answers never came, and the digest.
    pub fn print(&self) {
        io::write_all(
            1,
            b"number: read distance add withdraw move check arrange reason\n",
        );
        let missing = self.print_lines() + self.print_ways();
        io::write_all(1, b"possible answers that never came: ");
        io::print_decimal(1, missing as u64);
        io::write_all(1, b"\ndigest ");
        io::print_hex(1, self.digest, 16);
        io::write_all(1, b"\n");
    }
}
