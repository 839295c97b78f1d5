// What an input of `fm_study` asks: its letter, and the terms after it.
#![tactic(auto)]

ghost use Rattle.std.specs.Prelude.{◌≡◌, ◌+◌, ◌≤◌, length};
ghost use Rattle.subjects.specs.Subjects.{terms_length, terms_at, subject_of};

use survey::Terms;

// How many bytes terms take, and a letter and terms.
pub const TERMS: usize = 5;

pub const AFTER_TERMS: usize = 1 + TERMS;

// What is studied, and on which terms.
#[derive(Clone, Copy, Debug, PartialEq, Eq)]
pub enum Subject {
    Check(Terms),
    Arrange(Terms),
    Distance,
}

// The terms of a study, from a place on: the id left aside, and the standard.
pub fn terms_at(input: &[u8], at: usize) -> Terms
    requires { at + terms_length ≤ length input.now }
    ensures { result ≡ terms_at input.now at }
{
    Terms {
        aside: wire::get(input, at),
        standard: u32::from(wire::get::<u8>(input, at + 4)),
    }
}

// What a study is of, by its letter: a question about a table, for which what the program of 01 reads follows the terms, or a
// distance.
#[tactic(auto, using(ground::proofs::Guards::guards), unfolding(crate::specs::Subjects::subject_of, ground::specs::Guard::given))]
pub fn subject_of(input: &[u8]) -> Subject
    ensures { result ≡ subject_of input.now }
{
    if input.len() < AFTER_TERMS {
        return Subject::Distance;
    }
    let letter: u8 = wire::get(input, 0);
    match letter {
        b'c' => Subject::Check(terms_at(input, 1)),
        b'a' => Subject::Arrange(terms_at(input, 1)),
        _ => Subject::Distance,
    }
}
