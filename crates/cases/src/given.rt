// A case with its answer.
ghost use Rattle.std.specs.Prelude.{◌≡◌};
ghost use Rattle.cases.specs.Answers.{packed, with_room, in_one_place, told};

use super::paper::paper_question;
use super::question::{Kind, Question};
use super::scene::Scene;

// What the places of a buffer hold before a question is asked, and hold still where nothing is told.
pub const UNTOLD: u32 = 4_294_967_295;

// An answer.
#[derive(Clone, Copy)]
pub enum Answer {
    // A number, or 0 for no row or clear; nothing is told.
    Number(u32),
    // A refusal with its number, as the C interface has it, and its extra number; nothing is told.
    Refused(u32, u32),
    // The count of the numbers in rows, and the first four places of their buffer; refused with 22 where one place is lent.
    Rows(u32, [u32; 4]),
    // The place of a station, and the four numbers that a reason tells.
    Station(u32, [u32; 4]),
}

// An answer as it is packed: a refusal's number above its extra number.
fn packed(number: u32, extra: u32) -> u64
    ensures { result ≡ packed number extra }
{
    u64::from(number) * 4_294_967_296 + u64::from(extra)
}

impl Answer {
    // As it is packed, with all the room for rows.
    pub fn with_room(self) -> u64
        ensures { result ≡ with_room self }
    {
        match self {
            Answer::Number(number) => packed(0, number),
            Answer::Refused(number, extra) => packed(number, extra),
            Answer::Rows(count, _) => packed(0, count),
            Answer::Station(place, _) => packed(0, place),
        }
    }

    // As it is packed, with one place for rows.
    pub fn in_one_place(self) -> u64
        ensures { result ≡ in_one_place self }
    {
        match self {
            Answer::Rows(count, _) => packed(22, count),
            other => other.with_room(),
        }
    }

    // The first four numbers behind it.
    pub fn told(self) -> [u32; 4]
        ensures { result ≡ told self }
    {
        match self {
            Answer::Rows(_, told) | Answer::Station(_, told) => told,
            _ => [UNTOLD; 4],
        }
    }
}

// A table, a question on it, and the answer.
#[derive(Clone, Copy)]
pub struct Given {
    pub scene: Scene,
    pub question: Question,
    pub answer: Answer,
}

impl Scene {
    // The answer to class A in zone II from a channel on, at a longitude on the equator, with an id left aside, by Table A.
    pub(crate) fn asked(
        self,
        kind: Kind,
        channel: u32,
        lon: u32,
        aside: u32,
        answer: Answer,
    ) -> Given
        ensures { (result.question.channel ≡ channel) × (result.answer ≡ answer) }
    {
        Given {
            scene: self,
            question: Question {
                id: aside,
                ..paper_question(kind, channel, 300, 0, lon)
            },
            answer,
        }
    }
}

impl Given {
    // The same by a standard.
    pub(crate) fn by(self, standard: u32) -> Given
        ensures { result.question.standard ≡ standard }
    {
        Given {
            question: Question {
                standard,
                ..self.question
            },
            ..self
        }
    }

    // The same for a class.
    pub(crate) fn of_class(self, class: u32) -> Given
        ensures { (result.question.class ≡ class) × (result.question.channel ≡ self.question.channel) }
    {
        Given {
            question: Question {
                class,
                ..self.question
            },
            ..self
        }
    }
}
