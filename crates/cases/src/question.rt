// A question with its numbers.
use scenes::Site;

// Which question.
#[derive(Clone, Copy, Debug, PartialEq, Eq)]
pub enum Kind {
    Read,
    Distance,
    Add,
    Withdraw,
    Move,
    Check,
    Arrange,
    Reason,
}

// The question of a number, from 0 in this order, and again from 8 on.
impl From<u32> for Kind {
    ghost use Rattle.std.specs.Prelude.{◌≡◌, ◌%◌};
    ghost use Rattle.cases.specs.Kinds.{kind_number};

    ghost from_gives = { λ n k. kind_number k ≡ n % 8 };

    fn from(number: u32) -> Kind {
        match number % 8 {
            0 => Kind::Read,
            1 => Kind::Distance,
            2 => Kind::Add,
            3 => Kind::Withdraw,
            4 => Kind::Move,
            5 => Kind::Check,
            6 => Kind::Arrange,
            _ => Kind::Reason,
        }
    }
}

// What is asked: which question, and the numbers of all questions; check, arrange and reason leave the id aside and go by the
// standard. The numbers are the words of the C interface: a question may have a class, a zone or a standard that is none.
#[derive(Clone, Copy)]
pub struct Question {
    pub kind: Kind,
    pub id: u32,
    pub standard: u32,
    pub channel: u32,
    pub last: u32,
    pub class: u32,
    pub zone: u32,
    pub site: Site,
    pub other: Site,
}
