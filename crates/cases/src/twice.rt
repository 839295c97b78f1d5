// Tables with a station that is entered twice, and the answers to them.
use super::given::Answer::{Number, Refused};
use super::given::Given;
use super::question::Kind;
use super::scene::Scene;

// 27 in each question, before what is wrong with it, and behind what is wrong with a later record; and no 27.
pub fn entered_twice() -> [Given; 6] {
    let twice = Scene::Twice(0);
    [
        twice.asked(Kind::Read, 0, 0, 0, Refused(27, 2)),
        twice.asked(Kind::Check, 220, 648_001, 8, Refused(27, 2)),
        twice.asked(Kind::Arrange, 220, 648_001, 8, Refused(27, 2)),
        twice.asked(Kind::Reason, 220, 648_001, 8, Refused(27, 2)),
        Scene::Twice(8).asked(Kind::Read, 0, 0, 0, Refused(9, 3)),
        Scene::BothEnds.asked(Kind::Read, 0, 0, 0, Number(2)),
    ]
}
