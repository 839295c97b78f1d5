// Cases with their answers by a standard: each column of the lesser table, its odd entries, arrangements, and refusals.
use super::given::Answer::{Number, Refused, Rows, Station};
use super::given::{Answer, Given, UNTOLD};
use super::question::Kind;
use super::scene::Scene;

// A question on a channel at a longitude beside a station of class A on channel 260, by the lesser table.
fn lesser(kind: Kind, channel: u32, lon: u32, answer: Answer) -> Given {
    Scene::seven(260, 0)
        .asked(kind, channel, lon, 0, answer)
        .by(2)
}

// Class A beside class A on both sides of each separation of the lesser table; and arrangements 30 km from the station, where the
// channels beside each other by two or three are short by Table A alone.
pub fn lesser_columns() -> [Given; 10] {
    [
        lesser(Kind::Check, 260, 2_959, Rows(3, [7, 91, 92, UNTOLD])),
        lesser(Kind::Check, 260, 2_960, Number(0)),
        lesser(Kind::Reason, 260, 2_959, Station(8, [7, 91, 92, 0])),
        lesser(Kind::Reason, 260, 2_960, Number(0)),
        lesser(Kind::Reason, 261, 1_568, Station(8, [7, 48, 49, 1])),
        lesser(Kind::Reason, 261, 1_569, Number(0)),
        lesser(Kind::Reason, 263, 792, Station(8, [7, 24, 25, 2])),
        lesser(Kind::Reason, 263, 793, Number(0)),
        lesser(Kind::Arrange, 221, 970, Rows(924, [221, 0, 0, 222])),
        lesser(Kind::Arrange, 260, 970, Rows(579, [260, 7, 221, 260])),
    ]
}

// Refusals that stand before an id that is absent by the lesser table; the rows of Table A at the lesser separation; and no
// standard, alone and beside other faults.
pub fn no_standards() -> [Given; 12] {
    let scene = Scene::seven(260, 0);
    let short = Rows(3, [7, 92, 115, UNTOLD]);
    let none = Refused(26, 0);
    [
        scene
            .asked(Kind::Check, 260, 648_001, 8, Refused(17, 0))
            .by(2),
        scene.asked(Kind::Reason, 260, 0, 8, Refused(23, 0)).by(2),
        scene.asked(Kind::Check, 260, 2_960, 0, short),
        scene.asked(Kind::Check, 260, 0, 0, none).by(0),
        scene.asked(Kind::Arrange, 221, 648_001, 8, none).by(3),
        scene.asked(Kind::Reason, 260, 648_001, 8, none).by(257),
        scene.asked(Kind::Check, 260, 0, 8, none).by(258),
        scene.asked(Kind::Arrange, 221, 0, 0, none).by(65_537),
        scene.asked(Kind::Reason, 260, 0, 0, none).by(2_147_483_650),
        scene
            .asked(Kind::Check, 220, 648_001, 8, Refused(13, 0))
            .by(0),
        scene
            .asked(Kind::Arrange, 221, 648_001, 8, Refused(16, 0))
            .by(0)
            .of_class(1),
        scene
            .asked(Kind::Reason, 260, 648_001, 8, Refused(16, 0))
            .by(3)
            .of_class(1),
    ]
}

// The odd entries of the lesser table: A, B1 and C on channel 240; and no standard beside a faulty record.
pub fn odd_entries() -> [Given; 4] {
    let c1 = Station(8, [7, 0, 10, 3]);
    let b1 = Station(8, [7, 0, 215, 0]);
    let c = Station(8, [7, 0, 96, 2]);
    [
        Scene::seven(240, 0)
            .asked(Kind::Reason, 293, 0, 0, c1)
            .by(2),
        Scene::seven(240, 1)
            .asked(Kind::Reason, 240, 0, 0, b1)
            .of_class(6)
            .by(2),
        Scene::seven(240, 7)
            .asked(Kind::Reason, 242, 0, 0, c)
            .of_class(4)
            .by(2),
        Scene::Equals(8)
            .asked(Kind::Check, 260, 0, 9, Refused(9, 3))
            .by(0),
    ]
}
