// Cases with their answers: the paper's separations told as reasons; check, arrange and reason with an id left aside; reason among
// equals; and an id left aside beside a faulty record.
ghost use Rattle.std.specs.Prelude.{◌≡◌};

use super::given::Answer::{Number, Refused, Rows, Station};
use super::given::{Given, UNTOLD};
use super::paper::Separation;
use super::question::Kind;
use super::scene::Scene;

impl Separation {
    // The reason told of a station of the class on channel 240, at its own site.
    pub fn reason(self) -> Given
        ensures { (result.question.channel ≡ self.channel) × (result.question.class ≡ self.class) }
    {
        let told = Station(8, [7, 0, self.km, self.column]);
        Scene::seven(240, self.class)
            .asked(Kind::Reason, self.channel, 0, 0, told)
            .of_class(self.class)
    }
}

// Reason beside the paper's one station.
pub fn reasons_aside() -> [Given; 6] {
    let scene = Scene::seven(250, 0);
    let told = Station(8, [7, 114, 115, 0]);
    [
        scene.asked(Kind::Reason, 250, 3_702, 0, told),
        scene.asked(Kind::Reason, 250, 3_703, 0, Number(0)),
        scene.asked(Kind::Reason, 250, 3_702, 7, Number(0)),
        scene.asked(Kind::Reason, 250, 3_702, 8, Refused(23, 0)),
        scene.asked(Kind::Reason, 250, 648_001, 8, Refused(17, 0)),
        scene.asked(Kind::Reason, 220, 648_001, 8, Refused(13, 0)),
    ]
}

// Check and arrange beside one station.
pub fn rows_aside() -> [Given; 8] {
    let scene = Scene::seven(260, 0);
    let first = [221, 0, 0, 222];
    let short = Rows(3, [7, 0, 115, UNTOLD]);
    [
        scene.asked(Kind::Check, 260, 0, 0, short),
        scene.asked(Kind::Check, 260, 0, 7, Number(0)),
        scene.asked(Kind::Check, 260, 0, 8, Refused(23, 0)),
        scene.asked(Kind::Check, 260, 648_001, 8, Refused(17, 0)),
        scene.asked(Kind::Arrange, 221, 0, 0, Rows(1_752, first)),
        scene.asked(Kind::Arrange, 221, 0, 7, Rows(240, first)),
        scene.asked(Kind::Arrange, 221, 0, 8, Refused(23, 0)),
        scene.asked(Kind::Arrange, 221, 648_001, 8, Refused(17, 0)),
    ]
}

// Reason beside four stations.
pub fn among_equals() -> [Given; 6] {
    let scene = Scene::Equals(0);
    let beside = Station(24, [5, 13, 72, 1]);
    let farther = Station(40, [7, 56, 115, 0]);
    let fourth = Station(56, [9, 0, 115, 0]);
    let first = Station(8, [3, 0, 115, 0]);
    [
        scene.asked(Kind::Reason, 250, 0, 0, beside),
        scene.asked(Kind::Reason, 250, 0, 3, beside),
        scene.asked(Kind::Reason, 250, 0, 5, farther),
        scene.asked(Kind::Reason, 250, 4_294_965_496, 0, fourth),
        scene.asked(Kind::Reason, 253, 0, 0, first),
        scene.asked(Kind::Reason, 300, 0, 0, Number(0)),
    ]
}

// Check, arrange and reason where the station left aside has no class.
pub fn faulty_aside() -> [Given; 3] {
    let scene = Scene::Equals(8);
    [
        scene.asked(Kind::Check, 260, 0, 9, Refused(9, 3)),
        scene.asked(Kind::Arrange, 221, 0, 9, Refused(9, 3)),
        scene.asked(Kind::Reason, 220, 0, 9, Refused(9, 3)),
    ]
}
