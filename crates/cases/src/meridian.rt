// Cases with their answers across the 180th meridian, on the equator.
use super::given::Answer::{Number, Refused, Rows, Station};
use super::given::{Answer, Given, UNTOLD};
use super::paper::on_equator;
use super::question::{Kind, Question};
use super::scene::Scene;
use scenes::Site;

// Station 7 of class A on channel 260 at a longitude.
fn one_at(lon: u32) -> Scene {
    Scene::One(on_equator(7, 260, 0, lon))
}

// The distance of a longitude and one so many seconds west, and the answer.
fn measured(lon: u32, west: u32, answer: Answer) -> Given {
    let given = one_at(4_294_319_305).asked(Kind::Distance, 0, lon, 0, answer);
    Given {
        question: Question {
            other: Site {
                lat: 0,
                lon: west.wrapping_neg(),
            },
            ..given.question
        },
        ..given
    }
}

// Distances of 20 seconds, of none, of half the circle, and on both sides of 115 km.
pub fn distances_across() -> [Given; 6] {
    [
        measured(647_990, 647_990, Number(1)),
        measured(648_000, 648_000, Number(0)),
        measured(324_000, 324_000, Refused(24, 0)),
        measured(0, 648_000, Refused(24, 0)),
        measured(646_149, 646_149, Number(114)),
        measured(646_149, 646_148, Number(115)),
    ]
}

// Check, reason and arrange, ten seconds from a station nine seconds east of the meridian and on both sides of 115 km; and arrange
// on both sides of 115 km from one a second west of it.
pub fn studies_across() -> [Given; 9] {
    let east = one_at(4_294_319_305);
    let west = one_at(647_999);
    let all = [221, 0, 0, 222];
    let moved = [260, 7, 221, 260];
    let unmoved = [260, 0, 0, 261];
    [
        east.asked(Kind::Check, 260, 647_999, 0, Rows(3, [7, 0, 115, UNTOLD])),
        east.asked(Kind::Check, 260, 644_307, 0, Rows(3, [7, 114, 115, UNTOLD])),
        east.asked(Kind::Check, 260, 644_306, 0, Number(0)),
        east.asked(Kind::Reason, 260, 647_999, 0, Station(8, [7, 0, 115, 0])),
        east.asked(Kind::Reason, 260, 644_307, 0, Station(8, [7, 114, 115, 0])),
        east.asked(Kind::Reason, 260, 644_306, 0, Number(0)),
        east.asked(Kind::Arrange, 221, 647_999, 0, Rows(1_752, all)),
        west.asked(Kind::Arrange, 260, 4_294_322_997, 0, Rows(357, moved)),
        west.asked(Kind::Arrange, 260, 4_294_322_998, 0, Rows(123, unmoved)),
    ]
}
