// Questions on both sides of the limit of two classes, by either standard.
ghost use Rattle.std.specs.Prelude.{◌≡◌};

use super::paper::paper_question;
use super::question::{Kind, Question};
use scenes::{edge, separation};

// By a standard, a class on a channel beside the class of a station on channel 240, at the crossing of equator and meridian; as far
// from it as the separation, or so many seconds less.
#[derive(Clone, Copy)]
pub struct Side {
    pub standard: u32,
    pub station: u32,
    pub class: u32,
    pub channel: u32,
    pub less: u32,
}

// The zone of a class.
fn zone_of(class: u32) -> u32 {
    match class {
        1 | 2 => 1,
        _ => 3,
    }
}

impl Side {
    // A question of a kind on the equator.
    pub fn question(self, kind: Kind) -> Question
        ensures asked { (result.kind ≡ kind) × (result.standard ≡ self.standard) × (result.class ≡ self.class) }
        ensures channels { (result.channel ≡ self.channel) × (result.last ≡ self.channel) }
    {
        let r = separation(self.standard, self.channel, self.class, 240, self.station);
        let lon = edge(270_000, 270_000, r).wrapping_sub(self.less);
        Question {
            zone: zone_of(self.class),
            standard: self.standard,
            ..paper_question(kind, self.channel, self.channel, self.class, lon)
        }
    }
}
