// Headers without a record, with what read answers to them.
use super::given::Answer::{Number, Refused};
use super::given::{Answer, Given};
use super::question::Kind;
use super::scene::{Header, Scene};
use scenes::{LIMIT, LINE};

// Such a header, and the answer.
fn lone(version: u32, sixth: u32, count: u32, answer: Answer) -> Given {
    let header = Header {
        version,
        sixth,
        count,
    };
    Scene::Lone(header).asked(Kind::Read, 0, 0, 0, answer)
}

// On both sides of each end of a version's range, where a count that is neither 0 nor outside is refused for the length; of no
// version; and with a sixth byte that is not 0.
pub fn lone_headers() -> [Given; 14] {
    [
        lone(1, 0, 0, Number(0)),
        lone(1, 0, LINE, Refused(6, 0)),
        lone(1, 0, LINE + 1, Refused(5, 0)),
        lone(1, 0, LIMIT, Refused(5, 0)),
        lone(2, 0, 0, Refused(5, 0)),
        lone(2, 0, LINE, Refused(5, 0)),
        lone(2, 0, LINE + 1, Refused(6, 0)),
        lone(2, 0, LIMIT, Refused(6, 0)),
        lone(2, 0, LIMIT + 1, Refused(5, 0)),
        lone(0, 0, 0, Refused(3, 0)),
        lone(3, 0, LINE + 1, Refused(3, 0)),
        lone(258, 0, LINE + 1, Refused(3, 0)),
        lone(2, 1, 0, Refused(4, 0)),
        lone(3, 1, LIMIT + 1, Refused(3, 0)),
    ]
}
