// Marks on the channels from 221 to 300: where a station of a class at a site is short to another.
#![tactic(auto)]

ghost use Rattle.std.specs.Prelude.{◌≡◌, ◌&&◌, ◌≤◌, ◌<◌, leb};
ghost use Rattle.part73.specs.Channels.{lowest, highest};
ghost use Rattle.part73.specs.Columns.{gap};
ghost use Rattle.spacing.specs.Reaching.{hits};
ghost use Rattle.marking.specs.Marks.{join, Struck, Wiped, Touches};

use part73::{CHANNEL_COUNT, HIGHEST, LOWEST};
use spacing::Reach;

// New channels, from first to last.
#[derive(Clone, Copy)]
pub struct Channels {
    pub first: usize,
    pub last: usize,
}

// The mark of more than one. Marks are numbers: on marks of an enum (nobody, one, many) `strike` takes 89 instructions in place of
// 83, and a row of flags that `planning` fills from them 1,698 in place of 1,505, as callgrind counts them.
pub const MANY: u16 = 65535;

// The mark of a channel on which one more station stands in the way.
#[tactic(auto, using(std::proofs::lemmas::Bool::Decides::nat_tests), unfolding(crate::specs::Marks::join))]
fn joined(mark: u16, who: u16) -> u16
    requires { who < 65534 }
    ensures { result ≡ join mark who }
{
    if mark == 0 { who + 1 } else { MANY }
}

// Marks the channels from low to high, as far as they are among 221 to 300.
fn band(marks: &mut [u16; CHANNEL_COUNT], low: usize, high: usize, who: u16)
    requires { who < 65534 }
    ensures { Struck (λ m. leb low m && leb m high) lowest highest who marks.old marks.new }
{
    let first = low.max(LOWEST);
    let end = high.min(HIGHEST) + 1;
    for m in first..end {
        let k = m - LOWEST;
        marks[k] = joined(marks[k], who);
    }
}

// Marks the channels on which a station on c is hit, by what is reached.
pub fn strike(marks: &mut [u16; CHANNEL_COUNT], c: usize, reach: Reach, who: u16)
    requires { (who < 65534) × (201 ≤ c) × (c ≤ 300) × (reach.steps ≤ 4) }
    ensures { Struck (λ m. hits reach (gap m c)) lowest highest who marks.old marks.new }
{
    let w = reach.steps;
    band(marks, c + 1 - w, c + w - 1, who);
    if reach.far {
        band(marks, c - 54, c - 53, who);
        band(marks, c + 53, c + 54, who);
    }
}

// No channel is marked.
pub fn wipe(marks: &mut [u16; CHANNEL_COUNT])
    ensures { Wiped marks.new }
{
    marks.fill(0);
}

impl Channels {
    // Whether channel c may have a requirement against one of them: those at most 3 away, and those 53 or 54 away.
    pub fn touches(self, c: usize) -> bool
        requires { (201 ≤ c) × (c ≤ 300) × (self.last ≤ 300) }
        ensures { Touches c self result }
    {
        if c + 3 < self.first {
            return self.first <= c + 54 && c + 53 <= self.last;
        }
        if self.last + 3 < c {
            return c <= self.last + 54 && self.first <= c - 53;
        }
        true
    }
}
