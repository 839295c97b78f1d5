// A table: an image that was judged, and in which nothing is wrong.
ghost use Rattle.std.specs.Prelude.{◌≡◌, ℕ, true, false, ◌≤◌, ◌<◌, MatchResult, MatchOption, Err};
ghost use Rattle.ground.specs.Lists.{first};
ghost use Rattle.ground.specs.Passing.{Passing};
ghost use Rattle.stations.specs.Image.{station_at, stations, count, judged, Accepted};
ghost use Rattle.stations.specs.Lists.{from_id};

use crate::{Station, judge, reading};
use refusals::Fault;

#[derive(Clone, Copy)]
pub struct Table<'a> {
    pub image: &'a [u8],
    ghost accepted: { Accepted image.now },
}

impl<'a> Table<'a> {
    // The table of an image, or its first refusal.
    pub fn of(image: &'a [u8]) -> Result<Table<'a>, Fault>
        ensures { MatchResult result (λ t. t.image.now ≡ image.now) (λ f. judged image.now ≡ Err f) }
    {
        judge(image)?;
        Ok(Table { image })
    }

    // How many records it has.
    pub fn count(&self) -> usize
        ensures { result ≡ count self.now.image.now }
    {
        reading::count_of(self.image)
    }

    // The record at a position.
    pub fn station_at(&self, i: usize) -> Station
        requires { i < count self.now.image.now }
        ensures { result ≡ station_at self.now.image.now i }
    {
        reading::station_at(self.image, i)
    }

    // The position of the first record whose id is not below; the count where there is none. The ids ascend: it is halved.
    pub fn place_of(&self, id: u32) -> usize
        ensures { result ≡ first (from_id id) (stations self.now.image.now) }
    {
        let mut low: usize = 0;
        let mut high = self.count();
        while low < high {
            let middle = (low + high) / 2;
            if self.station_at(middle).id < id {
                low = middle + 1;
            } else {
                high = middle;
            }
        }
        low
    }

    // The first position from one on that a test picks, of those of the records: four of them a turn, as where they are judged. By
    // hand: `for turn in 0..turns` divides wherever a walk goes on and counts beside the position, a tenth of what Check's walk takes
    // (callgrind).
    pub fn next_where<F: Fn(usize) -> bool>(&self, from: usize, test: F) -> Option<usize>
        requires within { from ≤ count self.now.image.now }
        requires callable { (i : ℕ) → i < count self.now.image.now → F.pre test i }
        ensures { MatchOption result (Passing (λ j. F.post test j false) (count self.now.image.now) from (count self.now.image.now)) (λ i. Passing (λ j. F.post test j false) (count self.now.image.now) from i × (i < count self.now.image.now) × F.post test i true) }
    {
        let n = self.count();
        let stop = n.saturating_sub(3);
        let mut j = from;
        while j < stop {
            if test(j) {
                return Some(j);
            }
            if test(j + 1) {
                return Some(j + 1);
            }
            if test(j + 2) {
                return Some(j + 2);
            }
            if test(j + 3) {
                return Some(j + 3);
            }
            j += 4;
        }
        for i in j..n {
            if test(i) {
                return Some(i);
            }
        }
        None
    }
}
