// A table image that is in order, and its stations by position and by id.
ghost use Rattle.std.specs.Prelude.{◌≡◌, ◌≤◌, ◌<◌, length, IfSome, IfOk, IfErr};
ghost use Rattle.std.specs.Range.{range_inclusive_end};
ghost use Rattle.second.specs.Answer.{highest, number, extra};
ghost use Rattle.second.specs.Sizes.{capacity};

use super::answer::{Flaw, Refusal};
use super::stations::{Record, Standard, Station};
use super::versions::{CAPACITY, range_of};
use std::ops::RangeInclusive;

// The records of a table.
#[derive(Clone, Copy)]
pub(crate) struct Table<'a> {
    pub(crate) records: &'a [Record],
    ghost within: { length records.now ≤ capacity },
}

impl<'a> Table<'a> {
    // The table of an image, or what is wrong with it: the header, the records one by one, then those that are entered twice.
    pub(crate) fn read(image: &'a [u8]) -> Result<Table<'a>, Refusal> {
        let table = Table::framed(image)?;
        table.judge_records()?;
        table.judge_repeats()?;
        Ok(table)
    }

    // The numbers of stations that a header's version is for, or what is wrong with its first six bytes.
    fn range_named(header: &[u8; 8]) -> Result<RangeInclusive<usize>, Refusal>
        ensures early { IfErr result (λ refusal. number refusal ≤ 4) }
        ensures most { IfOk result (λ range. range_inclusive_end range ≤ capacity) }
    {
        let [b'F', b'M', b'S', v1, v0, sixth, _, _] = *header else {
            return Err(Refusal::OtherMark);
        };
        let Some(range) = range_of(u16::from_be_bytes([v1, v0])) else {
            return Err(Refusal::OtherVersion);
        };
        if sixth != 0 {
            return Err(Refusal::SixthByte);
        }
        Ok(range)
    }

    // The records of an image whose header and length are in order.
    fn framed(image: &'a [u8]) -> Result<Table<'a>, Refusal>
        ensures early { IfErr result (λ refusal. number refusal ≤ 6) }
        ensures short { length image.now < 8 → IfErr result (λ refusal. number refusal ≡ 1) }
    {
        let Some((header, body)) = image.split_first_chunk::<8>() else {
            return Err(Refusal::UnderEightBytes);
        };
        let range = match Table::range_named(header) {
            Ok(range) => range,
            Err(refusal) => return Err(refusal),
        };
        let [_, _, _, _, _, _, n1, n0] = *header;
        let n = usize::from(u16::from_be_bytes([n1, n0]));
        if !range.contains(&n) {
            return Err(Refusal::OtherCount);
        }
        if body.len() != 16 * n {
            return Err(Refusal::OtherLength);
        }
        let (words, _) = body.as_chunks::<4>();
        let (records, _) = words.as_chunks::<4>();
        Ok(Table { records })
    }

    // The first record that is not in order by itself and behind the one before it.
    fn judge_records(&self) -> Result<(), Refusal>
        ensures { IfErr result (λ refusal. (number refusal ≤ 12) × (extra refusal < length self.now.records.now)) }
    {
        let mut before = 0;
        for (i, record) in self.records.iter().enumerate() {
            let station = Station::from_record(record);
            if let Err(flaw) = station.judge(before) {
                return Err(Refusal::Record(flaw, i as u32));
            }
            before = station.id;
        }
        Ok(())
    }

    // The first station that is entered a second time, found by holding each against all before it.
    fn judge_repeats(&self) -> Result<(), Refusal>
        ensures { IfErr result (λ refusal. (number refusal ≡ highest) × (extra refusal < length self.now.records.now)) }
    {
        let mut entries = [0; CAPACITY];
        for (i, record) in self.records.iter().enumerate() {
            let entry = Station::from_record(record).entry();
            if entries[..i].iter().any(|before| *before == entry) {
                return Err(Refusal::Record(Flaw::Again, i as u32));
            }
            entries[i] = entry;
        }
        Ok(())
    }

    // The station at a position.
    pub(crate) fn station(&self, position: usize) -> Station
        requires { position < length self.now.records.now }
    {
        Station::from_record(&self.records[position])
    }

    // The first position whose id is not below the given one; that behind the last where there is none.
    pub(crate) fn place(&self, id: u32) -> usize
        ensures { result ≤ length self.now.records.now }
    {
        self.records
            .iter()
            .position(|record| id <= Station::from_record(record).id)
            .unwrap_or(self.records.len())
    }

    // The position of an id.
    pub(crate) fn position(&self, id: u32) -> Option<usize>
        ensures { IfSome result (λ i. i < length self.now.records.now) }
    {
        self.records
            .iter()
            .position(|record| Station::from_record(record).id == id)
    }

    // The first position whose station is in the way of the given one: it has neither that one's id nor the id left aside, and is
    // short to it.
    pub(crate) fn first_short(
        &self,
        station: Station,
        aside: u32,
        standard: Standard,
    ) -> Option<usize>
        ensures { IfSome result (λ i. i < length self.now.records.now) }
    {
        self.records.iter().position(|record| {
            let other = Station::from_record(record);
            other.id != station.id && other.id != aside && station.is_short(other, standard)
        })
    }
}
