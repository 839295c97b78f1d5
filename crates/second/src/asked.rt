// What is asked of a proposal.
ghost use Rattle.std.specs.Prelude.{◌≤◌, IfOk};

use super::answer::Refusal;
use super::stations::{Site, Standard, Station};

// A proposal as it was passed: on the channels first to last, by a standard. To check, arrange or reason the id is that of the station
// left aside, 0 for none.
#[derive(Clone, Copy)]
pub(crate) struct Asked {
    pub(crate) id: u32,
    pub(crate) first: u32,
    pub(crate) last: u32,
    pub(crate) class: u32,
    pub(crate) zone: u32,
    pub(crate) standard: u32,
    pub(crate) lat: i32,
    pub(crate) lon: i32,
}

// A proposal that is in order: the station on its first channel.
#[derive(Clone, Copy)]
pub(crate) struct Proposal {
    pub(crate) station: Station,
    pub(crate) last: u16,
    pub(crate) standard: Standard,
    ghost from_221: { 221 ≤ station.channel },
    ghost in_order: { station.channel ≤ last },
    ghost to_300: { last ≤ 300 },
}

impl Asked {
    // The proposal, or what is wrong with it.
    pub(crate) fn judge(self) -> Result<Proposal, Refusal> {
        let channel = channel_of(self.first)?;
        let last = channel_of(self.last)?;
        if last < channel {
            return Err(Refusal::AskedChannel);
        }
        if 7 < self.class {
            return Err(Refusal::AskedClass);
        }
        let permitted = match self.zone {
            1 | 2 => self.class < 3,
            3 => self.class == 0 || 3 <= self.class,
            _ => return Err(Refusal::AskedZone),
        };
        if !permitted {
            return Err(Refusal::NotPermitted);
        }
        let standard = Standard::asked(self.standard)?;
        let station = Station {
            id: self.id,
            channel,
            class: self.class as u8,
            flags: 0,
            site: Site::asked(self.lat, self.lon)?,
        };
        Ok(Proposal {
            station,
            last,
            standard,
        })
    }
}

// The channel of a number, from 221 to 300.
pub(crate) fn channel_of(number: u32) -> Result<u16, Refusal>
    ensures { IfOk result (λ channel. (221 ≤ channel) × (channel ≤ 300)) }
{
    if !(221..=300).contains(&number) {
        return Err(Refusal::AskedChannel);
    }
    Ok(number as u16)
}
