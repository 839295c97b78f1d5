// What check, arrange and reason ask alike.
use super::answer::Refusal;
use super::asked::{Asked, Proposal};
use super::stations::Station;
use super::tables::Table;

// A proposal beside a table.
#[derive(Clone, Copy)]
pub(crate) struct Study<'a> {
    pub(crate) table: Table<'a>,
    pub(crate) proposal: Proposal,
}

impl<'a> Study<'a> {
    // The study of an image and a proposal, or what is wrong with the image, then with the proposal, then with the id left aside.
    pub(crate) fn new(image: &'a [u8], asked: Asked) -> Result<Study<'a>, Refusal> {
        let table = Table::read(image)?;
        let proposal = asked.judge()?;
        if asked.id != 0 && table.position(asked.id).is_none() {
            return Err(Refusal::IdAbsent);
        }
        Ok(Study { table, proposal })
    }

    // Whether some station is in the way of one, an id left aside.
    pub(crate) fn is_blocked(&self, station: Station, aside: u32) -> bool {
        self.table
            .first_short(station, aside, self.proposal.standard)
            .is_some()
    }
}
