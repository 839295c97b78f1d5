// Arrange: every clean arrangement of a new station of a class at a site, on each new channel of a range.
#![tactic(auto)]

ghost use Rattle.desk.specs.Answers.{Answered};
ghost use Rattle.arrangements.specs.Arrange.{arranged_for};

mod answering;

use refusals::Fault;
use studies::Wanted;

// Three numbers for each arrangement: the new channel, the id of the station that moves, its new channel.
pub fn arrange(table: &[u8], wanted: Wanted, rows: &mut [u32]) -> Result<u32, Fault>
    ensures { Answered (arranged_for table.now wanted) rows.old rows.new result }
{
    let study = studies::study(table, wanted)?;
    answering::list_asked(&study, wanted.channels(), rows)
}
