// Both implementations on the paper's cases and on many made ones; the first difference is shown, and ends the program.
#![tactic(auto)]

mod given;
mod limits;
mod made;
mod paper;

use given::given_cases;
use limits::{limits_alike, sides_alike};
use made::made_cases;
use paper::paper_cases;
use tally::Notes;

// Writes a line where a part is alike, and gives whether it is.
fn told(alike: bool, line: &[u8]) -> bool {
    if alike {
        io::write_all(1, line);
    }
    alike
}

// The paper's cases and then the made ones, up to the first difference; whether there is none.
fn all_cases(notes: &mut Notes) -> bool {
    let paper = paper_cases(notes) && given_cases(notes);
    told(paper, b"the paper's cases are as the paper has them\n")
        && told(
            limits_alike(),
            b"the limits of all classes and columns are alike\n",
        )
        && told(
            sides_alike(notes),
            b"on both sides of each, by both standards, the answers are alike\n",
        )
        && made_cases(notes)
}

fn main() {
    let mut notes = Notes::new();
    if all_cases(&mut notes) {
        notes.print();
    }
}
