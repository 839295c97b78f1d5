// The paper's questions and those with given answers, made questions, and the runs of made cases.
#![tactic(auto)]

mod aside;
mod asking;
mod chosen;
mod given;
mod headers;
mod meridian;
mod paper;
mod question;
mod runs;
mod scene;
mod sides;
mod twice;

pub use aside::{among_equals, faulty_aside, reasons_aside, rows_aside};
pub use asking::{Ids, first_id, made_question};
pub use chosen::{lesser_columns, no_standards, odd_entries};
pub use given::{Answer, Given, UNTOLD};
pub use headers::lone_headers;
pub use meridian::{distances_across, studies_across};
pub use paper::{CHANNELS, Separation, paper_question, put_seven, separations};
pub use question::{Kind, Question};
pub use runs::{Asked, RUNS, Run, made_runs};
pub use scene::{GIVEN_BYTES, Header, Scene};
pub use sides::Side;
pub use twice::entered_twice;
