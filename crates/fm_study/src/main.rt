// A study, on standard input and output: a Check or an Arrange with an id left aside, or the distance between two sites.
#![tactic(auto)]

fn main() {
    let _ = programs::run(programs::Program::Study, 0);
}
