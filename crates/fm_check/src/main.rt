// Check, on standard input and output: the stations that a proposal is short to.
#![tactic(auto)]

fn main() {
    let _ = programs::run(programs::Program::Check, 0);
}
