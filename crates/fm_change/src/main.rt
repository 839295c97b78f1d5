// Add, Withdraw or Move, on standard input and output: the new image.
#![tactic(auto)]

fn main() {
    let _ = programs::run(programs::Program::Change, 0);
}
