// Why a channel is blocked, on standard input and output.
#![tactic(auto)]

fn main() {
    let _ = programs::run(programs::Program::Reason, 0);
}
