// Arrange, on standard input and output: the arrangements for the new channels 221 to 300.
#![tactic(auto)]

fn main() {
    let _ = programs::run(programs::Program::Arrange, 0);
}
