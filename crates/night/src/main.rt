// The program: house lines on standard input, entries or a refusal on standard output.
#![tactic(auto)]

use std::io;

fn main(rt: HostRuntime) -> io::Result<()> {
    shift::run_input(&rt)
}
