// The program on one set more than 25 slots take: 9.
#![tactic(auto)]

use std::io;

fn main(rt: HostRuntime) -> io::Result<()> {
    shift::run_input(&rt)
}
