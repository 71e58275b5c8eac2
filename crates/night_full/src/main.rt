// The program on a text of as many rising sets as 25 slots take.
#![tactic(auto)]

use std::io;

fn main(rt: HostRuntime) -> io::Result<()> {
    shift::run_input(&rt)
}
