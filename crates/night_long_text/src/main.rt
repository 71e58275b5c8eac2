// The program on a text of 16,385 bytes, each line of which is right: 15.
#![tactic(auto)]

use std::io;

fn main(rt: HostRuntime) -> io::Result<()> {
    shift::run_input(&rt)
}
