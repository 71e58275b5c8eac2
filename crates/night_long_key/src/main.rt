// The program on a key of 289 bytes: 4.
#![tactic(auto)]

use std::io;

fn main(rt: HostRuntime) -> io::Result<()> {
    shift::run_input(&rt)
}
