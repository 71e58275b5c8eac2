// Texts that the program refuses, one for each number that lines can provoke, an empty one, and one that fills 25 slots.
#![tactic(auto)]

use std::io;
use std::io::Write;

fn say<W: Write>(out: &mut W, name: &[u8]) -> io::Result<()> {
    out.write_all(name)
}

fn try_text<W: Write>(out: &mut W, name: &[u8], text: &[u8]) -> io::Result<()> {
    say(out, name)?;
    shift::run(out, text)
}

fn main(rt: HostRuntime) -> io::Result<()> {
    let out = &mut io::writer(&rt);
    try_text(out, b"an empty text\n", b"")?;
    try_text(
        out,
        b"set and del\n",
        b"set\t61\t5\ndel\t61\nset\t62\t7\ndel\t63\n",
    )?;
    try_text(out, b"a value replaced\n", b"set\t61\t5\nset\t61\t6\n")?;
    try_text(out, b"the empty key\n", b"set\t\t5\n")?;
    try_text(out, b"odd hex: 15\n", b"set\t6\t5\n")?;
    try_text(out, b"uppercase hex: 15\n", b"set\t6A\t5\n")?;
    try_text(out, b"a leading zero: 15\n", b"set\t61\t05\n")?;
    try_text(
        out,
        b"a value above a u64: 15\n",
        b"set\t61\t18446744073709551616\n",
    )?;
    try_text(out, b"no LF: 15\n", b"set\t61\t5")?;
    try_text(out, b"a value of 0: 5\n", b"set\t61\t0\n")?;
    try_text(
        out,
        b"a key below the one before: 6\n",
        b"set\t62\t5\nset\t61\t5\n",
    )
}
