// Replays the stored lists of node readings, lenient and strict, and of node writings through crate codec, and writes how many
// came out as the lists have them. The first three that don't are named, by their places in the list from 0 on.
#![tactic(auto)]

mod reading;
mod writing;

use lists::{Tally, Verdict};
use reading::Rule;
use std::fs::File;
use std::io;
use std::io::{Read, Write};

#[derive(Clone, Copy)]
enum List {
    Readings,
    StrictReadings,
    Writings,
}

fn say_differing<W: Write>(out: &mut W, list: List, case: u64) -> io::Result<()> {
    let name: &[u8] = match list {
        List::Readings => b"differs: reading ",
        List::StrictReadings => b"differs: strict reading ",
        List::Writings => b"differs: writing ",
    };
    lists::say(out, name, case)?;
    out.write_all(b"\n")
}

fn replay_case<R: Read>(file: &mut R, list: List) -> io::Result<Verdict> {
    let mut buffer = [0u8; 4096];
    let len = lists::read_block(file, &mut buffer)?;
    let block = &buffer[..len];
    Ok(match list {
        List::Readings => reading::check(block, Rule::Lenient),
        List::StrictReadings => reading::check(block, Rule::Strict),
        List::Writings => Verdict {
            agreed: writing::agrees(block),
            number: 0,
        },
    })
}

fn replay_cases<W: Write, R: Read>(out: &mut W, file: &mut R, list: List) -> io::Result<Tally> {
    let cases = lists::read_number(file)?;
    let mut tally = Tally::none();
    let mut named = 0u8;
    for i in 0..cases {
        let verdict = replay_case(file, list)?;
        tally = tally.with(verdict);
        if !verdict.agreed && named < 3 {
            say_differing(out, list, i as u64)?;
            named += 1;
        }
    }
    Ok(tally)
}

fn replay(rt: &HostRuntime, path: &str, list: List) -> io::Result<Tally> {
    let mut file = File::open(rt, path)?;
    replay_cases(&mut io::writer(rt), &mut file, list)
}

fn say_counts<W: Write>(out: &mut W, list: &[u8], tally: &Tally) -> io::Result<()> {
    lists::say(out, list, tally.cases)?;
    lists::say(out, b" agreed ", tally.agreed)
}

fn say_answers<W: Write>(out: &mut W, answers: &[u64; lists::NUMBERS]) -> io::Result<()> {
    lists::say(out, b", accepted ", answers[0])?;
    lists::say(out, b", refused 4: ", answers[4])?;
    lists::say(out, b", 11: ", answers[11])?;
    lists::say(out, b", 12: ", answers[12])?;
    lists::say(out, b", 13: ", answers[13])?;
    lists::say(out, b", 14: ", answers[14])
}

// Those that a strict reading alone answers.
fn say_strict_answers<W: Write>(out: &mut W, answers: &[u64; lists::NUMBERS]) -> io::Result<()> {
    lists::say(out, b", 18: ", answers[18])?;
    lists::say(out, b", 19: ", answers[19])?;
    lists::say(out, b", 20: ", answers[20])
}

fn say_readings(rt: &HostRuntime) -> io::Result<()> {
    let readings = replay(rt, "node_readings.bin", List::Readings)?;
    let out = &mut io::writer(rt);
    say_counts(out, b"readings ", &readings)?;
    say_answers(out, &readings.answers)?;
    out.write_all(b"\n")
}

fn say_strict_readings(rt: &HostRuntime) -> io::Result<()> {
    let readings = replay(rt, "node_readings.bin", List::StrictReadings)?;
    let out = &mut io::writer(rt);
    say_counts(out, b"strict ", &readings)?;
    say_answers(out, &readings.answers)?;
    say_strict_answers(out, &readings.answers)?;
    out.write_all(b"\n")
}

fn say_writings(rt: &HostRuntime) -> io::Result<()> {
    let writings = replay(rt, "node_writings.bin", List::Writings)?;
    let out = &mut io::writer(rt);
    say_counts(out, b"writings ", &writings)?;
    out.write_all(b"\n")
}

fn main(rt: HostRuntime) -> io::Result<()> {
    say_readings(&rt)?;
    say_strict_readings(&rt)?;
    say_writings(&rt)
}
