// The worked examples of RFC 1350, 2347, 2348, 2349 and 7440, run through reading, writing and the option rules.
// Each is printed with what came out, and whether that is what the RFC, or the narrower rule of ours, says.
#![tactic(auto)]

mod agreement;
mod blocks;
mod datagrams;
mod example;
mod exchanges;
mod oacks;
mod outcome;
mod rfc1350;
mod rfc2347;
mod rfc2348;
mod rfc2349;
mod rfc7440;

use example::{Case, Example};
use std::io;

// How many examples were run, and how many of them differ.
#[derive(Clone, Copy, Default, Debug)]
struct Tally {
    examples: u32,
    differ: u32,
}

impl Tally {
    fn note(&mut self, is_right: bool) {
        self.examples = self.examples.saturating_add(1);
        if !is_right {
            self.differ = self.differ.saturating_add(1);
        }
    }

    // Runs the examples, each below its title.
    fn run<C: Case>(&mut self, rt: &HostRuntime, examples: &[Example<C>]) -> io::Result<()> {
        for example in examples {
            println!(rt; "{}: {}", example.source, example.about)?;
            self.note(example.case.judge(rt, example.words)?);
        }
        Ok(())
    }
}

fn main(rt: HostRuntime) -> io::Result<()> {
    let mut tally = Tally::default();
    tally.run(&rt, &rfc1350::EXAMPLES)?;
    tally.run(&rt, &rfc2347::EXAMPLES)?;
    tally.run(&rt, &rfc2348::EXAMPLES)?;
    tally.run(&rt, &rfc2349::EXAMPLES)?;
    tally.run(&rt, &rfc7440::EXAMPLES)?;
    tally.run(&rt, &blocks::BLOCKS)?;
    tally.run(&rt, &oacks::OACKS)?;
    tally.run(&rt, &exchanges::EXCHANGES)?;
    let Tally { examples, differ } = tally;
    println!(rt; "{examples} examples, {differ} differ")
}
