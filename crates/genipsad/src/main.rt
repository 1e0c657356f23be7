// The entry point: reads commands from standard input, one a line, and prints what it did, each before the next line is read.
#![tactic(auto)]

mod command;
mod explain;
mod fault;
mod host;
mod lines;
mod stores;

use command::{Command, parse_line};
use console::refused::Numbered;
use explain::explain_datagram;
use fault::{Fault, Stop};
use host::Host;
use lines::echo;
use std::io;
use std::io::{BufRead, BufReader};

fn main(rt: HostRuntime) -> io::Result<()> {
    let heap = rt.alloc();
    let mut host = Host::new();
    let mut number: u64 = 0;
    for line in BufReader::new(heap, rt.stdin())?.split(heap, b'\n') {
        let line = line?;
        // `enumerate` is no plainer: the number of the last line is asked for after the loop too
        number = number.saturating_add(1);
        answer(&rt, &mut host, number, line.as_slice())?;
    }
    if number == 0 {
        println!(rt; "  ? no input: write commands, one a line, as: read 00040001")?;
    }
    Ok(())
}

// Does what a line says, and prints how it went.
fn answer(rt: &HostRuntime, host: &mut Host, number: u64, line: &[u8]) -> io::Result<()> {
    let Some(command) = parse_line(rt.alloc(), line).transpose() else {
        return Ok(());
    };
    echo(rt, line)?;
    match run(rt, host, command) {
        Ok(()) => Ok(()),
        Err(Stop::Refused(why)) => println!(rt; "  ! {}", Numbered(why)),
        Err(Stop::Fault(fault)) => println!(rt; "  ? line {number}: {fault}"),
        Err(Stop::Output(error)) => Err(error),
    }
}

// Does what the command says, if the line is one.
fn run(rt: &HostRuntime, host: &mut Host, command: Result<Command<'_>, Fault>) -> Result<(), Stop> {
    let count = match command? {
        Command::Read(bytes) => {
            return Ok(explain_datagram(rt, bytes.as_slice())?);
        }
        Command::SetUp { side, kind, size } => {
            host.set_up(rt.alloc(), side, kind, size)?;
            0
        }
        Command::Lay { side, name, bytes } => {
            host.end(side)?.lay(name, bytes.as_slice())?;
            0
        }
        Command::Items(side) => host.end(side)?.items(rt)?,
        Command::Show { side, name } => host.end(side)?.show(rt, name)?,
    };
    println!(rt; "  = {count}")?;
    Ok(())
}
