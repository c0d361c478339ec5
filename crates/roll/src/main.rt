// What a roll gives each hall: reads rolls, a line each, and prints what every process of each can do.
#![tactic(auto)]

mod rolls;
mod standing;
mod summary;

use quorum::counting::Counting;
use quorum::faults::RuleFault;
use quorum::rules::QuorumRule;
use quorum::weights::Weights;
use rolls::{Roll, read_roll};
use standing::Standing;
use std::io;
use std::io::{BufRead, BufReader};
use summary::Summary;

fn main(rt: HostRuntime) -> io::Result<()> {
    let heap = rt.alloc();
    let mut summary = Summary::new();
    for line in BufReader::new(heap, rt.stdin())?.split(heap, b'\n') {
        let line = line?;
        let number = summary.lines().saturating_add(1);
        print!(rt; "{number}: ")?;
        match read_roll(heap, line.as_slice())? {
            Some(roll) => match print_roll(&rt, &roll) {
                Ok(()) => summary.accept(),
                Err(Stop::Refused(fault)) => {
                    println!(rt; "refused {}", fault.numbers())?;
                    summary.refuse();
                }
                Err(Stop::Unprinted(error)) => return Err(error),
            },
            None => {
                println!(rt;
                    "no roll; a roll is C and a number of faults, or W and 1 to 32 weights"
                )?;
                summary.pass();
            }
        }
    }
    println!(rt; "{summary}")
}

// Why a roll is not printed.
#[derive(Drop)]
enum Stop {
    // Its rule is refused.
    Refused(RuleFault),
    Unprinted(io::Error),
}

impl From<RuleFault> for Stop {
    fn from(fault: RuleFault) -> Stop {
        Stop::Refused(fault)
    }
}

impl From<io::Error> for Stop {
    fn from(error: io::Error) -> Stop {
        Stop::Unprinted(error)
    }
}

fn print_roll(rt: &HostRuntime, roll: &Roll) -> Result<(), Stop> {
    match roll {
        Roll::ByCount(f) => print_rule(rt, &Counting::new(*f)?, roll)?,
        Roll::ByWeight(weights) => print_rule(rt, &Weights::new(weights.as_slice())?, roll)?,
    }
    Ok(())
}

fn print_rule<Q: QuorumRule>(rt: &HostRuntime, rule: &Q, roll: &Roll) -> io::Result<()> {
    let size = rule.size();
    println!(rt; "size {size}, total {}", roll.total(size))?;
    for process in 0..size {
        println!(rt; "{}", Standing::of(rule, roll, process))?;
    }
    Ok(())
}
