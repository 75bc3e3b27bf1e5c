// Puts piles of one, two and three delays on plans and on sheets, and prints what each answers as a traffic, and its bounds.
#![tactic(auto)]

use bus::traffic::Traffic;
use delay::delayed::Delayed;
use engine::bound::bound;
use plan::open::OpenPlan;
use sheet::sender::Sender;
use sheet::sheet::Sheet;
use std::{fs, io};
use table::table::read_table;

const NODES: usize = 16;

const LONGEST_DELAY: u32 = 1_048_576;

const PHASES: [u32; 5] = [0, 1, 99, 250, 1_199];

const WINDOWS: [u32; 3] = [0, 500, 4_000];

// The numbers of a line.
fn numbers<const N: usize>(line: &str) -> Option<[u32; N]> {
    let mut all = [0; N];
    let mut words = line.split_whitespace();
    for number in &mut all {
        *number = words.next()?.parse().ok()?;
    }
    Some(all)
}

fn tell_stream<T: Traffic>(rt: &impl Print, traffic: &T, stream: u32) -> io::Result<()> {
    for phase in PHASES {
        match traffic.place(stream, phase, 1) {
            Ok(place) => println!(rt; "place {stream} {phase} 1 {place}")?,
            Err(refusal) => println!(rt; "place {stream} {phase} 1 refused {refusal}")?,
        }
        if let Ok(place) = traffic.place(stream, phase, 3) {
            println!(rt; "place {stream} {phase} 3 {place}")?;
        }
        for window in WINDOWS {
            if let Ok(count) = traffic.count(stream, phase, window) {
                println!(rt; "count {stream} {phase} {window} {count}")?;
            }
        }
    }
    match bound(traffic, stream) {
        Ok(Some(longest)) => println!(rt; "bound {stream} {longest}"),
        Ok(None) => println!(rt; "bound {stream} unsettled"),
        Err(refusal) => println!(rt; "bound {stream} refused {refusal}"),
    }
}

fn tell_node<T: Traffic>(rt: &impl Print, traffic: &T, node: u32) -> io::Result<()> {
    for phase in PHASES {
        if let Ok(turns) = traffic.turns(node, phase) {
            println!(rt; "turns {node} {phase} {turns}")?;
        }
        match traffic.next_turn(node, phase) {
            Ok(Some(turn)) => println!(rt; "next turn {node} {phase} {turn}")?,
            Ok(None) => println!(rt; "next turn {node} {phase} none")?,
            Err(refusal) => println!(rt; "next turn {node} {phase} refused {refusal}")?,
        }
    }
    Ok(())
}

fn tell<T: Traffic>(rt: &impl Print, traffic: &T) -> io::Result<()> {
    println!(rt; "reach {}", traffic.reach())?;
    for node in 0..4 {
        tell_node(rt, traffic, node)?;
    }
    for stream in 0..traffic.streams() {
        tell_stream(rt, traffic, stream)?;
    }
    Ok(())
}

// The traffic with the delays of the line on it.
fn delayed<T: Traffic + Drop>(rt: &impl Print, below: T, line: &str) -> io::Result<Delayed<T>> {
    let mut pile = Delayed::new(below);
    if let Some(delays) = numbers(line) {
        match pile.set(delays) {
            Ok(()) => println!(rt; "set")?,
            Err(refusal) => println!(rt; "refused {refusal}")?,
        }
    }
    tell(rt, &pile)?;
    Ok(pile)
}

// The traffic with three delays on it, one after another.
fn pile<T: Traffic + Drop>(rt: &impl Print, below: T, delays: &str) -> io::Result<()> {
    let mut lines = delays.lines();
    let one = delayed(rt, below, lines.next().unwrap_or(""))?;
    let two = delayed(rt, one, lines.next().unwrap_or(""))?;
    let three = delayed(rt, two, lines.next().unwrap_or(""))?;
    drop(three);
    Ok(())
}

fn sender(line: &str) -> Option<Sender> {
    let all: [u32; 11] = numbers(line)?;
    let [node, identifier, bytes, jitter, a, b, c, d, e, f, g] = all;
    let spans = [a, b, c, d, e, f, g];
    Some(Sender {
        node,
        identifier,
        bytes,
        jitter,
        spans,
    })
}

// The traffic with the longest delay at every node.
fn longest<T: Traffic + Drop>(rt: &impl Print, below: T) -> io::Result<Delayed<T>> {
    let mut pile = Delayed::new(below);
    match pile.set([LONGEST_DELAY; NODES]) {
        Ok(()) => println!(rt; "set, reach {}", pile.reach())?,
        Err(refusal) => println!(rt; "refused {refusal}, reach {}", pile.reach())?,
    }
    Ok(pile)
}

// And four of them, one on another.
fn four<T: Traffic + Drop>(
    rt: &impl Print,
    below: T,
) -> io::Result<Delayed<Delayed<Delayed<Delayed<T>>>>> {
    longest(rt, longest(rt, longest(rt, longest(rt, below)?)?)?)
}

// The reach grows as far as it may, and no further.
fn tower(rt: &impl Print, mut sheet: Sheet) -> io::Result<()> {
    println!(rt; "tower")?;
    let jittery = Sender {
        node: 0,
        identifier: 1,
        bytes: 0,
        jitter: LONGEST_DELAY,
        spans: [1_000, 2_000, 3_000, 4_000, 5_000, 6_000, 7_000],
    };
    if let Err(refusal) = sheet.note(jittery) {
        println!(rt; "refused {refusal}")?;
    }
    let pile = four(rt, four(rt, four(rt, four(rt, sheet)?)?)?)?;
    drop(pile);
    Ok(())
}

fn main(rt: HostRuntime) -> io::Result<()> {
    let index = fs::read_to_string(&rt, "index")?;
    for name in index.lines() {
        println!(rt; "{name}")?;
        let path = format!(in rt.alloc(); "{name}.delays")?;
        let delays = fs::read_to_string(&rt, path.as_str())?;
        if name.starts_with("plan") {
            let path = format!(in rt.alloc(); "{name}.table")?;
            let mut plan = OpenPlan::new(rt.alloc())?;
            if let Err(fault) = read_table(&mut plan, &fs::read(&rt, path.as_str())?) {
                println!(rt; "{fault}")?;
            }
            pile(&rt, plan, delays.as_str())?;
        } else {
            let path = format!(in rt.alloc(); "{name}.senders")?;
            let mut sheet = Sheet::new(rt.alloc())?;
            for line in fs::read_to_string(&rt, path.as_str())?.lines() {
                if let Some(sender) = sender(line) {
                    if let Err(refusal) = sheet.note(sender) {
                        println!(rt; "refused {refusal}")?;
                    }
                }
            }
            pile(&rt, sheet, delays.as_str())?;
        }
    }
    tower(&rt, Sheet::new(rt.alloc())?)
}
