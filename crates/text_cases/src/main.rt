//! Prints what texts mean, and how values are written: standard input has the cases of each part below a line
//! `====== PART`, which is printed above what the part says to them. The parts are `keys`, `replies`, `commands`, `schemas`,
//! `tables` and `lines`, which are texts of JSON. Where `serde_json` prints an answer or a canonical text otherwise than it stands, that is said behind it.
#![tactic(auto)]

mod buffers;
mod commands;
mod keys;
mod printed;
mod replies;
mod schemas;
mod scripts;
mod tables;

use std::io;
use std::io::BufRead;

#[derive(Clone, Copy)]
enum Part {
    Keys,
    Replies,
    Commands,
    Schemas,
    Tables,
    Lines,
}

const PARTS: [Part; 6] = [
    Part::Keys,
    Part::Replies,
    Part::Commands,
    Part::Schemas,
    Part::Tables,
    Part::Lines,
];

impl Part {
    fn name(self) -> &'static str {
        match self {
            Part::Keys => "keys",
            Part::Replies => "replies",
            Part::Commands => "commands",
            Part::Schemas => "schemas",
            Part::Tables => "tables",
            Part::Lines => "lines",
        }
    }
}

fn part_named(name: &[u8]) -> Option<Part> {
    PARTS
        .iter()
        .copied()
        .find(|part| part.name().as_bytes() == name)
}

// The part that begins below a line.
fn begun(line: &[u8]) -> Option<Part> {
    match line {
        [b'=', b'=', b'=', b'=', b'=', b'=', b' ', name @ ..] => part_named(name),
        _ => None,
    }
}

// A part, and the lines of its cases.
#[derive(Drop)]
struct Section {
    part: Part,
    lines: Vec<Vec<u8>>,
}

fn tell(rt: &HostRuntime, section: &Section) -> io::Result<()> {
    let name = section.part.name();
    println!(rt; "====== {name}")?;
    match section.part {
        Part::Keys => keys::tell(rt, &section.lines),
        Part::Replies => replies::tell(rt),
        Part::Commands => commands::tell(rt, &section.lines),
        Part::Schemas => schemas::tell(rt, &section.lines),
        Part::Tables => tables::tell(rt, &section.lines),
        Part::Lines => printed::tell(rt, &section.lines),
    }
}

fn main(rt: HostRuntime) -> io::Result<()> {
    let alloc = rt.alloc();
    let mut open: Option<Section> = None;
    for line in rt.reader().split(alloc, b'\n') {
        let line = line?;
        if let Some(part) = begun(&line) {
            let lines = Vec::new(alloc);
            if let Some(ended) = open.replace(Section { part, lines }) {
                tell(&rt, &ended)?;
            }
        } else if let Some(section) = &mut open {
            section.lines.push(line)?;
        }
    }
    match open {
        Some(last) => tell(&rt, &last),
        None => Ok(()),
    }
}
