// Reads a table line by line, and enters each record before the next line is read.
ghost use Rattle.std.specs.Prelude.{◌≡◌, Some};
ghost use Rattle.plan.specs.Held.{held};
ghost use Rattle.table.specs.Table.{LineEntered, TableRead, layer_of};
ghost use Rattle.table.specs.Text.{layer_text, fault_told};

use bus::refusal::Refusal;
use line::line::{LineFault, read_line};
use plan::open::OpenPlan;
use std::error::Error;
use std::fmt;

// A longer text is refused.
pub const LONGEST_TEXT: usize = 16_384;

// The first line that is refused, and the place in it, both counted from 1, and why. A text that is too long is told as
// line 0, place 0.
#[derive(Clone, Copy, PartialEq, Eq, Debug)]
pub struct Fault {
    pub line: usize,
    pub place: usize,
    pub refusal: Refusal,
}

// What refused: the reading of the text, or the plan.
#[derive(Clone, Copy, PartialEq, Eq, Debug)]
pub enum Layer {
    Text,
    Plan,
}

impl Fault {
    pub fn layer(&self) -> Layer
        ensures { result ≡ layer_of self.now.refusal }
    {
        match self.refusal {
            Refusal::Line | Refusal::Text => Layer::Text,
            _ => Layer::Plan,
        }
    }
}

impl fmt::Display for Layer {
    ghost output = { λ layer. Some (layer_text layer) };

    fn fmt<W: fmt::Write>(&self, f: &mut fmt::Formatter<W>) -> fmt::Result {
        f.write_str(match self {
            Layer::Text => "text",
            Layer::Plan => "plan",
        })
    }
}

// Without a line feed.
impl fmt::Display for Fault {
    ghost output = { λ fault. Some (fault_told fault) };

    fn fmt<W: fmt::Write>(&self, f: &mut fmt::Formatter<W>) -> fmt::Result {
        let Fault {
            line,
            place,
            refusal,
        } = self;
        let layer = self.layer();
        write!(f, "(fault {line} {place} {layer} {refusal})")
    }
}

impl Error for Fault {}

// Enters the first line of `rest`, which is the line of that number: where the next line begins.
fn enter_line(plan: &mut OpenPlan, rest: &[u8], line: usize) -> Result<usize, Fault>
    ensures { LineEntered (held plan.old) rest.now line result (held plan.new) }
{
    let (message, next) = read_line(rest).map_err(|LineFault { at }| Fault {
        line,
        place: at + 1,
        refusal: Refusal::Line,
    })?;
    plan.enter(message).map_err(|refusal| Fault {
        line,
        place: 1,
        refusal,
    })?;
    Ok(next)
}

// Enters every line of the text, up to the first that is refused.
pub fn read_table(plan: &mut OpenPlan, text: &[u8]) -> Result<(), Fault>
    ensures { TableRead (held plan.old) text.now result (held plan.new) }
{
    if text.len() > LONGEST_TEXT {
        return Err(Fault {
            line: 0,
            place: 0,
            refusal: Refusal::Text,
        });
    }
    let mut rest = text;
    // The reading finds where a line ends: to split the text first would go over each byte twice, and owe that both agree.
    let mut line = 1;
    while !rest.is_empty() {
        let next = enter_line(plan, rest, line)?;
        rest = &rest[next..];
        line += 1;
    }
    Ok(())
}
