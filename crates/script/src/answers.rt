// The answers to a list of calls, one a line.
ghost use Rattle.std.specs.Prelude.{◌≡◌, Some, IfOk, string_bytes};
ghost use Rattle.std.specs.List.{flat_map};
ghost use Rattle.script.specs.Answers.{answer_text, ending_told, ending_of, Played};

use crate::calls::read_calls;
use life::life::Answer;
use life::replay::replay;
use std::alloc::{AllocError, Global};
use std::fmt;
use std::fmt::Write;

// Where the reading ended early, counted from 0: at a call that may not come, or at a line that is none.
#[derive(Clone, Copy, PartialEq, Eq, Debug)]
pub(crate) enum Ending {
    Misplaced(usize),
    Unread(usize),
}

// Lines are counted from 1. Without a line feed.
impl fmt::Display for Ending {
    ghost output = { λ ending. Some (ending_told ending) };

    fn fmt<W: fmt::Write>(&self, f: &mut fmt::Formatter<W>) -> fmt::Result {
        // One more than a place may be more than a usize holds; there is no From of a usize for a u128.
        match *self {
            Ending::Misplaced(place) => write!(f, "misplaced {}", place as u128 + 1),
            Ending::Unread(place) => write!(f, "unread {}", place as u128 + 1),
        }
    }
}

fn ending_of(misplaced: Option<usize>, unread: Option<usize>) -> Option<Ending>
    ensures { result ≡ ending_of misplaced unread }
{
    misplaced
        .map(Ending::Misplaced)
        .or(unread.map(Ending::Unread))
}

fn answers_text(heap: Global, answers: &[Answer]) -> Result<String, AllocError>
    ensures { IfOk result (λ text. string_bytes text ≡ flat_map answer_text answers.now) }
{
    let mut text = String::new(heap);
    for answer in answers {
        writeln!(text, "{answer}")?;
    }
    Ok(text)
}

// Works the calls of the text from an empty plan on, and tells the answer to each, and the ending where it is early. It
// fails only for want of memory.
pub fn play(heap: Global, text: &[u8]) -> Result<String, AllocError>
    ensures { IfOk result (λ out. Played text.now (string_bytes out)) }
{
    let script = read_calls(heap, text)?;
    let life = replay(heap, &script.calls)?;
    let mut out = answers_text(heap, &life.answers)?;
    if let Some(ending) = ending_of(life.misplaced, script.unread) {
        writeln!(out, "{ending}")?;
    }
    Ok(out)
}
