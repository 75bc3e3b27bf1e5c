// Reads calls, one a line.
ghost use Rattle.std.specs.Prelude.{◌≡◌, ◌↔◌, IfOk, IfSome, IsNone};
ghost use Rattle.script.specs.Calls.{Follows, MessageRead, AmountRead, CallRead, ScriptRead, Within};

use crate::words::{Word, read_word};
use life::life::Call;
use line::line::{LineFault, read_line};
use line::number::read_number;
use plan::record::Record;
use std::alloc::{AllocError, Global};

// The calls up to the end, or up to the first line that is none, whose place, counted from 0, is told.
#[derive(Drop)]
pub struct Script {
    pub calls: Vec<Call>,
    pub unread: Option<usize>,
}

// What was read at the beginning of the text, and what follows it.
fn follow<V>(text: &[u8], read: Result<(V, usize), LineFault>) -> Option<(V, &[u8])>
    requires { Within text.now read }
    ensures { Follows text.now read result }
{
    read.ok().map(|(value, next)| (value, &text[next..]))
}

// The message on the line that begins the text, and what comes after that line.
fn read_message(text: &[u8]) -> Option<(Record, &[u8])>
    ensures { MessageRead text.now result }
{
    follow(text, read_line(text))
}

// The number on the line that begins the text, and what comes after that line.
fn read_amount(text: &[u8]) -> Option<(u64, &[u8])>
    ensures { AmountRead text.now result }
{
    follow(text, read_number(text))
}

// The call that is made of an argument, and what comes after it.
fn called<'a, V, F: FnOnce(V) -> Call>(
    read: Option<(V, &'a [u8])>,
    call: F,
) -> Option<(Call, &'a [u8])>
    requires { F.IsAlwaysCallable call }
    ensures none { IsNone result ↔ IsNone read.entry }
    ensures made { IfSome result (λ made. IfSome read.entry (λ found. F.post call found.0 made.0 × (made.1.now ≡ found.1.now))) }
{
    read.map(|(value, rest)| (call(value), rest))
}

// The call on the line that begins the text, and what comes after that line.
fn read_call(text: &[u8]) -> Option<(Call, &[u8])>
    ensures { CallRead text.now result }
{
    let (word, argument) = read_word(text)?;
    match word {
        Word::Enter => called(read_message(argument), Call::Enter),
        Word::Alter => called(read_message(argument), Call::Alter),
        Word::Strike => called(read_amount(argument), Call::Strike),
        Word::Settle => Some((Call::Settle, argument)),
        Word::Reopen => Some((Call::Reopen, argument)),
        Word::Verdict => called(read_amount(argument), Call::Verdict),
        Word::Row => called(
            read_amount(argument),
            |position| Call::Row(position as usize),
        ),
    }
}

// Reads the calls of the text, up to the first line that is none.
pub fn read_calls(heap: Global, text: &[u8]) -> Result<Script, AllocError>
    ensures { IfOk result (λ script. ScriptRead text.now script) }
{
    let mut calls = Vec::new(heap);
    let mut rest = text;
    while !rest.is_empty() {
        let Some((call, after)) = read_call(rest) else {
            let unread = Some(calls.len());
            return Ok(Script { calls, unread });
        };
        calls.push(call)?;
        rest = after;
    }
    Ok(Script {
        calls,
        unread: None,
    })
}
