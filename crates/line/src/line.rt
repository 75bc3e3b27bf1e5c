// Reads the line of a record.
ghost use Rattle.line.specs.Reader.{Gives};
ghost use Rattle.line.specs.Grammar.{gap_form, timed_form, kind_form};
ghost use Rattle.line.specs.Line.{Read};

use crate::names::Name;
use crate::reader::Reader;
use crate::tokens::Mark;
use plan::record::{Kind, Record};

// The first `at` bytes of the line are as some lawful line begins, and no more of them are.
#[derive(Clone, Copy, PartialEq, Eq, Debug)]
pub struct LineFault {
    pub at: usize,
}

// Which word begins a kind.
#[derive(Clone, Copy, PartialEq, Eq, Debug)]
enum Start {
    Timed,
    Event,
}

// What comes after an offset.
#[derive(Clone, Copy, PartialEq, Eq, Debug)]
enum Rest {
    Gap,
    Jitter,
}

// `G) (jitter `, after `(event `.
fn read_gap(reader: &mut Reader<'_>) -> Result<u64, LineFault>
    ensures { Gives gap_form reader.old reader.new result }
{
    let gap = reader.amount(Mark::Space)?;
    reader.opening(Name::Jitter)?;
    Ok(gap)
}

// `T O) (event G) (jitter ` or `T O) (jitter `, after `(timed `.
fn read_timed(reader: &mut Reader<'_>) -> Result<Kind, LineFault>
    ensures { Gives timed_form reader.old reader.new result }
{
    let period = reader.number(Mark::Space)?;
    let offset = reader.amount(Mark::Space)?;
    match reader.either((Name::Event, Rest::Gap), (Name::Jitter, Rest::Jitter))? {
        Rest::Gap => {
            let gap = read_gap(reader)?;
            Ok(Kind::Mixed {
                period,
                offset,
                gap,
            })
        }
        Rest::Jitter => Ok(Kind::Periodic { period, offset }),
    }
}

// The kind, and the bracket and the word of the jitter.
fn read_kind(reader: &mut Reader<'_>) -> Result<Kind, LineFault>
    ensures { Gives kind_form reader.old reader.new result }
{
    match reader.either((Name::Timed, Start::Timed), (Name::Event, Start::Event))? {
        Start::Timed => read_timed(reader),
        Start::Event => {
            let gap = read_gap(reader)?;
            Ok(Kind::Sporadic { gap })
        }
    }
}

// The line that begins the text: its record, and where the next line begins.
pub fn read_line(text: &[u8]) -> Result<(Record, usize), LineFault>
    ensures { Read text.now result }
{
    let mut reader = Reader { text, at: 0 };
    reader.opening(Name::Message)?;
    let identifier = reader.number(Mark::Space)?;
    let node = reader.field(Name::Node, Mark::Space)?;
    let bytes = reader.field(Name::Bytes, Mark::Space)?;
    let kind = read_kind(&mut reader)?;
    let jitter = reader.amount(Mark::Space)?;
    let due = reader.field(Name::Due, Mark::Close)?;
    reader.mark(Mark::Feed)?;
    let record = Record {
        identifier,
        node,
        bytes,
        kind,
        jitter,
        due,
    };
    Ok((record, reader.at))
}
