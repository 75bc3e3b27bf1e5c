// Reads a number that closes its line.
ghost use Rattle.line.specs.Number.{NumberRead};

use crate::line::LineFault;
use crate::reader::Reader;
use crate::tokens::Mark;

// The number that begins the text, and where the line feed after it ends.
pub fn read_number(text: &[u8]) -> Result<(u64, usize), LineFault>
    ensures { NumberRead text.now result }
{
    let mut reader = Reader { text, at: 0 };
    let n = reader.number(Mark::Feed)?;
    Ok((n, reader.at))
}
