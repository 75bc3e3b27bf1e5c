// Reads a table from standard input and prints how long each message can wait, or the first fault.
#![tactic(auto)]

use std::io;
use std::io::Read;
use table::answer::answer;
use table::table::LONGEST_TEXT;

fn main(rt: HostRuntime) -> io::Result<()> {
    let mut text = Vec::new(rt.alloc());
    // One byte past the longest text tells that it is too long. There is no From of a usize for a u64.
    rt.stdin()
        .take(LONGEST_TEXT as u64 + 1)
        .read_to_end(&mut text)?;
    rt.print(answer(rt.alloc(), &text)?)
}
