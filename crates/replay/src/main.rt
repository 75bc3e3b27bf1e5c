// Reads calls from standard input, one a line, works them on a plan that is empty at first, and prints the answer to each.
#![tactic(auto)]

use script::answers::play;
use std::io;
use std::io::Read;

fn main(rt: HostRuntime) -> io::Result<()> {
    let mut text = Vec::new(rt.alloc());
    let _ = rt.stdin().read_to_end(&mut text)?;
    rt.print(play(rt.alloc(), &text)?)
}
