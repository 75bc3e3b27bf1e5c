// Prints the name and the report of each table that the file index names.
#![tactic(auto)]

use std::{fs, io};
use table::answer::answer;

fn main(rt: HostRuntime) -> io::Result<()> {
    let index = fs::read_to_string(&rt, "index")?;
    for name in index.lines() {
        let path = format!(in rt.alloc(); "{name}.table")?;
        let text = fs::read(&rt, path.as_str())?;
        let report = answer(rt.alloc(), &text)?;
        print!(rt; "{name}\n{report}")?;
    }
    Ok(())
}
