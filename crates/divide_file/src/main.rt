// Reads a case file from standard input, runs it against a new case, and prints what comes of each line.
#![tactic(auto)]

use std::io;
use std::io::{Read, Write};
use transcript::file::transcribe;
use transcript::runner::running::MOST_FILE;

// One byte more than the largest file: enough to know that a file is too long, so that no input runs on.
const MOST_READ: u64 = MOST_FILE as u64 + 1;

fn main(rt: HostRuntime) -> io::Result<()> {
    let mut file = Vec::new(rt.alloc());
    rt.stdin().take(MOST_READ).read_to_end(&mut file)?;
    let text = transcribe(file.as_slice(), rt.alloc())?;
    rt.stdout().write_all(text.as_slice())
}
