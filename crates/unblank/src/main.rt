// Reads a register file with blanks from the standard input, and writes it without them to the standard output.
#![tactic(auto)]

use std::io;
use std::io::Write;
use streams::input::{LONG, fill};
use streams::unblank::{BYTES, WORDS, unblank};

fn main(rt: HostRuntime) -> io::Result<()> {
    let mut input = [0; LONG];
    let count = fill(&mut rt.stdin(), &mut input)?;
    let mut words = [0; WORDS];
    let mut kept = [0; WORDS];
    let mut output = [0; BYTES];
    let sent = unblank(&input[..count], &mut words, &mut kept, &mut output);
    rt.stdout().write_all(&output[..sent])
}
