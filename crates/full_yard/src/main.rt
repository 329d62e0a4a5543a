// The program on a full yard of 240 logs, with more than 100 of them to list.
#![tactic(auto)]

use std::io;
use std::io::{BufReader, BufWriter};
use yard_program::serve;

fn main(rt: HostRuntime) -> io::Result<()> {
    let mut input = BufReader::new(rt.alloc(), rt.stdin())?;
    let mut output = BufWriter::new(rt.alloc(), rt.stdout())?;
    serve(&mut input, &mut output)
}
