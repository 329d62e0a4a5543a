// The program `day`: reads the lines of a day from standard input, loading, opening and the open yard, and answers each.
#![tactic(auto)]

use std::io;
use std::io::{BufReader, BufWriter};
use yard_program::serve;

fn main(rt: HostRuntime) -> io::Result<()> {
    let mut input = BufReader::new(rt.alloc(), rt.stdin())?;
    let mut output = BufWriter::new(rt.alloc(), rt.stdout())?;
    serve(&mut input, &mut output)
}
