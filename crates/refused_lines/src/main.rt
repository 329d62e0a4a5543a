// The program on lines of every kind of refusal, long, empty and odd ones among them, and a last line without its end.
#![tactic(auto)]

use std::io;
use std::io::{BufReader, BufWriter};
use yard_program::serve;

fn main(rt: HostRuntime) -> io::Result<()> {
    let mut input = BufReader::new(rt.alloc(), rt.stdin())?;
    let mut output = BufWriter::new(rt.alloc(), rt.stdout())?;
    serve(&mut input, &mut output)
}
