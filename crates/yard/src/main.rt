// The program `yard`: loads a stock list from standard input, and answers each line on standard output.
#![tactic(auto)]

use std::io;
use std::io::BufReader;
use yard_program::load;

fn main(rt: HostRuntime) -> io::Result<()> {
    let mut input = BufReader::new(rt.alloc(), rt.stdin())?;
    let mut output = rt.stdout();
    load(&mut input, &mut output)
}
