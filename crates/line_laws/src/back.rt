ghost use Rattle.line_laws.specs.Back.{ReadsBack, Reread};

use line_reader::{Refused, Request, read_request};
use line_writer::{ROW, write_log};
use logs::Log;

// Writes the line of the log and reads it again.
pub fn reread(log: Log) -> Result<Request, Refused>
    ensures gives { Reread log result }
    ensures law { ReadsBack }
{
    let mut row = [0u8; ROW];
    let n = write_log(&mut row, log).unwrap();
    read_request(&row[0..n - 1])
}
