ghost use Rattle.std.specs.Prelude.{◌≡◌, ℕ, ◌<◌, ◌≤◌, length, take, MatchResult};
ghost use Rattle.line_writer.specs.Shows.{Answered, ok_line, no_line, open_line, log_line, list_lines, short_number};

use crate::row::Row;
use logs::Log;

// The bytes of a row that holds every answer.
pub const ROW: usize = 4096;

// No answer lists more logs than these.
const MOST_LISTED: usize = 100;

// The row for the answer is shorter than that, and nothing was written into it.
#[derive(Clone, Copy, Debug, PartialEq, Eq)]
pub struct ShortRow {}

impl ShortRow {
    pub fn number(self) -> u8
        ensures { result ≡ short_number }
    {
        16
    }
}

// Refuses a row that is too short.
fn check_row(out: &[u8]) -> Result<(), ShortRow>
    ensures { MatchResult result (λ _. 4096 ≤ length out.now) (λ _. length out.now < 4096) }
{
    if out.len() < ROW {
        return Err(ShortRow {});
    }
    Ok(())
}

pub fn write_ok(out: &mut [u8], tag: u32) -> Result<usize, ShortRow>
    ensures { Answered (ok_line tag) out.old result out.new }
{
    check_row(out)?;
    let mut row = Row::begin(out);
    row.field(b"OK", b'\t');
    row.number(tag, b'\n');
    Ok(row.written())
}

pub fn write_no(out: &mut [u8], number: u8, position: u8) -> Result<usize, ShortRow>
    ensures { Answered (no_line number position) out.old result out.new }
{
    check_row(out)?;
    let mut row = Row::begin(out);
    row.field(b"NO", b'\t');
    row.number(number, b'\t');
    row.number(position, b'\n');
    Ok(row.written())
}

// So many logs are present in the yard that was opened.
pub fn write_open(out: &mut [u8], count: usize) -> Result<usize, ShortRow>
    ensures { Answered (open_line count) out.old result out.new }
{
    check_row(out)?;
    let mut row = Row::begin(out);
    row.field(b"OPEN", b'\t');
    row.number(count, b'\n');
    Ok(row.written())
}

pub fn write_log(out: &mut [u8], log: Log) -> Result<usize, ShortRow>
    ensures { Answered (log_line log) out.old result out.new }
{
    check_row(out)?;
    let mut row = Row::begin(out);
    row.log(log);
    Ok(row.written())
}

// Writes the first hundred logs at most: 3,813 bytes with the line that ends them.
pub fn write_list(out: &mut [u8], logs: &[Log], more: bool) -> Result<usize, ShortRow>
    ensures { Answered (list_lines (take 100 logs.now) more) out.old result out.new }
{
    check_row(out)?;
    let listed = &logs[..MOST_LISTED.min(logs.len())];
    let mut row = Row::begin(out);
    row.logs(listed);
    row.field(b"END", b'\t');
    row.number(listed.len(), b'\t');
    row.number(u8::from(more), b'\n');
    Ok(row.written())
}
