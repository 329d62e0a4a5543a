use line_input::LineBuffer;
use std::io;
use std::io::{BufRead, BufReader, Read, Write};

// How a line came to its end.
#[derive(Clone, Copy, PartialEq, Eq)]
pub(crate) enum Ending {
    // by its end byte
    Byte,
    // by the end of the input
    Input,
}

// Brings the next line into the buffer, and tells how it ended; a last line without its end byte counts if it has a byte.
// Answers go out before the input is read again, so that a person sees each one before typing the next line, and a pipe is
// served in large pieces.
pub(crate) fn next_line<R: Read, W: Write>(
    line: &mut LineBuffer,
    input: &mut BufReader<R>,
    output: &mut W,
) -> io::Result<Option<Ending>> {
    line.clear();
    for _ in 0..u64::MAX {
        if input.buffer().is_empty() {
            output.flush()?;
        }
        let chunk = input.fill_buf()?;
        if chunk.is_empty() {
            break;
        }
        let length = chunk.len();
        match line.push(chunk) {
            Some(used) => {
                input.consume(used);
                return Ok(Some(Ending::Byte));
            }
            None => input.consume(length),
        }
    }
    Ok((!line.line().is_empty()).then_some(Ending::Input))
}
