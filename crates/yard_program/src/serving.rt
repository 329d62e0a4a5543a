use crate::input::{Ending, next_line};
use day_desk::{OpeningDesk, SIZE_SLOTS, TAG_SLOTS};
use line_input::LineBuffer;
use line_writer::ROW;
use logs::{Body, Place, Rest, Size, Species, Tag};
use ordered::Slot;
use std::io;
use std::io::{BufReader, Read, Write};
use yard_desk::{Desk, LoadingDesk};

// What stands in a slot before its tree blanks it.
const TAG_SLOT: Slot<Tag, Rest> = Slot {
    filled: false,
    key: Tag(0),
    value: Rest {
        body: Body {
            species: Species::Spruce,
            diameter: 0,
            length: 0,
            bay: 0,
        },
        place: Place::Standing,
    },
};

const SIZE_SLOT: Slot<Size, u8> = Slot {
    filled: false,
    key: Size {
        species: Species::Spruce,
        diameter: 0,
        length: 0,
        tag: 0,
    },
    value: 0,
};

// What follows a last line without its end byte: an input such as a terminal may go on after its end.
#[derive(Clone, Copy, PartialEq, Eq)]
enum LastLine {
    Ends,
    ReadsOn,
}

// Answers the lines of the input until one opens the yard, and tells whether one did.
fn serve_lines<D: Desk, R: Read, W: Write>(
    desk: &mut D,
    last: LastLine,
    input: &mut BufReader<R>,
    output: &mut W,
) -> io::Result<bool> {
    let mut row = [0u8; ROW];
    let mut line = LineBuffer::new();
    for _ in 0..u64::MAX {
        let Some(ending) = next_line(&mut line, input, output)? else {
            break;
        };
        let Ok(answered) = desk.answer(line.line(), &mut row) else {
            unreachable!();
        };
        output.write_all(&row[..answered.length])?;
        if answered.opens() {
            return Ok(true);
        }
        if ending == Ending::Input && last == LastLine::Ends {
            break;
        }
    }
    output.flush()?;
    Ok(false)
}

// Answers every line of the input: loading, opening, and then the open yard.
pub fn serve<R: Read, W: Write>(input: &mut BufReader<R>, output: &mut W) -> io::Result<()> {
    let mut tag_slots = [TAG_SLOT; TAG_SLOTS];
    let mut size_slots = [SIZE_SLOT; SIZE_SLOTS];
    let mut desk = OpeningDesk::over(&mut tag_slots, &mut size_slots);
    if serve_lines(&mut desk, LastLine::ReadsOn, input, output)? {
        serve_lines(&mut desk.open(), LastLine::ReadsOn, input, output)?;
    }
    Ok(())
}

// Answers every line of the input by a desk that loads logs and opens no yard.
pub fn load<R: Read, W: Write>(input: &mut BufReader<R>, output: &mut W) -> io::Result<()> {
    let mut slots = [TAG_SLOT; TAG_SLOTS];
    serve_lines(
        &mut LoadingDesk::over(&mut slots),
        LastLine::Ends,
        input,
        output,
    )?;
    Ok(())
}
