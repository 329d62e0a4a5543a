ghost use Rattle.std.specs.Prelude.{◌≡◌, ℕ, ◌+◌, ◌<◌, ◌≤◌};
ghost use Rattle.line_reader.specs.Reads.{reads, asks, arity, tagged, sized};

use crate::draft::{Draft, check};
use crate::fields::Fields;
use crate::{Reason, Refused, Request, Word};
use logs::{Call, Limits, Log, Rest, Species};

// The most bytes of a line.
const LONGEST: usize = 200;

fn read_tag(line: &Fields) -> Result<u32, Refused>
    ensures { result ≡ tagged line.now }
{
    check(Limits::TAG, line.number(1)?, 1)
}

fn read_log(line: &Fields) -> Result<Request, Refused>
    ensures { result ≡ asks Word.Log line.now }
{
    let draft = Draft::read(line)?;
    let place = line.place(6)?;
    let (tag, body) = draft.fit()?;
    Ok(Request::Log(Log {
        tag,
        rest: Rest { body, place },
    }))
}

fn read_arrive(line: &Fields) -> Result<Request, Refused>
    ensures { result ≡ asks Word.Arrive line.now }
{
    let (tag, body) = Draft::read(line)?.fit()?;
    Ok(Request::Call(Call::Arrive(tag, body)))
}

// A species, a diameter, and a third field with limits of its own.
fn read_sizes(line: &Fields, third: Limits) -> Result<(Species, u16, u16), Refused>
    requires { third.high < 65536 }
    ensures { result ≡ sized third line.now }
{
    let species = line.letter(1)?;
    let d = line.number(2)?;
    let e = line.number(3)?;
    // Within its limits each number fits the smaller type.
    let diameter = check(Limits::DIAMETER, d, 2)? as u16;
    let other = check(third, e, 3)? as u16;
    Ok((species, diameter, other))
}

fn read_call(line: &Fields) -> Result<Request, Refused>
    ensures { result ≡ asks Word.Call line.now }
{
    let (species, diameter, length) = read_sizes(line, Limits::LENGTH)?;
    Ok(Request::Call(Call::Call(species, diameter, length)))
}

fn read_list(line: &Fields) -> Result<Request, Refused>
    ensures { result ≡ asks Word.List line.now }
{
    let (species, low, high) = read_sizes(line, Limits::DIAMETER)?;
    if low <= high {
        Ok(Request::Call(Call::List(species, low, high)))
    } else {
        Err(Refused::at(Reason::Reversed, 3))
    }
}

// How many fields follow the word.
fn fields_after(word: Word) -> usize
    ensures { result ≡ arity word }
{
    match word {
        Word::Log => 6,
        Word::Open => 0,
        Word::Arrive => 5,
        Word::Withdraw | Word::Saw | Word::Back | Word::Find => 1,
        Word::Call | Word::List => 3,
    }
}

fn read_fields(word: Word, line: &Fields) -> Result<Request, Refused>
    ensures { result ≡ asks word line.now }
{
    match word {
        Word::Log => read_log(line),
        Word::Open => Ok(Request::Open),
        Word::Arrive => read_arrive(line),
        Word::Withdraw => Ok(Request::Call(Call::Withdraw(read_tag(line)?))),
        Word::Call => read_call(line),
        Word::Saw => Ok(Request::Call(Call::Saw(read_tag(line)?))),
        Word::Back => Ok(Request::Call(Call::Back(read_tag(line)?))),
        Word::Find => Ok(Request::Call(Call::Find(read_tag(line)?))),
        Word::List => read_list(line),
    }
}

// What the line asks for, or the first reason why it is refused. The line comes without its end byte.
pub fn read_request(line: &[u8]) -> Result<Request, Refused>
    ensures { result ≡ reads line.now }
{
    if line.len() > LONGEST {
        return Err(Refused::at(Reason::LongLine, 0));
    }
    let fields = Fields::split(line);
    let word = fields.word().ok_or(Refused::at(Reason::UnknownWord, 0))?;
    if fields.count() != 1 + fields_after(word) {
        return Err(Refused::at(Reason::FieldCount, 0));
    }
    read_fields(word, &fields)
}
