ghost use Rattle.std.specs.Prelude.{◌≡◌, ℕ, ◌+◌, ◌*◌, ◌<◌, ◌≤◌, [], ◌∷◌, ◌++◌, length};
ghost use Rattle.std.specs.List.{flat_map};
ghost use Rattle.line_writer.specs.Shows.{Added, place_word, log_line};

use itoa::{Buffer, Integer};
use logs::{Log, Place};

// An answer that is being written into a row, and where its next byte goes.
#[derive(Drop)]
pub(crate) struct Row<'a> {
    out: &'a mut [u8],
    at: usize,
}

fn place_word(place: Place) -> &'static [u8]
    ensures { result.now ≡ place_word place }
{
    match place {
        Place::Standing => b"YARD",
        Place::AtSaw => b"SAW",
    }
}

impl<'a> Row<'a> {
    pub(crate) fn begin(out: &'a mut [u8]) -> Row<'a>
        ensures same { result.out.ghost_name ≡ out.entry.ghost_name }
        ensures starts { result.at ≡ 0 }
        ensures bytes { result.out.now ≡ out.old }
    {
        Row { out, at: 0 }
    }

    // How many bytes are written.
    pub(crate) fn written(&self) -> usize
        ensures { result ≡ self.now.at }
    {
        self.at
    }

    fn text(&mut self, text: &[u8])
        requires { self.old.at + length text.now ≤ length self.old.out.now }
        ensures { Added text.now self.old self.new }
    {
        let end = self.at + text.len();
        self.out[self.at..end].copy_from_slice(text);
        self.at = end;
    }

    fn byte(&mut self, byte: u8)
        requires { self.old.at < length self.old.out.now }
        ensures { Added (byte ∷ []) self.old self.new }
    {
        self.out[self.at] = byte;
        self.at += 1;
    }

    // A field and the byte after it.
    pub(crate) fn field(&mut self, text: &[u8], end: u8)
        requires { self.old.at + length text.now + 1 ≤ length self.old.out.now }
        ensures adds { Added (text.now ++ (end ∷ [])) self.old self.new }
        ensures next { self.new.at ≡ self.old.at + length text.now + 1 }
        ensures length { length self.new.out.now ≡ length self.old.out.now }
    {
        self.text(text);
        self.byte(end);
    }

    // A number in decimal digits, and the byte after it.
    pub(crate) fn number<N: Integer>(&mut self, n: N, end: u8)
        requires { self.old.at + N.MAX_STR_LEN + 1 ≤ length self.old.out.now }
        ensures adds { Added (N.text n ++ (end ∷ [])) self.old self.new }
        ensures next { self.new.at ≤ self.old.at + N.MAX_STR_LEN + 1 }
        ensures length { length self.new.out.now ≡ length self.old.out.now }
    {
        self.field(Buffer::new().format(n).as_bytes(), end);
    }

    // The line of a log has at most 38 bytes, whatever its numbers are.
    pub(crate) fn log(&mut self, log: Log)
        requires { self.old.at + 38 ≤ length self.old.out.now }
        ensures adds { Added (log_line log) self.old self.new }
        ensures next { self.new.at ≤ self.old.at + 38 }
        ensures length { length self.new.out.now ≡ length self.old.out.now }
    {
        let body = log.rest.body;
        self.field(b"LOG", b'\t');
        self.number(log.tag, b'\t');
        self.field(&[body.species.letter()], b'\t');
        self.number(body.diameter, b'\t');
        self.number(body.length, b'\t');
        self.number(body.bay, b'\t');
        self.field(place_word(log.rest.place), b'\n');
    }

    pub(crate) fn logs(&mut self, logs: &[Log])
        requires { self.old.at + 38 * length logs.now ≤ length self.old.out.now }
        ensures adds { Added (flat_map log_line logs.now) self.old self.new }
        ensures next { self.new.at ≤ self.old.at + 38 * length logs.now }
        ensures length { length self.new.out.now ≡ length self.old.out.now }
    {
        for log in logs {
            self.log(*log);
        }
    }
}
