ghost use Rattle.std.specs.Prelude.{◌≡◌, ◌≤◌, ◌==◌, List, [], ◌++◌, length, position, take};
ghost use Rattle.line_input.specs.Lines.{up_to_end, after_end, kept};

const KEPT: usize = 201;

// An array and a length, and no `ArrayVec`, since callers may copy the buffer.
// The first bytes of a line that is not at its end yet.
#[derive(Clone, Copy)]
pub struct LineBuffer {
    bytes: [u8; KEPT],
    len: usize,
    ghost within: { len ≤ 201 },
}

// Where the end of the line stands in the chunk.
fn end_of_line(chunk: &[u8]) -> Option<usize>
    ensures { result ≡ position (λ b. b == 10) chunk.now }
{
    chunk.iter().position(|b| *b == b'\n')
}

impl LineBuffer {
    pub fn new() -> LineBuffer
        ensures { take result.len result.bytes ≡ [] }
    {
        LineBuffer {
            bytes: [0; KEPT],
            len: 0,
        }
    }

    // What is kept of the line.
    pub fn line(&self) -> &[u8]
        ensures { result.now ≡ take self.now.len self.now.bytes }
    {
        &self.bytes[0..self.len]
    }

    // Begins the next line.
    pub fn clear(&mut self)
        ensures { take self.new.len self.new.bytes ≡ [] }
    {
        self.len = 0;
    }

    // Adds the bytes of the chunk up to the end of the line. Gives how many bytes of the chunk the line has used,
    // its end included, or none if the line goes on after the chunk.
    #[tactic(auto, using(crate::proofs::Ends::after_end_is))]
    pub fn push(&mut self, chunk: &[u8]) -> Option<usize>
        ensures gives { result ≡ after_end chunk.now }
        ensures keeps { take self.new.len self.new.bytes ≡ kept (take self.old.len self.old.bytes ++ up_to_end chunk.now) }
    {
        let end = end_of_line(chunk);
        let line = &chunk[..end.unwrap_or(chunk.len())];
        let start = self.len;
        let n = line.len().min(KEPT - start);
        self.bytes[start..start + n].copy_from_slice(&line[..n]);
        self.len = start + n;
        end.map(|end| end + 1)
    }
}
