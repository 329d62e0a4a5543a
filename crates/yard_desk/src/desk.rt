ghost use Rattle.std.specs.Prelude.{◌≡◌, ℕ, ◌≤◌, List, length, IfOk, Result};
ghost use Rattle.logs.specs.declared.log.Log.{Log as LogValue};
ghost use Rattle.yard_desk.specs.declared.refusal.Refusal.{Refusal as RefusalValue};
ghost use Rattle.yard_desk.specs.declared.reply.Reply.{Reply as ReplyValue};
ghost use Rattle.yard_desk.specs.Desks.{Answers, opens_yard};

use crate::reply::write_reply;
use crate::{Refusal, Reply};
use line_writer::{ROW, ShortRow};
use logs::Log;

// The length of an answer, and the reply that it tells.
#[derive(Clone, Copy)]
pub struct Answered {
    pub length: usize,
    pub reply: Result<Reply, Refusal>,
}

impl Answered {
    // Whether the line opens the yard.
    pub fn opens(&self) -> bool
        ensures { result ≡ opens_yard self.now.reply }
    {
        matches!(self.reply, Ok(Reply::Opened(_)))
    }
}

// What serves the lines of a yard. Every desk answers them in the same way.
pub trait Desk {
    ghost page: { Self → List LogValue };

    ghost serves: { Self → List ℕ → Result ReplyValue RefusalValue → Self → Type 0 };

    // The logs that a reply may list.
    fn page(&self) -> &[Log]
        ensures gives { result.now ≡ page self.now }
        ensures most { length result.now ≤ 100 };

    // Does what the line asks for.
    fn serve(&mut self, line: &[u8]) -> Result<Reply, Refusal>
        ensures { serves self.old line.now result self.new };

    // Answers the line at the start of the row.
    final fn answer(&mut self, line: &[u8], out: &mut [u8]) -> Result<Answered, ShortRow>
        ensures says { Answers page serves self.old line.now out.old result out.new self.new }
        ensures within { IfOk result (λ a. a.length ≤ length out.old) }
    {
        if out.len() < ROW {
            return Err(ShortRow {});
        }
        let reply = self.serve(line);
        let length = write_reply(out, reply, self.page())?;
        Ok(Answered { length, reply })
    }
}
