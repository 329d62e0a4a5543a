ghost use Rattle.std.specs.Prelude.{◌≡◌, ℕ, ◌<◌, ◌≤◌, List, length};
ghost use Rattle.line_writer.specs.Shows.{Answered};
ghost use Rattle.yard_desk.specs.Replies.{reply_line};

use crate::Refusal;
use line_writer::{ShortRow, write_list, write_log, write_no, write_ok, write_open};
use logs::Log;

// What a desk answers to a line that it accepts.
#[derive(Clone, Copy)]
pub enum Reply {
    // done, with the log of this tag
    Done(u32),
    Found(Log),
    // how many logs stand in the page, and whether more follow
    Listed(usize, bool),
    // how many logs are present
    Opened(usize),
}

// Writes the answer. The page is the one that the reply left.
pub(crate) fn write_reply(
    out: &mut [u8],
    reply: Result<Reply, Refusal>,
    page: &[Log],
) -> Result<usize, ShortRow>
    requires { length page.now ≤ 100 }
    ensures { Answered (reply_line page.now reply) out.old result out.new }
{
    match reply {
        Ok(Reply::Done(tag)) => write_ok(out, tag),
        Ok(Reply::Found(log)) => write_log(out, log),
        Ok(Reply::Listed(n, more)) => write_list(out, &page[0..n.min(page.len())], more),
        Ok(Reply::Opened(n)) => write_open(out, n),
        Err(refusal) => write_no(out, refusal.number(), refusal.position()),
    }
}
