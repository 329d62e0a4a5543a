ghost use Rattle.std.specs.Prelude.{◌≡◌, replicate};
ghost use Rattle.day_desk.specs.Open.{tag_of, reply_to, Serves, no_log};

use line_reader::{Request, read_request};
use log_yard::{Answer, Yard};
use logs::{Body, Call, Log, Place, Rest, Size, Species, Tag};
use ordered::OrderedIndex;
use yard_desk::{Desk, Refusal, Reply};

// A page of fixed length, since the project allows no heap.
// The page of a LIST line.
const PAGE: usize = 100;

// What stands in the page before the first LIST.
const NO_LOG: Log = Log {
    tag: 0,
    rest: Rest {
        body: Body {
            species: Species::Spruce,
            diameter: 0,
            length: 0,
            bay: 0,
        },
        place: Place::Standing,
    },
};

// An open yard, and the page that a LIST writes into.
#[derive(Drop)]
pub struct OpenDesk<T: OrderedIndex<Tag, Rest>, S: OrderedIndex<Size, u8>> {
    yard: Yard<T, S>,
    page: [Log; PAGE],
}

// The tag that the call names. CALL and LIST name none, and answer with logs, so that nobody meets their 0.
fn tag_of(call: Call) -> u32
    ensures { result ≡ tag_of call }
{
    match call {
        Call::Arrive(tag, _) => tag,
        Call::Withdraw(tag) | Call::Saw(tag) | Call::Back(tag) | Call::Find(tag) => tag,
        Call::Call(_, _, _) | Call::List(_, _, _) => 0,
    }
}

fn reply_to(call: Call, answer: Answer) -> Reply
    ensures { result ≡ reply_to call answer }
{
    match answer {
        Answer::Done => Reply::Done(tag_of(call)),
        Answer::Found(log) => Reply::Found(log),
        Answer::Listed(count, more) => Reply::Listed(count, more),
    }
}

impl<T: OrderedIndex<Tag, Rest>, S: OrderedIndex<Size, u8>> OpenDesk<T, S> {
    pub fn over(yard: Yard<T, S>) -> OpenDesk<T, S>
        ensures yard { result.yard ≡ yard }
        ensures page { result.page ≡ replicate 100 no_log }
    {
        OpenDesk {
            yard,
            page: [NO_LOG; PAGE],
        }
    }
}

impl<T: OrderedIndex<Tag, Rest>, S: OrderedIndex<Size, u8>> Desk for OpenDesk<T, S> {
    ghost page = { λ d. d.page };

    ghost serves = { Serves T.OrderedIndex S.OrderedIndex };

    fn page(&self) -> &[Log] {
        &self.page
    }

    fn serve(&mut self, line: &[u8]) -> Result<Reply, Refusal> {
        match read_request(line)? {
            Request::Log(_) => Err(Refusal::AlreadyOpen),
            Request::Open => Err(Refusal::AlreadyOpen),
            Request::Call(call) => {
                let answer = self.yard.perform(&call, &mut self.page)?;
                Ok(reply_to(call, answer))
            }
        }
    }
}
