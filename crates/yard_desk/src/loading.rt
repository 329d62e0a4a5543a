ghost use Rattle.std.specs.Prelude.{◌≡◌, [], Ok, length};
ghost use Rattle.array_tree.specs.Trees.{Made};
ghost use Rattle.yard_desk.specs.Loading.{Asked, Serves, loaded};

use crate::{Desk, LoadingDesk, Refusal, Reply};
use array_tree::FillingTree;
use line_reader::{Request, read_request};
use logs::{Log, Rest, Tag};
use ordered::Slot;

impl<'a> LoadingDesk<'a> {
    // A desk with no log loaded, over the slots of the tag tree.
    pub fn over(slots: &'a mut [Slot<Tag, Rest>]) -> LoadingDesk<'a>
        ensures { Made slots.old result.tags }
    {
        LoadingDesk {
            tags: FillingTree::over(slots),
        }
    }

    // How many logs are loaded.
    pub fn count(&self) -> usize
        ensures { result ≡ length (loaded self.now) }
    {
        self.tags.count()
    }

    // Loads the log of a LOG line. Every other line asks for an open yard.
    pub fn load(&mut self, request: Request) -> Result<Reply, Refusal>
        ensures { Asked self.old (Ok request) result self.new }
    {
        match request {
            Request::Log(log) => {
                self.tags.feed(Tag(log.tag), log.rest)?;
                Ok(Reply::Done(log.tag))
            }
            Request::Open => Err(Refusal::NotOpen),
            Request::Call(_) => Err(Refusal::NotOpen),
        }
    }

    // The tree with the loaded logs.
    pub fn into_tree(self) -> FillingTree<'a, Tag, Rest>
        ensures { result ≡ self.entry.tags }
    {
        let LoadingDesk { tags } = self;
        tags
    }
}

impl<'a> Desk for LoadingDesk<'a> {
    ghost page = { λ _. [] };

    ghost serves = { Serves };

    fn page(&self) -> &[Log] {
        &[]
    }

    fn serve(&mut self, line: &[u8]) -> Result<Reply, Refusal> {
        self.load(read_request(line)?)
    }
}
