ghost use Rattle.std.specs.Prelude.{◌≡◌, []};
ghost use Rattle.array_tree.specs.Filling.{capacity_of};
ghost use Rattle.array_tree.specs.Trees.{Made};
ghost use Rattle.day_desk.specs.Loading.{Serves};
ghost use Rattle.day_desk.specs.Opening.{Opens};

use crate::{OpenDesk, OpeningDesk};
use array_tree::{ArrayTree, FillingTree};
use line_reader::{Request, read_request};
use log_yard::Yard;
use logs::{Log, Rest, Size, Tag};
use ordered::Slot;
use yard_desk::{Desk, LoadingDesk, Refusal, Reply};

// The slots of the two trees: room for 240 logs, and for 448 standing ones.
pub const TAG_SLOTS: usize = 255;

pub const SIZE_SLOTS: usize = 511;

impl<'a> OpeningDesk<'a> {
    // A desk with no log loaded.
    pub fn over(
        tag_slots: &'a mut [Slot<Tag, Rest>; TAG_SLOTS],
        size_slots: &'a mut [Slot<Size, u8>; SIZE_SLOTS],
    ) -> OpeningDesk<'a>
        ensures tags { Made tag_slots.old result.loader.tags }
        ensures sizes { Made size_slots.old result.sizes }
        ensures room { capacity_of result.loader.tags.layout ≡ 240 }
    {
        let loader = LoadingDesk::over(tag_slots);
        let sizes = FillingTree::over(size_slots);
        OpeningDesk { loader, sizes }
    }

    // Closes both trees and opens the yard over them. Nothing stands against it: the size tree is empty and has room for every
    // log that the tag tree can hold, and each loaded log was read within the limits.
    pub fn open(self) -> OpenDesk<ArrayTree<'a, Tag, Rest>, ArrayTree<'a, Size, u8>>
        ensures { Opens self.entry result }
    {
        let OpeningDesk { loader, sizes } = self;
        let tags = loader.into_tree();
        match Yard::open(tags.close(), sizes.close()) {
            Ok(yard) => OpenDesk::over(yard),
            Err(_) => unreachable(),
        }
    }
}

impl<'a> Desk for OpeningDesk<'a> {
    ghost page = { λ _. [] };

    ghost serves = { Serves };

    fn page(&self) -> &[Log] {
        &[]
    }

    // Loads the log that the line says, or tells how many logs the opened yard has.
    fn serve(&mut self, line: &[u8]) -> Result<Reply, Refusal> {
        match read_request(line)? {
            Request::Open => Ok(Reply::Opened(self.loader.count())),
            request => self.loader.load(request),
        }
    }
}
