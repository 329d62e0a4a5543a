ghost use Rattle.std.specs.Prelude.{◌≡◌, List};
ghost use Rattle.log_yard.specs.Tells.{Sought, SoughtAt, PerformsOffPage, capacity};

use crate::yard::size_of;
use crate::{Answer, Refusal, Yard};
use logs::{Body, Call, Log, Place, Rest, Size, Tag};
use ordered::OrderedIndex;

// The calls on one tag. Each checks all that can refuse it first, so that neither index refuses a change.
impl<T: OrderedIndex<Tag, Rest>, S: OrderedIndex<Size, u8>> Yard<T, S> {
    // How many logs can be present: as many as the lesser index has room for.
    pub fn capacity(&self) -> usize
        ensures { T.OrderedIndex.kept self.now.tags → S.OrderedIndex.kept self.now.sizes → result ≡ capacity T.OrderedIndex S.OrderedIndex self.now }
    {
        let a = self.tags.capacity();
        let b = self.sizes.capacity();
        a.min(b)
    }

    // What a present log is beside its tag.
    fn rest_of(&self, tag: u32) -> Result<Rest, Refusal>
        ensures { T.OrderedIndex.kept self.now.tags → Sought (T.OrderedIndex.row self.now.tags) tag result }
    {
        if !Tag(tag).fits() {
            return Err(Refusal::Outside);
        }
        self.tags.get(Tag(tag)).ok_or(Refusal::Absent)
    }

    // What the log is, if it is at the place.
    fn body_at(&self, tag: u32, place: Place) -> Result<Body, Refusal>
        ensures { T.OrderedIndex.kept self.now.tags → SoughtAt (T.OrderedIndex.row self.now.tags) tag place result }
    {
        let rest = self.rest_of(tag)?;
        if rest.place == place {
            return Ok(rest.body);
        }
        match rest.place {
            Place::Standing => Err(Refusal::Standing),
            Place::AtSaw => Err(Refusal::AtSaw),
        }
    }

    // The log with its place.
    pub fn find(&self, tag: u32) -> Result<Answer, Refusal>
        ensures { PerformsOffPage T.OrderedIndex S.OrderedIndex self.now (Call.Find tag) result self.now }
    {
        let rest = self.rest_of(tag)?;
        Ok(Answer::Found(Log { tag, rest }))
    }

    // Adds a standing log.
    pub fn arrive(&mut self, tag: u32, body: Body) -> Result<Answer, Refusal>
        ensures { PerformsOffPage T.OrderedIndex S.OrderedIndex self.old (Call.Arrive tag body) result self.new }
    {
        if !Tag(tag).fits() || !body.fits() {
            return Err(Refusal::Outside);
        }
        if self.tags.get(Tag(tag)).is_some() {
            return Err(Refusal::Present);
        }
        if self.tags.count() >= self.capacity() {
            return Err(Refusal::Full);
        }
        let rest = Rest {
            body,
            place: Place::Standing,
        };
        let _ = self.tags.put(Tag(tag), rest);
        let _ = self.sizes.put(size_of(tag, body), body.bay);
        Ok(Answer::Done)
    }

    // Removes a standing log.
    pub fn withdraw(&mut self, tag: u32) -> Result<Answer, Refusal>
        ensures { PerformsOffPage T.OrderedIndex S.OrderedIndex self.old (Call.Withdraw tag) result self.new }
    {
        let body = self.body_at(tag, Place::Standing)?;
        let _ = self.sizes.take(size_of(tag, body));
        let _ = self.tags.take(Tag(tag));
        Ok(Answer::Done)
    }

    // Removes a log at the saw.
    pub fn saw(&mut self, tag: u32) -> Result<Answer, Refusal>
        ensures { PerformsOffPage T.OrderedIndex S.OrderedIndex self.old (Call.Saw tag) result self.new }
    {
        self.body_at(tag, Place::AtSaw)?;
        let key = Tag(tag);
        let _ = self.tags.take(key);
        Ok(Answer::Done)
    }

    // Makes a log at the saw stand again.
    pub fn back(&mut self, tag: u32) -> Result<Answer, Refusal>
        ensures { PerformsOffPage T.OrderedIndex S.OrderedIndex self.old (Call.Back tag) result self.new }
    {
        let body = self.body_at(tag, Place::AtSaw)?;
        let place = Place::Standing;
        let _ = self.tags.set(Tag(tag), Rest { body, place });
        let _ = self.sizes.put(size_of(tag, body), body.bay);
        Ok(Answer::Done)
    }
}
