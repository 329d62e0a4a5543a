ghost use Rattle.std.specs.Prelude.{◌≡◌, List, Decides};
ghost use Rattle.logs.specs.Limits.{DiameterOk, LengthOk};
ghost use Rattle.log_yard.specs.Fitting.{LimitsOf, FirstFit};
ghost use Rattle.log_yard.specs.Tells.{PerformsOffPage};

use crate::{Answer, Refusal, Yard};
use logs::{Call, Limits, Log, Place, Rest, Size, Species, Tag};
use ordered::OrderedIndex;

// No log has a larger diameter.
const THICKEST: u16 = Limits::DIAMETER.high as u16;

impl<T: OrderedIndex<Tag, Rest>, S: OrderedIndex<Size, u8>> Yard<T, S> {
    // The first standing log that fits, by its key. It hops from diameter to diameter, past the logs that are too short.
    fn first_fit(&self, species: Species, diameter: u16, length: u16) -> Option<Size>
        ensures { S.OrderedIndex.kept self.now.sizes → LimitsOf (S.OrderedIndex.row self.now.sizes) → FirstFit (S.OrderedIndex.row self.now.sizes) species diameter length result }
    {
        let mut d = diameter;
        // No index is counted: the next diameter is that of the log that was found.
        while d <= THICKEST {
            let from = Size {
                species,
                diameter: d,
                length,
                tag: 0,
            };
            let (key, _) = self.sizes.at_or_above(from)?;
            if key.species != species {
                return None;
            }
            if key.length >= length {
                return Some(key);
            }
            d = key.diameter.max(d + 1);
        }
        None
    }

    // Sends the first standing log that fits to the saw.
    pub fn call(&mut self, species: Species, diameter: u16, length: u16) -> Result<Answer, Refusal>
        ensures { PerformsOffPage T.OrderedIndex S.OrderedIndex self.old (Call.Call species diameter length) result self.new }
    {
        if !Limits::DIAMETER.allow(u32::from(diameter))
            || !Limits::LENGTH.allow(u32::from(length))
        {
            return Err(Refusal::Outside);
        }
        let key = self
            .first_fit(species, diameter, length)
            .ok_or(Refusal::NoneFits)?;
        // It is there, as every standing log is.
        let was = self.tags.get(Tag(key.tag)).ok_or(Refusal::NoneFits)?;
        let rest = Rest {
            body: was.body,
            place: Place::AtSaw,
        };
        let _ = self.sizes.take(key);
        let _ = self.tags.set(Tag(key.tag), rest);
        Ok(Answer::Found(Log { tag: key.tag, rest }))
    }
}
