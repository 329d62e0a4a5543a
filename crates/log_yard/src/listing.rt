ghost use Rattle.std.specs.Prelude.{◌≡◌};
ghost use Rattle.ordered.specs.Meaning.{Ascending};
ghost use Rattle.logs.specs.Orders.{size_before};
ghost use Rattle.log_yard.specs.Pages.{Filled, range, next_of};
ghost use Rattle.log_yard.specs.Tells.{Performs};

use crate::pairs::Pairs;
use crate::{Answer, Refusal, Yard};
use logs::{Body, Call, Limits, Log, Place, Rest, Size, Species, Tag};
use ordered::OrderedIndex;

// No page of a LIST has more logs than these.
pub(crate) const MOST_LISTED: usize = 100;

// The standing log of a pair of the size index, if it is of the species and not thicker than `high`.
fn in_range(next: Option<(Size, u8)>, species: Species, high: u16) -> Option<Log>
    ensures { result ≡ next_of species high next }
{
    let (key, bay) = next?;
    if key.species != species || key.diameter > high {
        return None;
    }
    let body = Body {
        species,
        diameter: key.diameter,
        length: key.length,
        bay,
    };
    let place = Place::Standing;
    Some(Log {
        tag: key.tag,
        rest: Rest { body, place },
    })
}

impl<T: OrderedIndex<Tag, Rest>, S: OrderedIndex<Size, u8>> Yard<T, S> {
    // Writes the standing logs of the range into the page, and says how many and whether more follow.
    fn fill(&self, species: Species, low: u16, high: u16, page: &mut [Log]) -> (usize, bool)
        ensures { S.OrderedIndex.kept self.now.sizes → Ascending size_before (S.OrderedIndex.row self.now.sizes) × Filled (range (S.OrderedIndex.row self.now.sizes) species low high) page.old page.new result }
    {
        let from = Size {
            species,
            diameter: low,
            length: 0,
            tag: 0,
        };
        let mut pairs = Pairs::from_key(&self.sizes, from);
        let most = page.len().min(MOST_LISTED);
        let shown = &mut page[..most];
        for (n, entry) in shown.iter_mut().enumerate() {
            let Some(log) = in_range(pairs.next(), species, high) else {
                return (n, false);
            };
            *entry = log;
        }
        (most, in_range(pairs.next(), species, high).is_some())
    }

    // Writes the standing logs of the species from the one diameter to the other, in size order.
    pub fn list(
        &self,
        species: Species,
        low: u16,
        high: u16,
        page: &mut [Log],
    ) -> Result<Answer, Refusal>
        ensures { Performs T.OrderedIndex S.OrderedIndex self.now (Call.List species low high) result page.old page.new self.now }
    {
        if !Limits::DIAMETER.allow(u32::from(low)) || !Limits::DIAMETER.allow(u32::from(high)) {
            return Err(Refusal::Outside);
        }
        if low > high {
            return Err(Refusal::Reversed);
        }
        let (count, more) = self.fill(species, low, high, page);
        Ok(Answer::Listed(count, more))
    }
}
