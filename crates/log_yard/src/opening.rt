ghost use Rattle.std.specs.Prelude.{◌≡◌, ◌≤◌, [], length, Decides};
ghost use Rattle.log_yard.specs.Opens.{AllFit, Checked, Fills, GivesBack, Opens};

use crate::pairs::Pairs;
use crate::yard::size_of;
use crate::{OpenRefusal, Yard};
use logs::{Place, Rest, Size, Tag};
use ordered::OrderedIndex;

// Two indexes that were not opened, as they were, and why.
#[derive(Debug, PartialEq, Eq, Drop)]
pub struct Unopened<T, S> {
    pub refusal: OpenRefusal,
    pub tags: T,
    pub sizes: S,
}

// Whether each loaded log is within the limits.
fn all_fit<T: OrderedIndex<Tag, Rest>>(tags: &T) -> bool
    ensures { T.OrderedIndex.kept tags.now → Decides result (AllFit (T.OrderedIndex.row tags.now)) }
{
    Pairs::from_key(tags, Tag(0)).all(|(tag, rest)| tag.fits() && rest.body.fits())
}

// Puts each standing log into the size index.
fn stand_all<T: OrderedIndex<Tag, Rest>, S: OrderedIndex<Size, u8>>(tags: &T, sizes: &mut S)
    ensures { T.OrderedIndex.kept tags.now → S.OrderedIndex.kept sizes.old → S.OrderedIndex.row sizes.old ≡ [] → length (T.OrderedIndex.row tags.now) ≤ S.OrderedIndex.room sizes.old → Fills S.OrderedIndex (T.OrderedIndex.row tags.now) sizes.old sizes.new }
{
    for (tag, rest) in Pairs::from_key(tags, Tag(0)) {
        if rest.place == Place::Standing {
            let _ = sizes.put(size_of(tag.0, rest.body), rest.body.bay);
        }
    }
}

// Why the two indexes cannot be opened, if anything stands against it.
fn refusal_of<T: OrderedIndex<Tag, Rest>, S: OrderedIndex<Size, u8>>(
    tags: &T,
    sizes: &S,
) -> Option<OpenRefusal>
    ensures { T.OrderedIndex.kept tags.now → S.OrderedIndex.kept sizes.now → Checked T.OrderedIndex S.OrderedIndex tags.now sizes.now result }
{
    if sizes.count() != 0 {
        return Some(OpenRefusal::NotEmpty);
    }
    if tags.count() > sizes.capacity() {
        return Some(OpenRefusal::TooMany);
    }
    if !all_fit(tags) {
        return Some(OpenRefusal::OutsideLimits);
    }
    None
}

impl<T: OrderedIndex<Tag, Rest>, S: OrderedIndex<Size, u8>> Yard<T, S> {
    // A yard over the loaded logs, or both indexes back.
    pub fn open(tags: T, mut sizes: S) -> Result<Yard<T, S>, Unopened<T, S>>
        ensures law { T.OrderedIndex.kept tags → S.OrderedIndex.kept sizes → Opens T.OrderedIndex S.OrderedIndex tags sizes result }
        ensures back { GivesBack tags sizes result }
    {
        if let Some(refusal) = refusal_of(&tags, &sizes) {
            return Err(Unopened {
                refusal,
                tags,
                sizes,
            });
        }
        stand_all(&tags, &mut sizes);
        Ok(Yard { tags, sizes })
    }
}
