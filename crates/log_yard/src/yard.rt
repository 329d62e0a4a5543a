ghost use Rattle.std.specs.Prelude.{◌≡◌};
ghost use Rattle.log_yard.specs.Sizes.{size_of};

use logs::{Body, Rest, Size, Tag};
use ordered::OrderedIndex;

// An open yard. The tag index has every present log; the size index has the bays of the standing ones.
#[derive(Drop)]
pub struct Yard<T: OrderedIndex<Tag, Rest>, S: OrderedIndex<Size, u8>> {
    pub(crate) tags: T,
    pub(crate) sizes: S,
}

pub(crate) fn size_of(tag: u32, body: Body) -> Size
    ensures { result ≡ size_of tag body }
{
    Size {
        species: body.species,
        diameter: body.diameter,
        length: body.length,
        tag,
    }
}
