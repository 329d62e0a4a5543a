ghost use Rattle.log_yard.specs.Opens.{GivesBack};
ghost use Rattle.log_yard.specs.Serving.{Served, Untouched};

use crate::{Answer, Refusal, Unopened, Yard};
use logs::{Call, Log, Rest, Size, Tag};
use ordered::OrderedIndex;

// Opens a yard over the two indexes and does the calls one after another. Gives the yard and how many were done.
pub fn serve<T: OrderedIndex<Tag, Rest>, S: OrderedIndex<Size, u8>>(
    tags: T,
    sizes: S,
    calls: &[Call],
    answers: &mut [Result<Answer, Refusal>],
    page: &mut [Log],
) -> Result<(Yard<T, S>, usize), Unopened<T, S>>
    ensures law { T.OrderedIndex.kept tags → S.OrderedIndex.kept sizes → Served T.OrderedIndex S.OrderedIndex tags sizes calls.now answers.old answers.new page.old page.new result }
    ensures back { GivesBack tags sizes result }
    ensures still { Untouched result answers.old answers.new page.old page.new }
{
    let mut yard = Yard::open(tags, sizes)?;
    let done = yard.run(calls, answers, page);
    Ok((yard, done))
}
