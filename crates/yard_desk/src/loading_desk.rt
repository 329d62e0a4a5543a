use array_tree::FillingTree;
use logs::{Rest, Tag};

// A yard that is not open yet: its logs are loaded in the order of their tags.
#[derive(Drop)]
pub struct LoadingDesk<'a> {
    pub(crate) tags: FillingTree<'a, Tag, Rest>,
}
