ghost use Rattle.std.specs.Prelude.{◌≡◌, ◌≤◌};
ghost use Rattle.log_yard.specs.Opens.{AllFit};
ghost use Rattle.array_tree.specs.Filling.{capacity_of};
ghost use Rattle.yard_desk.specs.Loading.{loaded, capacity};

use array_tree::FillingTree;
use logs::Size;
use yard_desk::LoadingDesk;

// A yard that is not open yet: logs are loaded, and the size tree waits. Every loaded log is within the limits, and the size
// tree is empty and has room for as many logs as the tag tree, so that nothing can stand against opening.
#[derive(Drop)]
pub struct OpeningDesk<'a> {
    pub(crate) loader: LoadingDesk<'a>,
    pub(crate) sizes: FillingTree<'a, Size, u8>,
    pub ghost fit: { AllFit (loaded loader) },
    pub ghost empty: { sizes.count ≡ 0 },
    pub ghost roomy: { capacity loader ≤ capacity_of sizes.layout },
}
