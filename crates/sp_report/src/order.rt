//! The watchers of the program in their order.

ghost use Rattle.std.specs.Prelude.{◌≡◌, ◌∷◌, [], IfOk, codes, map};
ghost use Rattle.sp_report.specs.WatcherReports.{AreFresh};

use crate::watcher::Watcher;
use std::alloc::{AllocError, Global};

/// The four watchers in the order in which their reports stand, each at the place of its name. They have been told
/// nothing. The error is want of memory alone.
pub fn in_order(
    alloc: Global,
    timeline: Box<dyn Watcher>,
    census: Box<dyn Watcher>,
    tree: Box<dyn Watcher>,
    waiting: Box<dyn Watcher>,
) -> Result<Vec<Box<dyn Watcher>>, AllocError>
    requires first { (told timeline ≡ []) × (title timeline ≡ codes "timeline") }
    requires second { (told census ≡ []) × (title census ≡ codes "census") }
    requires third { (told tree ≡ []) × (title tree ≡ codes "tree") }
    requires fourth { (told waiting ≡ []) × (title waiting ≡ codes "waiting") }
    ensures fresh { IfOk result (λ ws. AreFresh told ws.items) }
    ensures order { IfOk result (λ ws. map title ws.items
        ≡ codes "timeline" ∷ codes "census" ∷ codes "tree" ∷ codes "waiting" ∷ []) }
{
    Ok(vec![in alloc; timeline, census, tree, waiting]?)
}
