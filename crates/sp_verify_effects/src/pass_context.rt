//! What the passes go by: code, and what was found of it.

use sp_base::List;
use sp_code::Code;
use sp_verify_areas::blocks::Blocks;
use sp_verify_areas::homes::Homes;
use sp_verify_areas::owners::Owner;
use sp_verify_shapes::shapes::Shapes;

/// Code, its layouts by their blocks, and of each instruction whose code it is, what is around it, and the shapes that
/// it is reached with, and whether it is a call that repeats an earlier one (`IsPassContext`).
#[derive(Drop)]
pub struct PassContext<'a> {
    pub code: &'a Code,
    pub blocks: &'a Blocks,
    pub owners: &'a List<Owner>,
    pub homes: &'a Homes,
    pub shapes: &'a Shapes,
    pub repeats: &'a List<bool>,
}
