//! The list of shapes that an instruction is reached with, if some way comes to it.

ghost use Rattle.std.specs.Prelude.{◌≡◌};
ghost use Rattle.sp_verify_shapes.specs.ReachRules.{reached_at};

use crate::shapes::Shapes;

/// The number of the list of shapes that an instruction is reached with, if some way comes to it.
pub fn reached(shapes: &Shapes, p: u32) -> Option<u32>
    ensures { result ≡ reached_at shapes.now p }
{
    match shapes.at.get(p as usize) {
        None => None,
        Some(n) => *n,
    }
}
