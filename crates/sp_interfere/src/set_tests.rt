//! What the rules ask of sets: whether one has a variable, whether two meet, whether two statements clash.

ghost use Rattle.std.specs.Prelude.{◌≡◌};
ghost use Rattle.sp_varsets.specs.Members.{has};
ghost use Rattle.sp_interfere.specs.Tests.{some_in, is_any, is_declared, meets, clash, has_implicit, has_declared};

use sp_varsets::{Sets, VarSet};

/// Whether the set has a variable.
#[tactic(auto, using(crate::proofs::SetTests::any_is))]
pub fn is_any(a: &VarSet) -> bool
    ensures { result ≡ some_in a.now is_any }
{
    !a.is_empty()
}

/// Whether two sets have a variable in common.
fn meets(a: &VarSet, b: &VarSet) -> bool
    ensures { result ≡ meets a.now b.now }
{
    a.meets(b)
}

/// Whether the set has a variable other than the input and the output.
fn is_declared(a: &VarSet) -> bool
    ensures { result ≡ some_in a.now is_declared }
{
    a.has_from(2)
}

/// Whether the variable is an implicit one of the block.
pub fn has_implicit(s: &Sets, b: u32, x: u32) -> bool
    ensures { result ≡ has_implicit s.now b x }
{
    s.implicit_targets(b).contains(x) || s.implicit_expressions(b).contains(x)
}

/// Whether the block has an implicit variable other than the input and the output.
pub fn has_declared(s: &Sets, b: u32) -> bool
    ensures { result ≡ has_declared s.now b }
{
    is_declared(s.implicit_targets(b)) || is_declared(s.implicit_expressions(b))
}

/// Whether a target of one of two statements is a target or an expression variable of the other.
pub fn clash(s: &Sets, m: u32, n: u32) -> bool
    ensures { result ≡ clash s.now m n }
{
    let targets = s.targets(n);
    meets(targets, s.targets(m))
        || (meets(targets, s.expressions(m)) || meets(s.expressions(n), s.targets(m)))
}
