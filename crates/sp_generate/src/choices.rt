//! The tests of a `case`, and the jumps behind its statements: written blank, and mended once the statements stand.

ghost use Rattle.std.specs.Prelude.{◌≡◌, ◌+◌, length, map, IfOk, OnOk};
ghost use Rattle.sp_tree.specs.CheckedOf.{arms, arm_of};
ghost use Rattle.sp_tree.specs.Bare.{bare_arms};
ghost use Rattle.sp_code.specs.TreeCode.{test_code};
ghost use Rattle.sp_base.specs.Adds.{Adds};
ghost use Rattle.sp_generate.specs.CodeBuffers.{blank_tests, filled_ends, filled_test, filled_tests};

use crate::code_buffer::set;
use sp_base::{List, Memory, Writer};
use sp_code::Instr;
use sp_tree::Arm;

/// A test for each constant, which leads nowhere yet.
fn put_blank(code: &mut Writer<Instr>, constants: &[i64])
    ensures { Adds code.old code.new (test_code constants.now 0) }
{
    for m in constants {
        code.put(Instr::Casej { value: *m, to: 0 });
    }
}

/// The tests of all choices, which lead nowhere yet.
#[tactic(auto, using(crate::proofs::CaseTests::blank_step))]
pub fn put_blanks(code: &mut Writer<Instr>, xs: &List<Arm>)
    ensures { Adds code.old code.new (blank_tests (bare_arms (arms (map arm_of xs.now)))) }
{
    for a in xs.items() {
        put_blank(code, a.constants.items());
    }
}

/// A jump to the end at each of these places.
pub fn fill_ends(code: &mut Vec<Instr>, ends: &[u32], end: u32)
    ensures { code.new.items ≡ filled_ends code.old.items ends.now end }
{
    for at in ends {
        set(code, *at as usize, Instr::Jump(end));
    }
}

/// The tests from place `k` on lead to one statement. The answer is the place behind them.
fn fill_test(code: &mut Vec<Instr>, k: usize, constants: &[i64], to: u32) -> Result<usize, Memory>
    ensures code { OnOk result (code.new.items ≡ filled_test code.old.items k constants.now to) }
    ensures place { IfOk result (λ n. n ≡ k + length constants.now) }
{
    let mut k = k;
    for m in constants {
        set(code, k, Instr::Casej { value: *m, to });
        k = k.checked_add(1).ok_or(Memory)?;
    }
    Ok(k)
}

/// The tests from place `k` on lead to the statements of their choices, which begin at these places.
#[tactic(auto, using(crate::proofs::CaseTests::fill_step, crate::proofs::CaseTests::fill_none))]
pub fn fill_tests(
    code: &mut Vec<Instr>,
    k: usize,
    xs: &List<Arm>,
    starts: &[u32],
) -> Result<(), Memory>
    ensures { OnOk result (code.new.items
        ≡ filled_tests code.old.items k (bare_arms (arms (map arm_of xs.now))) starts.now) }
{
    let mut k = k;
    for (n, a) in xs.items().iter().enumerate() {
        match starts.get(n) {
            None => return Ok(()),
            Some(to) => k = fill_test(code, k, a.constants.items(), *to)?,
        }
    }
    Ok(())
}
