//! The verifier (`verify`): all rules in their order, by the passes of `sp_verify_areas`, `sp_verify_shapes` and
//! `sp_verify_effects`. `Verified` is code that breaks none.

ghost use Rattle.std.specs.Prelude.{◌≡◌, ◌+◌, IfOk, IfErr, OnOk};
ghost use Rattle.sp_code.specs.Sound.{IsSound};
ghost use Rattle.sp_verify_rules.specs.NameRules.{OrphanBlock};
ghost use Rattle.sp_verify_rules.specs.Verdict.{BreaksRuleAt, IsVerified, number};
ghost use Rattle.sp_verify_areas.specs.Blocks.{IsNumbered};
ghost use Rattle.sp_verify_areas.specs.Homes.{AreHomes};
ghost use Rattle.sp_verify_areas.specs.LeastPlaces.{IsLeast};
ghost use Rattle.sp_verify_areas.specs.Owners.{AreOwners};
ghost use Rattle.sp_verify_shapes.specs.Shapes.{AreShapes};
ghost use Rattle.sp_verify_effects.specs.Effects.{AreEffects};
ghost use Rattle.sp_verify_effects.specs.PassContexts.{IsPassContext};
ghost use Rattle.sp_codefile.specs.VerifyAnswers.{IsRefused, KeepsBefore, Verifies, rule_of};

use crate::have;
use sp_base::List;
use sp_code::Code;
use sp_verify_areas::around::homes;
use sp_verify_areas::block_nodes::led;
use sp_verify_areas::blocks::Blocks;
use sp_verify_areas::homes::Homes;
use sp_verify_areas::orphan_block::first_orphan_block;
use sp_verify_areas::owners::{Owner, owners};
use sp_verify_areas::rounds::first_round;
use sp_verify_areas::whole::first_v1;
use sp_verify_effects::breach::first_beyond;
use sp_verify_effects::child_effects::first_ill_handed;
use sp_verify_effects::clash::first_clash;
use sp_verify_effects::effects::{Effects, find_effects};
use sp_verify_effects::pass_context::PassContext;
use sp_verify_effects::side_effects::first_side_effect;
use sp_verify_rules::laws::verified_code_is_sound;
use sp_verify_shapes::calls::first_unfit;
use sp_verify_shapes::cells::first_passing;
use sp_verify_shapes::messages::first_length;
use sp_verify_shapes::repeats::repeats_of;
use sp_verify_shapes::shapes::{Outcome, Shapes, shapes_of};
use std::marker::Model;
use thiserror::Error;

/// The rules that code must keep, the first one first.
#[derive(Clone, Copy, Debug, PartialEq, Eq)]
pub enum VRule {
    /// What code names is there, and stands where it may.
    V1,
    /// Operands are there, of the right shapes, whichever way one comes.
    V2,
    /// No cells left of an address are passed.
    V3,
    /// Messages of one type have one length, and room where they are received.
    V4,
    /// Operands of calls fit, and a block that answers has no reference formal.
    V5,
    /// Children of forks are handed what they store and load, and no two what one of them stores.
    V6,
    /// Reference operands of calls have different variables, none of which the called block touches by itself.
    V7,
    /// Blocks that answer store nothing outside themselves and come to no stop.
    V8,
    /// Each way back to itself passes a `tick` or a `call`.
    V9,
}

/// Why code is not verified.
#[derive(Clone, Copy, Debug, Error)]
pub enum Rejected {
    /// This is the first broken rule, and the least instruction at which it is broken.
    #[error("rule {0:?} is broken at instruction {1}")]
    Rule(VRule, u32),
    /// Memory was refused.
    #[error("out of memory")]
    Memory,
}

/// Code that breaks no rule.
#[derive(Drop)]
pub struct Verified {
    code: Code,
}

impl Model for Verified {
    ghost use Rattle.sp_code.specs.declared.code.Parts.{Parts};
    ghost use Rattle.sp_verify_rules.specs.Verdict.{IsVerified};

    ghost Value = { Parts };

    ghost view = { λ v. v.code };

    ghost invariant = { λ v. IsVerified v.code };
}

impl Verified {
    /// The code. It is sound.
    pub fn code(&self) -> &Code
        ensures same { result.now ≡ self.now }
        ensures verified { IsVerified result.now }
        ensures sound { IsSound result.now }
    {
        let _parts = self.code.parts();
        verified_code_is_sound();
        &self.code
    }

    /// The code, for good. It is sound.
    pub fn into_code(self) -> Code
        ensures same { result ≡ self }
        ensures verified { IsVerified result }
        ensures sound { IsSound result }
    {
        let Verified { code } = self;
        let _parts = code.parts();
        verified_code_is_sound();
        code
    }
}

// Whether a rule is kept, by the least instruction at which it is broken.
fn keep(code: &Code, rule: VRule, first: Option<u32>) -> Result<(), Rejected>
    requires before { KeepsBefore code.now (number (rule_of rule)) }
    requires first { IsLeast (BreaksRuleAt code.now (rule_of rule)) first }
    ensures ok { OnOk result (KeepsBefore code.now (number (rule_of rule) + 1)) }
    ensures err { IfErr result (λ e. IsRefused code.now e) }
{
    match first {
        None => Ok(()),
        Some(p) => Err(Rejected::Rule(rule, p)),
    }
}

// Whether V2 is kept, and then the shapes that instructions are reached with.
fn keep_shapes(
    code: &Code,
    blocks: &Blocks,
    owners: &List<Owner>,
    homes: &Homes,
) -> Result<Shapes, Rejected>
    requires kept { KeepsBefore code.now 2 }
    requires blocks { IsNumbered blocks.now.first code.now.layouts }
    requires owners { AreOwners code.now owners.now }
    requires homes { AreHomes code.now homes.now }
    ensures ok { IfOk result (λ s. KeepsBefore code.now 3 × AreShapes code.now s) }
    ensures err { IfErr result (λ e. IsRefused code.now e) }
{
    match have!(shapes_of(code, blocks, owners, homes), Rejected::Memory) {
        Outcome::Broken(p) => Err(Rejected::Rule(VRule::V2, p)),
        Outcome::Kept(shapes) => Ok(shapes),
    }
}

// Whether V3, V4 and V5 are.
fn keep_cells(g: &PassContext) -> Result<(), Rejected>
    requires known { IsPassContext g.now }
    requires kept { KeepsBefore g.now.code.now 3 }
    ensures ok { OnOk result (KeepsBefore g.now.code.now 6) }
    ensures err { IfErr result (λ e. IsRefused g.now.code.now e) }
{
    keep(g.code, VRule::V3, first_passing(g.code, g.shapes))?;
    let length = have!(first_length(g.code, g.shapes), Rejected::Memory);
    keep(g.code, VRule::V4, length)?;
    keep(
        g.code,
        VRule::V5,
        first_unfit(g.code, g.blocks, g.shapes, g.repeats),
    )
}

// Whether V6, V7 and V8 are.
fn keep_effects(g: &PassContext, effects: &Effects) -> Result<(), Rejected>
    requires known { IsPassContext g.now }
    requires kept { KeepsBefore g.now.code.now 6 }
    requires effects { AreEffects g.now.code.now effects.now }
    ensures ok { OnOk result (KeepsBefore g.now.code.now 9) }
    ensures err { IfErr result (λ e. IsRefused g.now.code.now e) }
{
    let handed = have!(first_ill_handed(g, effects), Rejected::Memory);
    keep(g.code, VRule::V6, handed)?;
    let clash = have!(first_clash(g, effects), Rejected::Memory);
    keep(g.code, VRule::V7, clash)?;
    keep(g.code, VRule::V8, first_side_effect(g, effects))
}

// Refuses code of which a breach of V6 is known before all effects are.
fn keep_handed(g: &PassContext) -> Result<(), Rejected>
    requires known { IsPassContext g.now }
    requires kept { KeepsBefore g.now.code.now 6 }
    ensures err { IfErr result (λ e. IsRefused g.now.code.now e) }
{
    let first = have!(first_beyond(g), Rejected::Memory);
    match first {
        None => Ok(()),
        Some(p) => keep(g.code, VRule::V6, Some(p)),
    }
}

// Whether V3 to V8 are.
fn keep_shaped(g: &PassContext) -> Result<(), Rejected>
    requires known { IsPassContext g.now }
    requires kept { KeepsBefore g.now.code.now 3 }
    ensures ok { OnOk result (KeepsBefore g.now.code.now 9) }
    ensures err { IfErr result (λ e. IsRefused g.now.code.now e) }
{
    keep_cells(g)?;
    keep_handed(g)?;
    let effects = have!(find_effects(g), Rejected::Memory);
    keep_effects(g, &effects)
}

// Whether V2 to V8 are.
fn keep_between(
    code: &Code,
    blocks: &Blocks,
    owners: &List<Owner>,
    homes: &Homes,
) -> Result<(), Rejected>
    requires kept { KeepsBefore code.now 2 }
    requires blocks { IsNumbered blocks.now.first code.now.layouts }
    requires owners { AreOwners code.now owners.now }
    requires homes { AreHomes code.now homes.now }
    ensures ok { OnOk result (KeepsBefore code.now 9) }
    ensures err { IfErr result (λ e. IsRefused code.now e) }
{
    let shapes = keep_shapes(code, blocks, owners, homes)?;
    let repeats = have!(repeats_of(code, owners, &shapes), Rejected::Memory);
    keep_shaped(&PassContext {
        code,
        blocks,
        owners,
        homes,
        shapes: &shapes,
        repeats: &repeats,
    })
}

// Whether all rules are, by what is around instructions, and by what `first_orphan_block` finds.
fn keep_all(
    code: &Code,
    blocks: &Blocks,
    owners: &List<Owner>,
    homes: &Homes,
    orphan_block: Option<u32>,
) -> Result<(), Rejected>
    requires blocks { IsNumbered blocks.now.first code.now.layouts }
    requires owners { AreOwners code.now owners.now }
    requires homes { AreHomes code.now homes.now }
    requires orphan_block { IsLeast (OrphanBlock code.now) orphan_block }
    ensures ok { OnOk result (IsVerified code.now) }
    ensures err { IfErr result (λ e. IsRefused code.now e) }
{
    let first = have!(
        first_v1(code, blocks, owners, homes, orphan_block),
        Rejected::Memory
    );
    keep(code, VRule::V1, first)?;
    keep_between(code, blocks, owners, homes)?;
    let round = have!(first_round(code, owners), Rejected::Memory);
    keep(code, VRule::V9, round)
}

// The same, by whose code each instruction is.
fn keep_owned(code: &Code, blocks: &Blocks, owners: &List<Owner>) -> Result<(), Rejected>
    requires blocks { IsNumbered blocks.now.first code.now.layouts }
    requires owners { AreOwners code.now owners.now }
    ensures ok { OnOk result (IsVerified code.now) }
    ensures err { IfErr result (λ e. IsRefused code.now e) }
{
    let led = have!(led(code, blocks), Rejected::Memory);
    let orphan_block = have!(first_orphan_block(code, blocks, &led), Rejected::Memory);
    let homes = have!(homes(code, blocks, owners, led), Rejected::Memory);
    keep_all(code, blocks, owners, &homes, orphan_block)
}

// The same, by the blocks.
fn keep_numbered(code: &Code, blocks: &Blocks) -> Result<(), Rejected>
    requires { IsNumbered blocks.now.first code.now.layouts }
    ensures ok { OnOk result (IsVerified code.now) }
    ensures err { IfErr result (λ e. IsRefused code.now e) }
{
    let owners = have!(owners(code, blocks), Rejected::Memory);
    keep_owned(code, blocks, &owners)
}

// Whether all rules are kept.
fn judge(code: &Code) -> Result<(), Rejected>
    ensures ok { OnOk result (IsVerified code.now) }
    ensures err { IfErr result (λ e. IsRefused code.now e) }
{
    let parts = code.parts();
    let blocks = have!(
        Blocks::of(parts.instrs.alloc(), parts.layouts.items()),
        Rejected::Memory
    );
    keep_numbered(code, &blocks)
}

/// Verifies code: it is verified exactly where it breaks no rule. Otherwise it is let go. The only other answer is want
/// of memory.
pub fn verify(code: Code) -> Result<Verified, Rejected>
    ensures { Verifies code result }
{
    judge(&code)?;
    Ok(Verified { code })
}
