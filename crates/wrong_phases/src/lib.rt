//! Mutants of the phases, from the characters of a text to its code. Each function here repeats the contract of a
//! phase word for word and calls it, so the contract here follows from that of the phase. An edit of `must-fail` turns
//! what the call answers; the contract must refuse it, and so would that of the phase. No program uses this crate: it
//! makes such tries cheap, since its proof is short.
#![tactic(auto)]

ghost use Rattle.std.specs.Prelude.{◌≡◌, ◌≤◌, ◌^◌, length, IfOk};
ghost use Rattle.sp_tree.specs.CheckedOf.{program_of};
ghost use Rattle.sp_tree.specs.CheckedOf as checked;
ghost use Rattle.sp_tree.specs.PlainOf.{program_of as plain_of};
ghost use Rattle.sp_tree.specs.NamedOf as named;
ghost use Rattle.sp_tree.specs.NameFirst.{name_resolution};
ghost use Rattle.sp_tree.specs.PhaseResults.{AnswersAs, phase_result};
ghost use Rattle.sp_tree.specs.Scans.{IsTokens};
ghost use Rattle.sp_tree.specs.SyntaxOf as syntax;
ghost use Rattle.sp_scan.specs.Finds.{Scanned};
ghost use Rattle.sp_parse.specs.Parses.{Parsed};
ghost use Rattle.sp_types.specs.TypeFirst.{types_outcome};
ghost use Rattle.sp_varsets.specs.AreSets.{AreSets, HaveOwnNumbers, HaveEarlierParents};
ghost use Rattle.sp_interfere.specs.Rules.{rules_first};
ghost use Rattle.sp_interfere.specs.Verdict.{IsVerdict};
ghost use Rattle.sp_code.specs.Places.{tree_length};
ghost use Rattle.sp_generate.specs.CappedLength.{capped_length};
ghost use Rattle.sp_lines.specs.Constants.{by_kind};
ghost use Rattle.sp_lines.specs.JumpTargets.{landing};
ghost use Rattle.sp_lines.specs.Marks.{marks};
ghost use Rattle.sp_generate.specs.GeneratorAnswers.{Answered};
ghost use Rattle.sp_front.specs.Codes.{Codes};

use sp_base::{Halt, List, Memory, Refusal, Text};
use sp_code::Code;
use sp_front::CompiledText;
use sp_generate::GenError;
use sp_lines::Mark;
use sp_tree::{Checked, KindOf, Named, Syntax, Token};
use sp_varsets::Sets;
use std::alloc::Global;

/// `sp_scan::scan`.
pub fn scan(alloc: Global, text: &[u8]) -> Result<List<Token>, Halt>
    ensures { Scanned text.now result }
{
    let scanned = sp_scan::scan(alloc, text);
    scanned
}

/// `sp_parse::parse`.
pub fn parse(alloc: Global, text: &[u8], tokens: &[Token]) -> Result<Syntax, Halt>
    requires { IsTokens text.now tokens.now }
    ensures { Parsed text.now tokens.now result }
{
    let parsed = sp_parse::parse(alloc, text, tokens);
    parsed
}

/// `sp_scope::resolve`.
pub fn resolve(alloc: Global, tree: Syntax) -> Result<Named, Halt>
    ensures { AnswersAs named.program_of result (name_resolution (syntax.program_of tree)) }
{
    let resolved = sp_scope::resolve(alloc, tree);
    resolved
}

/// `sp_types::type_check`.
pub fn type_check(alloc: Global, tree: Named) -> Result<Checked, Halt>
    ensures { AnswersAs checked.program_of result (types_outcome (named.program_of tree)) }
{
    let typed = sp_types::type_check(alloc, tree);
    typed
}

/// `sp_varsets::sets_of`.
pub fn sets_of(alloc: Global, checked: &Checked) -> Result<Sets, Memory>
    requires numbers { HaveOwnNumbers (program_of checked.now) }
    requires parents { HaveEarlierParents (program_of checked.now) }
    ensures { IfOk result (λ s. AreSets (program_of checked.now) s) }
{
    let sets = sp_varsets::sets_of(alloc, checked);
    sets
}

/// `sp_interfere::check_sets`.
pub fn check_sets(checked: &Checked, sets: &Sets) -> Result<(), Refusal>
    requires { length checked.now.blocks ≤ 2 ^ 32 }
    ensures first { result ≡ phase_result (rules_first sets.now (program_of checked.now)) tt }
    ensures verdict { AreSets (program_of checked.now) sets.now → HaveEarlierParents (program_of checked.now)
        → IsVerdict (program_of checked.now) result }
{
    let judged = sp_interfere::check_sets(checked, sets);
    judged
}

/// `sp_generate::length`.
pub fn length_of(program: &Checked) -> u32
    ensures { result ≡ capped_length (tree_length (plain_of program.now)) }
{
    let length = sp_generate::length(program);
    length
}

/// `sp_lines::marks`.
pub fn marks_of(alloc: Global, checked: &Checked) -> Result<List<Mark>, Memory>
    ensures { IfOk result (λ xs. xs ≡ marks (program_of checked.now)) }
{
    let marks = sp_lines::marks(alloc, checked);
    marks
}

/// `sp_lines::by_kind`.
pub fn names_by_kind(
    alloc: Global,
    kinds: &[KindOf],
    constants: List<List<Text>>,
) -> Result<List<List<Text>>, Memory>
    ensures { IfOk result (λ table. table ≡ by_kind kinds.now constants) }
{
    let table = sp_lines::by_kind(alloc, kinds, constants);
    table
}

/// `sp_lines::landing`.
pub fn landing_of(code: &Code, at: u32) -> u32
    ensures { result ≡ landing code.now.instrs at }
{
    let to = sp_lines::landing(code, at);
    to
}

/// `sp_generate::generate`.
pub fn generate(alloc: Global, checked: &Checked, sets: &Sets) -> Result<Code, GenError>
    requires { AreSets (program_of checked.now) sets.now }
    ensures { Answered (program_of checked.now) result }
{
    let generated = sp_generate::generate(alloc, checked, sets);
    generated
}

/// `sp_front::compiled`.
pub fn compiled(alloc: Global, text: &[u8]) -> Result<CompiledText, Halt>
    ensures { Codes text.now result }
{
    let compiled = sp_front::compiled(alloc, text);
    compiled
}
