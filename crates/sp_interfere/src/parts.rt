//! Rule I1 at the process statements of one parallel statement.

ghost use Rattle.std.specs.Prelude.{◌≡◌, ◌<◌, ◌⊎◌, ℕ, List, [], ◌∷◌, ◌++◌, map, true, false};
ghost use Rattle.sp_tree.specs.CheckedOf.{statement_of, statements};
ghost use Rattle.sp_base.specs.declared.rule.Rule.TheVariants.{I1};
ghost use Rattle.sp_tree.specs.PhaseResults.{refusal_if};
ghost use Rattle.sp_tree.specs.Interferes.{place_of};
ghost use Rattle.sp_varsets.specs.Parts.{number_of};
ghost use Rattle.sp_varsets.specs.Members.{has};
ghost use Rattle.sp_varsets.specs.AreSets.{targets_of, expressions_of};
ghost use Rattle.sp_interfere.specs.Tests.{clashes, Joins, is_target, is_used};
ghost use Rattle.sp_interfere.specs.Rules.{numbers_of, parts_first};

use crate::set_tests::clash;
use sp_base::Rule;
use sp_tree::{FirstRefusal, Stmt, breaks_if, earlier_refusal};
use sp_varsets::{Sets, VarUnion};

/// Whether statement `n` clashes with one of the earlier ones, each looked at.
fn clashes(s: &Sets, earlier: &[Stmt], n: u32) -> bool
    ensures { result ≡ clashes s.now (numbers_of (statements (map statement_of earlier.now))) n }
{
    for t in earlier {
        if clash(s, t.number, n) {
            return true;
        }
    }
    false
}

/// Whether the sets of the statement may reach beyond the variables that a union holds.
fn is_wide(s: &Sets, n: u32) -> bool
    ensures { result ≡ false → (x : ℕ) → (has (targets_of s.now n) x ≡ true) ⊎ (has (expressions_of s.now n) x ≡ true)
        → x < 8256 }
{
    if s.targets(n).words() > 129 {
        return true;
    }
    s.expressions(n).words() > 129
}

/// Whether statement `n` clashes with one of the earlier ones, whose targets and used variables are in these unions.
fn clashes_before(s: &Sets, earlier: &[Stmt], n: u32, targets: &VarUnion, used: &VarUnion) -> bool
    requires targets { Joins targets.now (is_target s.now) (numbers_of (statements (map statement_of earlier.now))) }
    requires used { Joins used.now (is_used s.now) (numbers_of (statements (map statement_of earlier.now))) }
    ensures { result ≡ clashes s.now (numbers_of (statements (map statement_of earlier.now))) n }
{
    if used.meets(s.targets(n)) {
        return true;
    }
    if targets.meets(s.expressions(n)) {
        return true;
    }
    if is_wide(s, n) {
        return clashes(s, earlier, n);
    }
    false
}

/// I1 at a process statement behind earlier ones.
fn part_rule(
    s: &Sets,
    earlier: &[Stmt],
    t: &Stmt,
    targets: &VarUnion,
    used: &VarUnion,
) -> FirstRefusal
    requires targets { Joins targets.now (is_target s.now) (numbers_of (statements (map statement_of earlier.now))) }
    requires used { Joins used.now (is_used s.now) (numbers_of (statements (map statement_of earlier.now))) }
    ensures { result ≡ refusal_if I1 (place_of (statement_of t.now))
        (clashes s.now (numbers_of (statements (map statement_of earlier.now))) (number_of (statement_of t.now))) }
{
    breaks_if(
        Rule::I1,
        t.at,
        clashes_before(s, earlier, t.number, targets, used),
    )
}

fn number_of(t: &Stmt) -> u32
    ensures { result ≡ number_of (statement_of t.now) }
{
    t.number
}

/// Adds the sets of a statement.
fn add_part(s: &Sets, n: u32, targets: &mut VarUnion, used: &mut VarUnion)
    ensures targets { (numbers : List ℕ) → Joins targets.old (is_target s.now) numbers
        → Joins targets.new (is_target s.now) (numbers ++ n ∷ []) }
    ensures used { (numbers : List ℕ) → Joins used.old (is_used s.now) numbers
        → Joins used.new (is_used s.now) (numbers ++ n ∷ []) }
{
    targets.add(s.targets(n));
    used.add(s.targets(n));
    used.add(s.expressions(n));
}

/// I1 at each process statement: by unions of what came before, so each is looked at once.
pub fn parts_first(parts: &[Stmt], s: &Sets, first: FirstRefusal) -> FirstRefusal
    ensures { result ≡ parts_first s.now [] (statements (map statement_of parts.now)) first }
{
    let mut targets = VarUnion::new(0);
    let mut used = VarUnion::new(0);
    let mut first = first;
    'each: for i in 0..parts.len() {
        let t = &parts[i];
        first = earlier_refusal(first, part_rule(s, &parts[..i], t, &targets, &used));
        add_part(s, number_of(t), &mut targets, &mut used);
    }
    first
}
