//! The tokens and the trees of a program's text as plain data, and by definitions what is a program: the rules of
//! characters, grammar, names and interference. Besides, the laws of the grammar: one tree, one first broken rule; and
//! for the parser a machine on symbols that decides the grammar token by token, with its lemmas.
//!
//! Calls:
//! - Types of a text: `Token`, `Kind`, with the numbers of words and signs in `word` and `sign`; `Syntax` and its
//!   parts (`Syn..`), the tree that tokens spell; `Named` and its parts (`Named..`), the tree with numbers for names.
//! - Types of an accepted text: `Checked`, `Block`, `Variable`, `Role`, `KindOf`, `Stmt`, `Form`, `Expr`, `ExprForm`,
//!   `Var`, `Selector`, `Actual`, `Arm`.
//! - Types that the trees share: `BinaryOp`, `UnaryOp`, `StandardFn`; and for names `Meaning`, `Sort`, `Counts`,
//!   `Passing`, `StandardProcedure`.
//! - `Expr::parts`, `SynExpr::parts`, `NamedExpr::parts`: the parts of an expression, whose form is smaller than the
//!   whole; `Syntax::parts`: those of a tree. A type with a `drop` of its own is taken apart in its own methods alone.
//! - `row`, `before`: the row of a rule in the rule table, and which of two refusals is reported: the earlier one, or
//!   at one place that of the earlier row.
//! - `PhaseResults` (a refusal or none): `earlier_refusal` is the first of two, `breaks` and `refusal_if` make one.
//!   `PassResult`: a part of a tree with the first rule broken up to its end.
//! - `Walk`: what a walk over a tree carries from part to part: the first broken rule, and whether memory was refused.
//!   `note` takes one more rule; `after`, `take`, `push`, `boxed`, `join`, `list`, `text`, `number` and `integer` lose
//!   the walk where memory was refused. `specs/Carried.antt` is the form of what a walk promises.
//! - `lower`: the lower case of a letter, any other byte itself.
//! - `MAX_TEXT`, `MAX_NAME`, `MAX_NESTING`: how many bytes a text and a name may have, how deep parts may lie.
//!
//! Laws:
//! - `one_list`: a text has at most one list of tokens.
//! - `one_tree`: a list of tokens spells at most one program.
//! - `one_first_bad`: at most one token is the first with which the tokens are no prefix of a program.
//! - `one_verdict`: a text has at most one tree and at most one first broken rule of characters and grammar, and
//!   never both.
//! - `some_verdict`: a text that has tokens has a tree, or a rule that is the first it breaks.
//!
//! To know:
//! - Each tree is said twice: in memory (`src/`), and as a plain one in types of specifications
//!   (`specs/PlainSyntax.antt`, `PlainNamed`, `PlainChecked`, `Plain`), over which definitions go by cases.
//!   `SyntaxOf`, `NamedOf` and `CheckedOf` are the folds from the one to the other. `Bare` leaves the places out of
//!   `PlainChecked` and gives `Plain`, which the meaning runs; `PlainOf` is `CheckedOf` and `Bare` together.
//! - Characters and grammar: `specs/Lexemes.antt`, `Scans`, `Grammar`, `Viable`, `Breaches`, `First`.
//! - Names: `Scopes` (declarations that are visible), `NameRules` (a clause for each row of the rules), `NameWalk`
//!   (what stands where), `NamedTree` (the tree) and `NameFirst` say which rule of names a program breaks first, or
//!   its tree. `PhaseResults` is the order of broken rules that code carries on.
//! - Interference: `Uses`, `Sets`, `Interference` are its rules by what a statement uses; `Sites` and `Interferes`
//!   the same rules with their places, by clauses on `PlainChecked`. `proofs/NoBreach.antt` leads from the rules with
//!   places to those without, `Unbroken` is a test that no rule is broken, `BreachRows` has a row for each rule.
//! - `Formed` is what names and types give of every accepted tree; `Around` has the scopes around a place; `Cells`
//!   the cells of types and frames.
//! - `For` has the place of its variable's name and `ExprForm::Call` that of the called name, since rules are broken
//!   there and neither is the place of the statement or expression.
//! - `answer` of a block is the number of the variable with the role `Answer`; `Enumeration(n)` has n constants;
//!   `succ` and `pred` have the type of their operand.
//! - In the grammar each part asks `Ok` of its depth and of its tokens. `Ok` is `Any` for the plain grammar, and
//!   `Shallow` where parts that begin in the tokens so far lie inside fewer than 200 others. Tokens that come after
//!   do not count: a token is refused that begins a part too deep, and not the one before it with which only deep
//!   programs go on.
//! - G1 and L2 hold of a token and of all behind it; the first of them, by place and then by row, is the one that is
//!   reported.
//! - In `Named` the standard constants, types and the input and output stand first in the tables, at the place of the
//!   program's name. Statements have no numbers there yet: one with several arguments becomes several statements only
//!   with the checked tree.
//! - The index of a `forall` is taken out of what stands in the element statement, not out of what calls carry: a
//!   call never carries it, since its block is the one around.
//! - `specs/Symbols.antt` cuts the lines of `specs/Grammar.antt` into symbols, and `specs/Means.antt` says what each
//!   symbol is there.
//! - `specs/Table.antt` has a row for each token that a symbol takes; `specs/Derives.antt` is what a symbol takes by
//!   these rows, `specs/SymbolMachine.antt` takes one token at a time by them, and `specs/Stops.antt` is the rule that
//!   is broken where the machine gets stuck.
//! - `proofs/FromTable.antt` and `ToTable.antt` lead from `Derives` to the grammar and back, `MachineRuns.antt` to the
//!   machine, `Firsts.antt` from where it gets stuck to the first broken rule.
//!
//! Lemmas for others, in `proofs`:
//! - `Earlier`: places of a text, one before another.
//! - `BreachLists`: what a walk gathers in a list leads to the same first broken rule as the walk that keeps the
//!   first alone.
//! - `Members`: members of lists of numbers: of a list of two parts, and at a place.
//! - `UsesOf`: the uses in a statement as a list.
//! - `SetCertificates`: the rules of interference by a test: sets that are closed under calls are given, and hold all
//!   that paths reach.
//! - `Closure`: what is reached by paths of calls is what stands here, and what is reached from a block that is
//!   called here.
//! - `SingleStatements`: the single statements of a `send` or `receive` of several, without their numbers and
//!   places.
//! - `NoBreach`: a tree that breaks no rule of interference keeps them at every use in it.
//! - `CallClosure`: what paths of calls reach from a block's statement part: any claims that are closed under calls
//!   hold all of it.
//! - `Unbroken`: that a tree breaks no rule of interference, by a test over claims of what its blocks reach.
//! - `Tables`: tables of types, each result by those before it (`table`): which result stands where, and how many
//!   there are.
//! - `MachineRuns`: the machine follows what each symbol derives by the table.
//! - `FromTable`: what the table derives is in the grammar.
//! - `Looks`: the row of the table that a token selects.
//! - `TextParts`: tokens of a text, part behind part, and digits, which have no case.
//! - `ToTable`: what is in the grammar is derived by the table, where what is behind it does not go on with it.
//! - `Completes`: what the machine takes is in the grammar, and each stack can be completed.
//! - `Wider`: what holds of all parts may be weakened, and a prefix of what is viable is viable.
//! - `RefusalOrder`: the order of refusals, and that the first broken rule is one.
//! - `TokenOrder`: the tokens of a text stand in it one behind the other.
//! - `Firsts`: the rule where the machine gets stuck is the first that the tokens break; and tokens that are taken
//!   whole break none.
//! - `OneList`: a text has at most one list of tokens.
//!
//! To change:
//! - A form of statement or expression: `src/syntax.rt`, `specs/PlainSyntax.antt`, `SyntaxOf`, `Grammar`, and the
//!   same for `src/checked.rt`, `PlainChecked`, `CheckedOf`, `Plain`, `Bare`.
//! - A word or sign: `specs/Lexemes.antt`, `specs/Words.antt`, `src/word.rt`, `src/sign.rt`.
//! - A rule of names: `specs/NameRules.antt`.
//! - A line of the grammar: its rows and `build` in `specs/Table.antt`, a clause in `specs/Means.antt`,
//!   `proofs/FromTable.antt`, `proofs/ToTable.antt`, `proofs/Completes.antt`.
#![tactic(auto)]

mod breach_order;
mod checked;
mod grammar_laws;
mod letter;
mod meaning;
mod named;
mod operators;
mod profile;
pub mod sign;
mod syntax;
mod token;
mod walk;
pub mod word;

pub use breach_order::{FirstRefusal, PassResult, before, breaks, breaks_if, earlier_refusal, row};
pub use checked::{
    Actual, Arm, Block, Checked, Expr, ExprForm, Form, KindOf, Role, Selector, Stmt, Var, Variable,
};
pub use grammar_laws::{one_first_bad, one_list, one_tree, one_verdict, some_verdict};
pub use letter::lower;
pub use meaning::{Counts, Meaning, Passing, Sort, StandardProcedure};
pub use named::{
    Named, NamedAnswer, NamedArg, NamedArm, NamedBlock, NamedBranch, NamedConst, NamedConstant,
    NamedExpr, NamedExprForm, NamedForm, NamedKind, NamedKindForm, NamedSelector, NamedStmt,
    NamedValue, NamedVar,
};
pub use operators::{BinaryOp, StandardFn, UnaryOp};
pub use profile::{MAX_NAME, MAX_NESTING, MAX_TEXT};
pub use syntax::{
    Name, SynArg, SynArm, SynBlock, SynBranch, SynConst, SynExpr, SynExprForm, SynForm, SynFormal,
    SynGroup, SynKind, SynPart, SynSelector, SynStmt, SynValue, SynVar, Syntax,
};
pub use token::{Kind, Token};
pub use walk::Walk;
