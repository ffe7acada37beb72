//! The phase of names as one call: a program's heading, its standard declarations, and the tables of all that it
//! declares.

ghost use Rattle.std.specs.Prelude.{◌≡◌, ◌∷◌, [], true, false, None, Some, Ok};
ghost use Rattle.sp_tree.specs.PhaseResults.{AnswersAs};
ghost use Rattle.sp_tree.specs.NamedTree.{standard_constants, standard_kinds, consoles, program_tables, inside_named};
ghost use Rattle.sp_tree.specs.Scopes.{standard_scope, empty_local};
ghost use Rattle.sp_tree.specs.SyntaxOf.{block_of};
ghost use Rattle.sp_tree.specs.NameFirst.{name_resolution};
ghost use Rattle.sp_tree.specs.NamedOf as named;
ghost use Rattle.sp_tree.specs.SyntaxOf as plain;
ghost use Rattle.sp_tree.specs.declared.checked.Role.TheVariants as role;
ghost use Rattle.sp_scope.specs.Files.{files_flagged};
ghost use Rattle.sp_scope.specs.Firsts.{block_first};
ghost use Rattle.sp_tree.specs.Carried.{Keeps};
ghost use Rattle.sp_scope.specs.Walks.{PassesTo, seen_block, standard_tables, own_tables};

use crate::block_parts::{BlockParts, PassResult};
use crate::blocks::{beside, block_in_front, name_block};
use crate::have;
use crate::scopes::Scopes;
use sp_base::{Halt, List, MAXINT, Place, Rule, Text};
use sp_tree::{
    FirstRefusal, Name, Named, NamedConst, NamedConstant, NamedKind, NamedKindForm, NamedValue,
    Role, SynBlock, Syntax, Variable, Walk, breaks, breaks_if, earlier_refusal,
};
use std::alloc::Global;

/// The names in the program's heading, with two marks for those that stood before: N1, N2.
fn check_flagged(xs: &[Name], first: FirstRefusal) -> FirstRefusal
    ensures { result ≡ files_flagged false false xs.now first }
{
    let mut first = first;
    let mut input = false;
    let mut output = false;
    for x in xs {
        if x.text.bytes() == "input".as_bytes() {
            first = earlier_refusal(first, breaks_if(Rule::N2, x.at, input));
            input = true;
        } else if x.text.bytes() == "output".as_bytes() {
            first = earlier_refusal(first, breaks_if(Rule::N2, x.at, output));
            output = true;
        } else {
            first = earlier_refusal(first, breaks(Rule::N1, x.at));
        }
    }
    first
}

fn standard_constants(alloc: Global, walk: &mut Walk, at: Place) -> List<NamedConstant>
    ensures { Keeps walk.old walk.new walk.old.first (result ≡ standard_constants at) }
{
    let falsehood = NamedConstant::Enumerated {
        kind: 1,
        ordinal: 0,
    };
    let truth = NamedConstant::Enumerated {
        kind: 1,
        ordinal: 1,
    };
    let greatest = NamedConstant::Value(NamedConst {
        at,
        negative: None,
        value: NamedValue::Number(MAXINT as u64),
    });
    match Vec::from_array(alloc, [falsehood, truth, greatest]) {
        Ok(out) => List::of(out),
        Err(_) => {
            walk.is_lost = true;
            List::new(alloc)
        }
    }
}

fn standard_kinds(alloc: Global, walk: &mut Walk, at: Place) -> List<NamedKind>
    ensures { Keeps walk.old walk.new walk.old.first (result ≡ standard_kinds at) }
{
    let integer = NamedKind {
        at,
        form: NamedKindForm::Integer,
    };
    let boolean = NamedKind {
        at,
        form: NamedKindForm::Boolean,
    };
    let character = NamedKind {
        at,
        form: NamedKindForm::Char,
    };
    match Vec::from_array(alloc, [integer, boolean, character]) {
        Ok(out) => List::of(out),
        Err(_) => {
            walk.is_lost = true;
            List::new(alloc)
        }
    }
}

fn console(alloc: Global, walk: &mut Walk, name: &str, at: Place) -> Variable
    ensures { Keeps walk.old walk.new walk.old.first
        (result ≡ record { name = name.now; kind = 2; block = 0; role = role.Console; at = at }) }
{
    let name = match Vec::from_slice(alloc, name.as_bytes()) {
        Ok(bytes) => Text::of(bytes),
        Err(_) => {
            walk.is_lost = true;
            Text::of(Vec::new(alloc))
        }
    };
    Variable {
        name,
        kind: 2,
        block: 0,
        role: Role::Console,
        at,
    }
}

fn consoles(alloc: Global, walk: &mut Walk, at: Place) -> List<Variable>
    ensures { Keeps walk.old walk.new walk.old.first (result ≡ consoles at) }
{
    let input = console(alloc, walk, "input", at);
    let output = console(alloc, walk, "output", at);
    let mut out = Vec::new(alloc);
    walk.push(&mut out, input);
    walk.push(&mut out, output);
    List::of(out)
}

/// The standard declarations, as tables of their own.
fn standard_tables(alloc: Global, walk: &mut Walk, at: Place) -> Named
    ensures { Keeps walk.old walk.new walk.old.first (named.program_of result ≡ standard_tables at) }
{
    Named {
        constants: standard_constants(alloc, walk, at),
        kinds: standard_kinds(alloc, walk, at),
        variables: consoles(alloc, walk, at),
        blocks: List::new(alloc),
    }
}

/// What a program declares itself, and its own block.
fn own_tables(alloc: Global, walk: &mut Walk, x: &Name, b: BlockParts) -> Named
    ensures { Keeps walk.old walk.new walk.old.first
        (named.program_of result ≡ own_tables x.now (seen_block b)) }
{
    let BlockParts {
        answer: _,
        body,
        indices,
        parts,
    } = b;
    let variables = walk.join(alloc, parts.variables, indices);
    let formals = List::new(alloc);
    let blocks = block_in_front(alloc, walk, x, None, formals, None, body, parts.blocks);
    Named {
        constants: parts.constants,
        kinds: parts.kinds,
        variables,
        blocks,
    }
}

/// The tables of a program, with the standard declarations in front.
fn program_tables(alloc: Global, x: &Name, b: BlockParts) -> Result<Named, Halt>
    ensures { AnswersAs named.program_of result (Ok (program_tables x.now (seen_block b))) }
{
    let mut walk = Walk {
        first: None,
        is_lost: false,
    };
    let own = own_tables(alloc, &mut walk, x, b);
    let standard = standard_tables(alloc, &mut walk, x.at);
    let tables = beside(alloc, &mut walk, standard, own);
    if walk.is_lost {
        Err(Halt::Memory)
    } else {
        Ok(tables)
    }
}

/// The block of a program, with the standard names around it.
fn name_program(
    alloc: Global,
    block: SynBlock,
    first: FirstRefusal,
) -> Result<PassResult<BlockParts>, Halt>
    ensures { PassesTo seen_block result (inside_named (standard_scope ∷ []) empty_local (block_of block).parts
        (block_of block).body)
        (block_first (standard_scope ∷ []) empty_local (block_of block).parts (block_of block).body first) }
{
    let Ok(scopes) = Scopes::new(alloc) else {
        drop(block);
        return Err(Halt::Memory);
    };
    let mut scopes = scopes;
    let mut walk = Walk {
        first,
        is_lost: false,
    };
    let tree = name_block(block, alloc, &mut scopes, &mut walk);
    if walk.is_lost {
        Err(Halt::Memory)
    } else {
        Ok(PassResult {
            tree,
            first: walk.first,
        })
    }
}

// The same of the parts of a tree.
fn resolve_parts(
    alloc: Global,
    name: Name,
    heading: List<Name>,
    block: SynBlock,
) -> Result<Named, Halt>
    ensures { AnswersAs named.program_of result
        (name_resolution (plain.program_of (record { name = name; heading = heading; block = block }))) }
{
    let first = check_flagged(heading.items(), None);
    let inner = have!(name_program(alloc, block, first));
    match inner.first {
        Some(r) => Err(Halt::Refused(r)),
        None => program_tables(alloc, &name, inner.tree),
    }
}

/// The tree with numbers for names, or the first rule among N1 to N8 and L4 that is broken: of the earliest place, and
/// of several at one place the one that stands first in the table of rules. The tree is consumed.
pub fn resolve(alloc: Global, syntax: Syntax) -> Result<Named, Halt>
    ensures { AnswersAs named.program_of result (name_resolution (plain.program_of syntax)) }
{
    let (name, heading, block) = syntax.parts();
    resolve_parts(alloc, name, heading, block)
}
