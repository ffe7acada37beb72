//! The tables of declarations that are visible where the walk stands, one for each block.
//!
//! The hash of the tables has a fixed seed, so names can be made that collide.

ghost use Rattle.std.specs.Prelude.{◌≡◌, nat_le, ◌∷◌, [], map, None, Ok, OnOk};
ghost use Rattle.std.specs.Option.{option_copied, is_some};
ghost use Rattle.sp_tree.specs.Carried.{Keeps};
ghost use Rattle.sp_tree.specs.PhaseResults.{Answers};
ghost use Rattle.sp_tree.specs.Scopes.{find_in, look, find, put, count, with_one_more, declaration_limit};
ghost use Rattle.sp_tree.specs.Scopes.{empty_local, standard_scope, with_declaration};
ghost use Rattle.sp_tree.specs.Scopes.{local_of_inner, inner_env};
ghost use Rattle.sp_tree.specs.NameWalk.{blocks_around, answer_local};
ghost use Rattle.sp_scope.specs.Firsts.{Leaves};
ghost use Rattle.sp_scope.specs.Walks.{entries_of};

use crate::have;
use crate::numbers::{behind, next_variable};
use crate::standard::standard;
use indexmap::IndexMap;
use sp_base::{Halt, Text};
use sp_tree::{Counts, Meaning, Name, Sort, Walk};
use std::alloc::Global;
use std::marker::Model;
use std::mem;

/// The innermost block of declarations, and those around it.
#[derive(Drop)]
pub struct Scopes {
    here: IndexMap<Text, Meaning>,
    block: u32,
    answer: u32,
    counts: Counts,
    around: Vec<IndexMap<Text, Meaning>>,
}

impl Model for Scopes {
    ghost use Rattle.std.specs.Prelude.{map};
    ghost use Rattle.sp_tree.specs.Scopes.{Env};

    ghost Value = { Env };

    ghost view = { λ it. record {
      local = record
          { here = it.here.entries; block = it.block; answer = it.answer; counts = it.counts };
      around = map (λ m. m.entries) it.around.items;
    } };
}

/// The innermost of these blocks that declares the name, the last first.
fn find_in<'a>(bs: &'a [IndexMap<Text, Meaning>], name: &Text) -> Option<&'a Meaning>
    ensures { option_copied result ≡ find_in (map entries_of bs.now) name.now None }
{
    match bs.split_last() {
        None => None,
        Some((b, rest)) => match b.get(name) {
            Some(m) => Some(m),
            None => find_in(rest, name),
        },
    }
}

/// Declares a name in a block.
#[tactic(auto, using(crate::proofs::ScopeTables::put_is))]
pub fn put(b: &mut IndexMap<Text, Meaning>, name: Text, m: Meaning) -> Result<(), Halt>
    ensures memory { Answers result (Ok tt) }
    ensures after { OnOk result (b.new.entries ≡ put b.old.entries name m) }
{
    b.insert(name, m)?;
    Ok(())
}

/// One more of a sort.
fn one_more(walk: &mut Walk, sort: Sort, counts: Counts) -> Counts
    ensures { Keeps walk.old walk.new walk.old.first (result ≡ with_one_more sort counts) }
{
    let mut counts = counts;
    match sort {
        Sort::Constant => counts.constants = behind(walk, counts.constants, 1),
        Sort::Kind => counts.kinds = behind(walk, counts.kinds, 1),
        Sort::Variable => counts.variables = behind(walk, counts.variables, 1),
        Sort::Block => counts.blocks = behind(walk, counts.blocks, 1),
    }
    counts
}

/// How many of one sort a text may declare.
const MOST: u32 = 4096;

impl Scopes {
    /// The program's block before anything is declared, with the standard names in a block around it.
    pub fn new(alloc: Global) -> Result<Scopes, Halt>
        ensures { Answers result (Ok (inner_env (standard_scope ∷ []) empty_local)) }
    {
        let standard = have!(standard(alloc));
        let mut around = Vec::new(alloc);
        around.push(standard)?;
        Ok(Scopes {
            here: IndexMap::new(alloc),
            block: 0,
            answer: 0,
            counts: Counts {
                constants: 0,
                kinds: 0,
                variables: 0,
                results: 0,
                blocks: 0,
            },
            around,
        })
    }

    /// The number of the program, procedure or function whose block is innermost.
    pub fn block(&self) -> u32
        ensures { result ≡ self.now.local.block }
    {
        self.block
    }

    /// The number of its result's variable.
    pub fn answer(&self) -> u32
        ensures { result ≡ self.now.local.answer }
    {
        self.answer
    }

    /// What was declared so far.
    pub fn counts(&self) -> Counts
        ensures { result ≡ self.now.local.counts }
    {
        self.counts
    }

    /// Whether the limit of a sort is reached.
    pub fn is_full(&self, sort: Sort) -> bool
        ensures { result ≡ nat_le declaration_limit (count sort self.now.local.counts) }
    {
        match sort {
            Sort::Constant => MOST <= self.counts.constants,
            Sort::Kind => MOST <= self.counts.kinds,
            Sort::Variable => MOST <= self.counts.variables,
            Sort::Block => MOST <= self.counts.blocks,
        }
    }

    /// Declares a name. Past the limit of its sort nothing is entered.
    pub fn declare(&mut self, alloc: Global, walk: &mut Walk, name: &Text, sort: Sort, m: Meaning)
        ensures { Keeps walk.old walk.new walk.old.first
            (self.new ≡ inner_env self.old.around (with_declaration self.old.local name.now sort m)) }
    {
        if !self.is_full(sort) {
            let counts = one_more(walk, sort, self.counts);
            let name = walk.text(alloc, name);
            walk.after(put(&mut self.here, name, m));
            self.counts = counts;
        }
    }

    /// Numbers the result of a function, a variable without a name.
    pub fn number_answer(&mut self, walk: &mut Walk, answer: &Option<Name>)
        ensures { Keeps walk.old walk.new walk.old.first
            (self.new ≡ inner_env self.old.around (answer_local self.old.local answer.now)) }
    {
        match answer {
            None => {}
            Some(_) => {
                self.answer = next_variable(walk, self.counts);
                self.counts.results = behind(walk, self.counts.results, 1);
            }
        }
    }

    /// Opens a block inside, of the procedure with this number, whose result has that one.
    pub fn open(&mut self, alloc: Global, walk: &mut Walk, block: u32, answer: u32)
        ensures { Keeps walk.old walk.new walk.old.first (self.new
            ≡ inner_env (blocks_around self.old.around self.old.local) (local_of_inner block answer self.old.local)) }
    {
        let here = mem::replace(&mut self.here, IndexMap::new(alloc));
        walk.push(&mut self.around, here);
        self.block = block;
        self.answer = answer;
    }

    /// Goes back to the block around, which is that of the procedure with this number.
    pub fn leave(&mut self, block: u32, answer: u32)
        ensures { Leaves block answer self.old self.new }
    {
        match self.around.pop() {
            Some(here) => {
                self.here = here;
            }
            None => {}
        }
        self.block = block;
        self.answer = answer;
    }

    /// What the name stands for, by its innermost declaration.
    pub fn find(&self, name: &Text) -> Option<&Meaning>
        ensures { option_copied result ≡ find self.now name.now }
    {
        match self.here.get(name) {
            Some(m) => Some(m),
            None => find_in(self.around.as_slice(), name),
        }
    }

    /// Whether the innermost block declares the name.
    pub fn declares(&self, name: &Text) -> bool
        ensures { result ≡ is_some (look self.now.local.here name.now) }
    {
        match self.here.get(name) {
            Some(_) => true,
            None => false,
        }
    }
}
