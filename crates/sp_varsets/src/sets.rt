//! The sets of a tree, by the numbers of its statements and blocks (`Sets`).

ghost use Rattle.std.specs.Prelude.{◌≡◌};
ghost use Rattle.sp_varsets.specs.AreSets.{set_of_index, targets_of, expressions_of, implicit_targets_of};
ghost use Rattle.sp_varsets.specs.AreSets.{implicit_expressions_of, stops_of};

use crate::var_set::VarSet;
use sp_base::List;

/// Where the two sets of a statement, or the two implicit ones of a block, stand in the pool.
#[derive(Clone, Copy)]
pub(crate) struct Entry {
    pub targets: u32,
    pub expressions: u32,
}

/// The sets of the statements and blocks of a tree. Equal sets often stand once in the pool.
pub struct Sets {
    pub(crate) nothing: VarSet,
    pub(crate) pool: List<VarSet>,
    pub(crate) statements: List<Entry>,
    pub(crate) blocks: List<Entry>,
    pub(crate) stops: List<bool>,
}

impl Drop for Sets {
    fn drop(self) {
        let Sets {
            nothing: _,
            pool: _,
            statements: _,
            blocks: _,
            stops: _,
        } = self;
    }
}

impl Sets {
    // The set of this index: 0 names the empty set, n + 1 the set of place n in the pool.
    #[tactic(auto, using(crate::proofs::Items::chosen_none, crate::proofs::Items::chosen_first, crate::proofs::Items::chosen_past))]
    fn pooled(&self, at: u32) -> &VarSet
        ensures { result.now ≡ set_of_index self.now.pool self.now.nothing at }
    {
        if at == 0 {
            return &self.nothing;
        }
        match self.pool.get(at as usize - 1) {
            Some(set) => set,
            None => &self.nothing,
        }
    }

    /// The target variables of the statement with this number, those of the procedures and functions that it calls
    /// among them.
    #[tactic(auto, unfolding(crate::specs::AreSets::targets_of))]
    pub fn targets(&self, statement: u32) -> &VarSet
        ensures { result.now ≡ targets_of self.now statement }
    {
        match self.statements.get(statement as usize) {
            Some(entry) => self.pooled(entry.targets),
            None => self.pooled(0),
        }
    }

    /// The expression variables of the statement with this number, those of the procedures and functions that it
    /// calls among them.
    #[tactic(auto, unfolding(crate::specs::AreSets::expressions_of))]
    pub fn expressions(&self, statement: u32) -> &VarSet
        ensures { result.now ≡ expressions_of self.now statement }
    {
        match self.statements.get(statement as usize) {
            Some(entry) => self.pooled(entry.expressions),
            None => self.pooled(0),
        }
    }

    /// The targets of the block's statement part that neither it nor a block inside it declares.
    #[tactic(auto, unfolding(crate::specs::AreSets::implicit_targets_of))]
    pub fn implicit_targets(&self, block: u32) -> &VarSet
        ensures { result.now ≡ implicit_targets_of self.now block }
    {
        match self.blocks.get(block as usize) {
            Some(entry) => self.pooled(entry.targets),
            None => self.pooled(0),
        }
    }

    /// The expression variables of the block's statement part that neither it nor a block inside it declares.
    #[tactic(auto, unfolding(crate::specs::AreSets::implicit_expressions_of))]
    pub fn implicit_expressions(&self, block: u32) -> &VarSet
        ensures { result.now ≡ implicit_expressions_of self.now block }
    {
        match self.blocks.get(block as usize) {
            Some(entry) => self.pooled(entry.expressions),
            None => self.pooled(0),
        }
    }

    /// Whether a call of the block leads to `open`, `send`, `receive`, `parallel`, `forall`, `read`, `readln`, `write`
    /// or `writeln`, or its statement part has one.
    #[tactic(auto, using(crate::proofs::Items::read_or, crate::proofs::Items::none_or), unfolding(crate::specs::AreSets::stops_of))]
    pub fn stops(&self, block: u32) -> bool
        ensures { result ≡ stops_of self.now block }
    {
        match self.stops.get(block as usize) {
            Some(stops) => *stops,
            None => false,
        }
    }
}
