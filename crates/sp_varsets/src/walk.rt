//! The pass over statements: what stands in each of them.

ghost use Rattle.std.specs.Prelude.{◌≡◌, ◌≢◌, ℕ, ◌+◌, false, Some, map, length};
ghost use Rattle.sp_base.specs.declared.place.Place.{Place as APlace};
ghost use Rattle.sp_tree.specs.PlainChecked as c;
ghost use Rattle.sp_tree.specs.CheckedOf.{expression_of, variable_of, statement_of, statement_form_of, statements};
ghost use Rattle.sp_tree.specs.CheckedOf.{arm_of, arms, sends, receives};
ghost use Rattle.sp_tree.specs.Bare.{bare_expression};
ghost use Rattle.sp_tree.specs.Uses.{In_expr};
ghost use Rattle.sp_varsets.specs.declared.uses.Uses.{Uses as AUses};
ghost use Rattle.sp_varsets.specs.AddedUses.{AddsUses, AreEmpty};
ghost use Rattle.sp_varsets.specs.Records.{RecordsSets, slot_at};
ghost use Rattle.sp_varsets.specs.Walks.{WalksStatement, WalksForm, WalksStatements, WalksArms, WalksElement};

use crate::pool::Known;
use crate::uses::Uses;
use crate::var_set::VarSet;
use sp_base::List;
use sp_tree::{Arm, Expr, Form, Stmt, Var};
use std::alloc::Global;

/// What stands in one statement: the sets of its target positions, of its expression positions and of the blocks
/// called in it. 0 names the empty set, n + 1 the set of place n in the pool.
#[derive(Clone, Copy)]
pub(crate) struct StatementSets {
    pub targets: u32,
    pub expressions: u32,
    pub calls: u32,
}

/// The sets so far, each of them once, and what is recorded of each statement, by its number. A walk that was refused
/// memory is lost: what it has is no answer.
#[derive(Drop)]
pub(crate) struct Walk {
    pub alloc: Global,
    pub pool: List<VarSet>,
    pub slots: List<Option<StatementSets>>,
    pub known: Known,
    pub is_lost: bool,
}

impl Walk {
    pub(crate) fn new(alloc: Global) -> Walk
        ensures pool { length result.pool ≡ 0 }
        ensures slots { length result.slots ≡ 0 }
    {
        Walk {
            alloc,
            pool: List::new(alloc),
            slots: List::new(alloc),
            known: Known::new(alloc),
            is_lost: false,
        }
    }

    // Records sets under this number.
    #[tactic(auto, using(crate::proofs::StatementRecords::slot_put, crate::proofs::StatementRecords::slot_other))]
    fn record(&mut self, number: usize, sets: StatementSets)
        ensures kept { self.new.is_lost ≡ false → self.old.is_lost ≡ false }
        ensures pool { self.new.pool ≡ self.old.pool }
        ensures there { self.new.is_lost ≡ false → slot_at self.new.slots number ≡ Some sets }
        ensures others { self.new.is_lost ≡ false → (n : ℕ) → n ≢ number
            → slot_at self.new.slots n ≡ slot_at self.old.slots n }
    {
        'slots: for _k in self.slots.len()..=number {
            if self.slots.push(None).is_err() {
                self.is_lost = true;
                return;
            }
        }
        let _old = self.slots.replace(number, Some(sets));
    }

    // Puts the sets into the pool, and records them under this number.
    fn keep(&mut self, number: usize, uses: &mut Uses)
        ensures { self.new.is_lost ≡ false → RecordsSets self.old self.new number uses.old }
    {
        let targets = self.put(uses.targets.take());
        let expressions = self.put(uses.expressions.take());
        let calls = self.put(uses.calls.take());
        let sets = StatementSets {
            targets,
            expressions,
            calls,
        };
        self.record(number, sets);
    }

    // The same under the number that stands so far behind a first one.
    fn keep_behind(&mut self, first: u32, i: usize, uses: &mut Uses)
        ensures { self.new.is_lost ≡ false → RecordsSets self.old self.new (first + i) uses.old }
    {
        match (first as usize).checked_add(i) {
            Some(number) => self.keep(number, uses),
            None => self.is_lost = true,
        }
    }

    /// Adds what stands in the statement, and records it and the statements inside it.
    #[cycle(walk)]
    pub(crate) fn statement(&mut self, into: &mut Uses, s: &Stmt)
        ensures { WalksStatement self.old self.new into.old into.new (statement_of s.now) }
    {
        let mut mine = Uses::new(self.alloc);
        self.form(&mut mine, &s.form);
        into.merge(&mine);
        self.keep(s.number as usize, &mut mine);
        into.is_lost |= self.is_lost;
    }

    #[cycle(walk)]
    fn form(&mut self, into: &mut Uses, form: &Form)
        ensures { WalksForm self.old self.new into.old into.new (statement_form_of form.now) }
    {
        match form {
            Form::Empty => {}
            Form::Assign(v, e) => into.assign(v, e),
            Form::Call(f, args) => into.call(*f, args.items()),
            Form::Sequence(ss) => self.statements(into, ss.items()),
            Form::If(e, a, None) => {
                into.expression(e);
                self.statement(into, a.get())
            }
            Form::If(e, a, Some(b)) => {
                into.expression(e);
                self.statement(into, a.get());
                self.statement(into, b.get())
            }
            Form::While(e, s) => {
                into.expression(e);
                self.statement(into, s.get())
            }
            Form::Repeat(s, e) => {
                into.expression(e);
                self.statement(into, s.get())
            }
            Form::For {
                variable,
                at: _at,
                from,
                down: _down,
                to,
                body,
            } => {
                into.add_target(*variable);
                into.expression(from);
                into.expression(to);
                self.statement(into, body.get())
            }
            Form::Case(e, choices) => {
                into.expression(e);
                self.choices(into, choices.items())
            }
            Form::Parallel(ss) => {
                self.statements(into, ss.items());
                into.stop()
            }
            Form::Forall {
                index,
                from,
                to,
                body,
            } => {
                into.expression(from);
                into.expression(to);
                self.element(into, *index, body.get());
                into.stop()
            }
            Form::Assume(e) => into.expression(e),
            Form::ReadValue(v) => into.read_value(v),
            Form::ReadLine => into.read_line(),
            Form::WriteValue(e, w) => into.write_value(e, w),
            Form::WriteText(_text, w) => into.write_text(w),
            Form::WriteLine => into.write_line(),
            Form::Open(v) => into.open(v),
            Form::Send(c, e) => into.send(c, e),
            Form::Receive(c, v) => into.receive(c, v),
            Form::SendEach {
                at: _at,
                number,
                channel,
                values,
            } => self.sends(into, *number, channel, values.items()),
            Form::ReceiveEach {
                at: _at,
                number,
                channel,
                variables,
            } => self.receives(into, *number, channel, variables.items()),
        }
    }

    // The element statement of a forall, whose index is left out of the positions.
    #[cycle(walk)]
    fn element(&mut self, into: &mut Uses, index: u32, s: &Stmt)
        ensures { WalksElement self.old self.new into.old into.new index (statement_of s.now) }
    {
        let mut inner = Uses::new(self.alloc);
        self.statement(&mut inner, s);
        inner.forget(index);
        into.merge(&inner);
    }

    #[cycle(walk)]
    fn statements(&mut self, into: &mut Uses, ss: &[Stmt])
        ensures { WalksStatements self.old self.new into.old into.new (statements (map statement_of ss.now)) }
    {
        for s in ss {
            self.statement(into, s);
        }
    }

    #[cycle(walk)]
    fn choices(&mut self, into: &mut Uses, choices: &[Arm])
        ensures { WalksArms self.old self.new into.old into.new (arms (map arm_of choices.now)) }
    {
        for arm in choices {
            self.statement(into, &arm.body);
        }
    }

    // The single statements of several sends, wherever they stand. A long channel is walked through once.
    fn sends(&mut self, into: &mut Uses, number: u32, channel: &Expr, values: &[Expr])
        ensures { (at : APlace) → WalksStatements self.old self.new into.old into.new
            (sends number at (expression_of channel.now) (map expression_of values.now)) }
    {
        let mut through = Uses::new(self.alloc);
        through.expression(channel);
        for (i, value) in values.iter().enumerate() {
            self.send(into, number, i, &through, value);
        }
    }

    // A single send, whose number stands so far behind a first one.
    fn send(&mut self, into: &mut Uses, first: u32, i: usize, through: &Uses, value: &Expr)
        ensures { (at : APlace) (channel : c.Expression) (start : AUses) → AreEmpty start
            → AddsUses start through.now (In_expr (bare_expression channel))
            → WalksStatement self.old self.new into.old into.new
            (c.Does (first + i) at (c.Send channel (expression_of value.now))) }
    {
        let mut mine = Uses::new(self.alloc);
        mine.send_through(through, value);
        into.merge(&mine);
        self.keep_behind(first, i, &mut mine);
        into.is_lost |= self.is_lost;
    }

    // The single statements of several receives, in the same way.
    fn receives(&mut self, into: &mut Uses, number: u32, channel: &Expr, variables: &[Var])
        ensures { (at : APlace) → WalksStatements self.old self.new into.old into.new
            (receives number at (expression_of channel.now) (map variable_of variables.now)) }
    {
        let mut through = Uses::new(self.alloc);
        through.expression(channel);
        for (i, variable) in variables.iter().enumerate() {
            self.receive(into, number, i, &through, variable);
        }
    }

    // A single receive, whose number stands so far behind a first one.
    fn receive(&mut self, into: &mut Uses, first: u32, i: usize, through: &Uses, variable: &Var)
        ensures { (at : APlace) (channel : c.Expression) (start : AUses) → AreEmpty start
            → AddsUses start through.now (In_expr (bare_expression channel))
            → WalksStatement self.old self.new into.old into.new
            (c.Does (first + i) at (c.Receive channel (variable_of variable.now))) }
    {
        let mut mine = Uses::new(self.alloc);
        mine.receive_through(through, variable);
        into.merge(&mine);
        self.keep_behind(first, i, &mut mine);
        into.is_lost |= self.is_lost;
    }
}
