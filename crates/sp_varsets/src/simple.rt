//! What stands in the statements that have no others inside them.

ghost use Rattle.std.specs.Prelude.{ℕ, List, map};
ghost use Rattle.sp_tree.specs.Bare.{bare_expression, bare_variable, bare_actuals, bare_width};
ghost use Rattle.sp_tree.specs.CheckedOf.{expression_of, variable_of, actual_of, actuals, width_of};
ghost use Rattle.sp_tree.specs.Plain.{Assign, Call, ReadValue, ReadLine, WriteValue, WriteText, WriteLine, Open, Send};
ghost use Rattle.sp_tree.specs.Plain.{Receive};
ghost use Rattle.sp_tree.specs.Plain.{Expr as AnExpr};
ghost use Rattle.sp_tree.specs.Uses.{In_expr, In_stmt};
ghost use Rattle.sp_varsets.specs.declared.uses.Uses.{Uses as AUses};
ghost use Rattle.sp_varsets.specs.AddedUses.{AddsUses, AreEmpty};

use crate::uses::Uses;
use sp_tree::{Actual, Expr, Var};

impl Uses {
    pub(crate) fn assign(&mut self, v: &Var, e: &Expr)
        ensures { AddsUses self.old self.new
            (In_stmt (Assign (bare_variable (variable_of v.now)) (bare_expression (expression_of e.now)))) }
    {
        self.target(v);
        self.expression(e);
    }

    pub(crate) fn call(&mut self, block: u32, args: &[Actual])
        ensures { AddsUses self.old self.new
            (In_stmt (Call block (bare_actuals (actuals (map actual_of args.now))))) }
    {
        self.add_call(block);
        self.actuals(args);
    }

    pub(crate) fn read_value(&mut self, v: &Var)
        ensures { AddsUses self.old self.new (In_stmt (ReadValue (bare_variable (variable_of v.now)))) }
    {
        self.add_target(0);
        self.target(v);
        self.stop();
    }

    pub(crate) fn read_line(&mut self)
        ensures { AddsUses self.old self.new (In_stmt ReadLine) }
    {
        self.add_target(0);
        self.stop();
    }

    pub(crate) fn write_value(&mut self, e: &Expr, w: &Option<Expr>)
        ensures { AddsUses self.old self.new
            (In_stmt (WriteValue (bare_expression (expression_of e.now)) (bare_width (width_of w.now)))) }
    {
        self.add_target(1);
        self.expression(e);
        self.width(w);
        self.stop();
    }

    pub(crate) fn write_text(&mut self, w: &Option<Expr>)
        ensures { (text : List ℕ)
            → AddsUses self.old self.new (In_stmt (WriteText text (bare_width (width_of w.now)))) }
    {
        self.add_target(1);
        self.width(w);
        self.stop();
    }

    pub(crate) fn write_line(&mut self)
        ensures { AddsUses self.old self.new (In_stmt WriteLine) }
    {
        self.add_target(1);
        self.stop();
    }

    pub(crate) fn open(&mut self, v: &Var)
        ensures { AddsUses self.old self.new (In_stmt (Open (bare_variable (variable_of v.now)))) }
    {
        self.target(v);
        self.stop();
    }

    pub(crate) fn send(&mut self, c: &Expr, e: &Expr)
        ensures { AddsUses self.old self.new
            (In_stmt (Send (bare_expression (expression_of c.now)) (bare_expression (expression_of e.now)))) }
    {
        self.expression(c);
        self.expression(e);
        self.stop();
    }

    pub(crate) fn receive(&mut self, c: &Expr, variable: &Var)
        ensures { AddsUses self.old self.new
            (In_stmt (Receive (bare_expression (expression_of c.now)) (bare_variable (variable_of variable.now)))) }
    {
        self.expression(c);
        self.target(variable);
        self.stop();
    }

    // A send on a channel whose uses are known.
    pub(crate) fn send_through(&mut self, through: &Uses, e: &Expr)
        ensures { (c : AnExpr) (start : AUses) → AreEmpty start → AddsUses start through.now (In_expr c)
            → AddsUses self.old self.new (In_stmt (Send c (bare_expression (expression_of e.now)))) }
    {
        self.merge(through);
        self.expression(e);
        self.stop();
    }

    // A receive from a channel whose uses are known.
    pub(crate) fn receive_through(&mut self, through: &Uses, v: &Var)
        ensures { (c : AnExpr) (start : AUses) → AreEmpty start → AddsUses start through.now (In_expr c)
            → AddsUses self.old self.new (In_stmt (Receive c (bare_variable (variable_of v.now)))) }
    {
        self.merge(through);
        self.target(v);
        self.stop();
    }
}
