//! What stands in expressions, variables and arguments: variables, and blocks that are called.

ghost use Rattle.std.specs.Prelude.{◌≡◌, map};
ghost use Rattle.sp_tree.specs.Bare.{bare_expression, bare_form, bare_variable, bare_selectors, bare_actuals};
ghost use Rattle.sp_tree.specs.Bare.{bare_width};
ghost use Rattle.sp_tree.specs.CheckedOf.{expression_of, expression_form_of, variable_of, selector_of, selectors};
ghost use Rattle.sp_tree.specs.CheckedOf.{actual_of, actuals, width_of};
ghost use Rattle.sp_tree.specs.Plain.{Actuals};
ghost use Rattle.sp_tree.specs.Uses.{Target, Seen, CallOf, Stop, In_expr, In_form, In_read, In_target, In_selectors};
ghost use Rattle.sp_tree.specs.Uses.{In_actuals, In_width};
ghost use Rattle.sp_varsets.specs.AddedUses.{AddsUses, AreEmpty, AreUnions, IsWithout, In_selector, In_actual};
ghost use Rattle.sp_varsets.specs.Bodies.{AppendsRows};
ghost use Rattle.sp_varsets.specs.Members.{has};

use crate::bodies::Bodies;
use crate::var_set::VarSet;
use sp_tree::{Actual, Expr, ExprForm, Selector, Var};
use std::alloc::Global;

/// The value; where there is none, the function around ends so: one match, where `?` is two generic calls. Each crate
/// that uses it has its own, since proofs name the steps of another crate's macro otherwise.
#[macro_export]
macro_rules! take {
    ($result:expr) => {
        match $result {
            Ok(value) => value,
            Err(memory) => return Err(memory),
        }
    };
}

/// What stands in a part of a tree: the variables of target positions and of expression positions, and the blocks
/// that are called. `stops` has 0 where a statement stands there that a function may not have. Uses that were refused
/// memory are lost: what they have is no answer. So a pass does not end at once, and has no branch for each call.
pub(crate) struct Uses {
    pub targets: VarSet,
    pub expressions: VarSet,
    pub calls: VarSet,
    pub stops: VarSet,
    pub is_lost: bool,
}

impl Drop for Uses {
    fn drop(self) {
        let Uses {
            targets: _,
            expressions: _,
            calls: _,
            stops: _,
            is_lost: _,
        } = self;
    }
}

impl Uses {
    pub(crate) fn new(alloc: Global) -> Uses
        ensures { AreEmpty result }
    {
        Uses {
            targets: VarSet::new(alloc),
            expressions: VarSet::new(alloc),
            calls: VarSet::new(alloc),
            stops: VarSet::new(alloc),
            is_lost: false,
        }
    }

    pub(crate) fn add_target(&mut self, variable: u32)
        ensures { AddsUses self.old self.new (λ u. u ≡ Target variable) }
    {
        self.is_lost |= self.targets.insert(variable).is_err();
    }

    pub(crate) fn add_seen(&mut self, variable: u32)
        ensures { AddsUses self.old self.new (λ u. u ≡ Seen variable) }
    {
        self.is_lost |= self.expressions.insert(variable).is_err();
    }

    pub(crate) fn add_call(&mut self, block: u32)
        ensures { (args : Actuals) → AddsUses self.old self.new (λ u. u ≡ CallOf block args) }
    {
        self.is_lost |= self.calls.insert(block).is_err();
    }

    pub(crate) fn stop(&mut self)
        ensures { AddsUses self.old self.new (λ u. u ≡ Stop) }
    {
        self.is_lost |= self.stops.insert(0).is_err();
    }

    /// Adds what stands elsewhere.
    pub(crate) fn merge(&mut self, other: &Uses)
        ensures { AreUnions self.old other.now self.new }
    {
        self.is_lost |= other.is_lost;
        self.is_lost |= self.targets.join(&other.targets).is_err();
        self.is_lost |= self.expressions.join(&other.expressions).is_err();
        self.is_lost |= self.calls.join(&other.calls).is_err();
        self.is_lost |= self.stops.join(&other.stops).is_err();
    }

    /// Leaves out the positions of the variable.
    pub(crate) fn forget(&mut self, variable: u32)
        ensures targets { IsWithout self.old.targets self.new.targets variable }
        ensures expressions { IsWithout self.old.expressions self.new.expressions variable }
        ensures calls { self.new.calls ≡ self.old.calls }
        ensures stops { self.new.stops ≡ self.old.stops }
        ensures lost { self.new.is_lost ≡ self.old.is_lost }
    {
        self.targets.remove(variable);
        self.expressions.remove(variable);
    }

    /// Puts the sets last, as those of the next block.
    pub(crate) fn put_last(self, bodies: &mut Bodies)
        ensures { AppendsRows bodies.old bodies.new self }
    {
        let Uses {
            targets,
            expressions,
            calls,
            stops,
            is_lost,
        } = self;
        bodies.is_lost |= is_lost;
        bodies.is_lost |= bodies.targets.push(targets).is_err();
        bodies.is_lost |= bodies.expressions.push(expressions).is_err();
        bodies.is_lost |= bodies.calls.push(calls).is_err();
        bodies.is_lost |= bodies.stops.push(stops).is_err();
    }

    #[cycle(uses)]
    pub(crate) fn expression(&mut self, e: &Expr)
        ensures { AddsUses self.old self.new (In_expr (bare_expression (expression_of e.now))) }
    {
        self.form(&e.form)
    }

    #[cycle(uses)]
    fn form(&mut self, form: &ExprForm)
        ensures { AddsUses self.old self.new (In_form (bare_form (expression_form_of form.now))) }
    {
        match form {
            ExprForm::Number(_) => {}
            ExprForm::Read(v) => self.read(v),
            ExprForm::Unary(_op, a) => self.expression(a.get()),
            ExprForm::Binary(_op, a, b) => {
                self.expression(a.get());
                self.expression(b.get())
            }
            ExprForm::Call(f, _at, args) => {
                self.add_call(*f);
                self.actuals(args.items())
            }
            ExprForm::Standard(_f, args) => match args.items().split_first() {
                Some((a, _rest)) => self.expression(a),
                None => self.add_seen(0),
            },
        }
    }

    #[cycle(uses)]
    fn read(&mut self, v: &Var)
        ensures { AddsUses self.old self.new (In_read (bare_variable (variable_of v.now))) }
    {
        self.add_seen(v.variable);
        self.selectors(v.selectors.items())
    }

    #[cycle(uses)]
    pub(crate) fn target(&mut self, v: &Var)
        ensures { AddsUses self.old self.new (In_target (bare_variable (variable_of v.now))) }
    {
        self.add_target(v.variable);
        self.selectors(v.selectors.items())
    }

    #[cycle(uses)]
    fn selectors(&mut self, ss: &[Selector])
        ensures { AddsUses self.old self.new
            (In_selectors (bare_selectors (selectors (map selector_of ss.now)))) }
    {
        for s in ss {
            self.selector(s);
        }
    }

    #[cycle(uses)]
    fn selector(&mut self, s: &Selector)
        ensures { AddsUses self.old self.new (In_selector (selector_of s.now)) }
    {
        match s {
            Selector::Index(e) => self.expression(e),
            Selector::Field(_) => {}
        }
    }

    #[cycle(uses)]
    pub(crate) fn actuals(&mut self, args: &[Actual])
        ensures { AddsUses self.old self.new
            (In_actuals (bare_actuals (actuals (map actual_of args.now)))) }
    {
        for a in args {
            self.actual(a);
        }
    }

    #[cycle(uses)]
    fn actual(&mut self, a: &Actual)
        ensures { AddsUses self.old self.new (In_actual (actual_of a.now)) }
    {
        match a {
            Actual::Value(e) => self.expression(e),
            Actual::Reference(v) => self.target(v),
        }
    }

    pub(crate) fn width(&mut self, w: &Option<Expr>)
        ensures { AddsUses self.old self.new (In_width (bare_width (width_of w.now))) }
    {
        match w {
            Some(e) => self.expression(e),
            None => {}
        }
    }
}
