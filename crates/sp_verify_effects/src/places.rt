//! Where an instruction finds the variables that it stores and loads.

ghost use Rattle.std.specs.Prelude.{◌≡◌, Some, List};
ghost use Rattle.sp_code.specs.declared.code.Parts.{Parts};
ghost use Rattle.sp_verify_effects.specs.Own.{variables_at};
ghost use Rattle.sp_verify_rules.specs.Areas.{Area};
ghost use Rattle.sp_verify_rules.specs.Shapes.{Shape};
ghost use Rattle.sp_verify_rules.specs.Touches.{stored_by, loaded_by};
ghost use Rattle.sp_verify_rules.specs.Verdict.{is_stop};

use sp_code::Instr;

/// Where variables are found.
#[derive(Clone, Copy)]
pub enum Place {
    /// There are none.
    Nowhere,
    /// The one of this number.
    Number(u32),
    /// The input, and that of the topmost operand, if it is an address.
    Input,
    /// That of the topmost operand.
    Top,
    /// That of the second operand.
    Second,
    /// The variable of this number of the newest frame.
    Loop(u32),
    /// Those of the operands for the formals of this block.
    Passed(u32),
}

/// The variables that an instruction stores.
pub fn stored_place(instr: Instr) -> Place
    ensures { (c : Parts) (a : Area) (ss : List Shape) → stored_by c a (Some instr) ss ≡ variables_at c a result ss }
{
    match instr {
        Instr::Store => Place::Second,
        Instr::Copy(_) => Place::Second,
        Instr::Forup { var, to: _ } => Place::Loop(var),
        Instr::Fordown { var, to: _ } => Place::Loop(var),
        Instr::Nextup { var, to: _ } => Place::Loop(var),
        Instr::Nextdown { var, to: _ } => Place::Loop(var),
        Instr::Call { block, up: _ } => Place::Passed(block),
        Instr::ReadInt => Place::Input,
        Instr::ReadChar => Place::Input,
        Instr::Readln => Place::Number(0),
        Instr::WriteInt => Place::Number(1),
        Instr::WriteChar => Place::Number(1),
        Instr::WriteBool => Place::Number(1),
        Instr::WriteText(_) => Place::Number(1),
        Instr::WritewInt => Place::Number(1),
        Instr::WritewChar => Place::Number(1),
        Instr::WritewBool => Place::Number(1),
        Instr::WritewText(_) => Place::Number(1),
        Instr::Writeln => Place::Number(1),
        Instr::Open => Place::Top,
        Instr::Receive(_) => Place::Top,
        _ => Place::Nowhere,
    }
}

/// Those that it loads.
pub fn loaded_place(instr: Instr) -> Place
    ensures { (c : Parts) (a : Area) (ss : List Shape) → loaded_by c a (Some instr) ss ≡ variables_at c a result ss }
{
    match instr {
        Instr::Load => Place::Top,
        Instr::Loadc => Place::Top,
        Instr::Pack(_) => Place::Top,
        Instr::Copy(_) => Place::Top,
        Instr::Eof => Place::Number(0),
        Instr::Eoln => Place::Number(0),
        _ => Place::Nowhere,
    }
}

/// Whether a process stops there, other than by a fault.
pub fn is_stop(instr: Instr) -> bool
    ensures { result ≡ is_stop (Some instr) }
{
    match instr {
        Instr::Open => true,
        Instr::Send(_) => true,
        Instr::Receive(_) => true,
        Instr::Fork(_) => true,
        Instr::Forall(_) => true,
        Instr::End => true,
        _ => false,
    }
}
