//! Single instructions, and what they need of the tree's tables.

ghost use Rattle.std.specs.Prelude.{◌≡◌, ℕ, List, slice_get, IfOk, Some};
ghost use Rattle.sp_tree.specs.Cells.{first_or};
ghost use Rattle.sp_tree.specs.Bare.{variable_of};
ghost use Rattle.sp_tree.specs.declared.checked.KindOf.TheVariants.{Fields};
ghost use Rattle.sp_code.specs.declared.instr.Instr.TheVariants.{Call};
ghost use Rattle.sp_code.specs.Scopes.{size, sort, slot, kind_at, type_by, element_type, field_type, field_offset};
ghost use Rattle.sp_code.specs.TreeCode.{binary_instr, input_instr, read_instr, index_instr, field_instr, write_instr};
ghost use Rattle.sp_code.specs.TreeCode.{reading_instr, assign_instr, addr_by, addr_code, call_up, call_instr};
ghost use Rattle.sp_code.specs.TreeCode.{least_of};
ghost use Rattle.sp_code.specs.TreeCode.{greatest_of};
ghost use Rattle.sp_generate.specs.Sorts.{is_many};
ghost use Rattle.sp_generate.specs.Views.{plain_program, scopes};

use crate::code_context::CodeContext;
use crate::levels::{Scope, block_level, index_level};
use sp_base::{List, Memory};
use sp_code::Instr;
use sp_tree::{BinaryOp, KindOf, Role, StandardFn, Variable};

/// The number that stands there, or 0.
#[tactic(auto, using(crate::proofs::Tables::first_is, crate::proofs::Tables::none_is))]
pub fn number_at(numbers: &List<u32>, k: u32) -> u32
    ensures { result ≡ first_or 0 (slice_get numbers.now k) }
{
    match numbers.get(k as usize) {
        None => 0,
        Some(n) => *n,
    }
}

/// The cells of a type.
pub fn size(g: &CodeContext, k: u32) -> u32
    ensures { result ≡ size (plain_program g.now) k }
{
    number_at(&g.cells, k)
}

/// The number of a variable in its frame.
pub fn slot(g: &CodeContext, x: u32) -> u32
    ensures { result ≡ slot (plain_program g.now) x }
{
    number_at(&g.slots, x)
}

/// The type of a variable.
pub fn variable_kind(g: &CodeContext, x: u32) -> u32
    ensures { result ≡ type_by (slice_get (plain_program g.now).variables x) }
{
    match g.checked.variables.get(x as usize) {
        None => 0,
        Some(v) => v.kind,
    }
}

pub fn binary_instr(op: BinaryOp) -> Instr
    ensures { result ≡ binary_instr op }
{
    match op {
        BinaryOp::Eq => Instr::Eq,
        BinaryOp::Ne => Instr::Ne,
        BinaryOp::Lt => Instr::Lt,
        BinaryOp::Le => Instr::Le,
        BinaryOp::Gt => Instr::Gt,
        BinaryOp::Ge => Instr::Ge,
        BinaryOp::Add => Instr::Add,
        BinaryOp::Sub => Instr::Sub,
        BinaryOp::Or => Instr::Or,
        BinaryOp::Mul => Instr::Mul,
        BinaryOp::Div => Instr::Div,
        BinaryOp::Mod => Instr::Mod,
        BinaryOp::And => Instr::And,
    }
}

/// `eof` and `eoln`.
pub fn input_instr(f: StandardFn) -> Instr
    ensures { result ≡ input_instr f }
{
    match f {
        StandardFn::Eof => Instr::Eof,
        StandardFn::Eoln => Instr::Eoln,
        _ => Instr::Nocase,
    }
}

/// The least and the greatest ordinal of a type.
pub fn greatest(g: &CodeContext, k: u32) -> i64
    ensures { result ≡ greatest_of (kind_at (plain_program g.now) k) }
{
    match g.checked.kinds.get(k as usize) {
        Some(KindOf::Integer) => 9_223_372_036_854_775_807,
        Some(KindOf::Boolean) => 1,
        Some(KindOf::Char) => 255,
        Some(KindOf::Enumeration(n)) => *n as i64 - 1,
        _ => 0,
    }
}

pub fn least(g: &CodeContext, k: u32) -> i64
    ensures { result ≡ least_of (kind_at (plain_program g.now) k) }
{
    match g.checked.kinds.get(k as usize) {
        Some(KindOf::Integer) => -9_223_372_036_854_775_807,
        _ => 0,
    }
}

/// What an address is replaced by where a variable is read.
pub fn read_instr(g: &CodeContext, k: u32) -> Instr
    ensures { result ≡ read_instr (sort (plain_program g.now) k) (size (plain_program g.now) k) }
{
    match g.checked.kinds.get(k as usize) {
        None => Instr::Nocase,
        Some(KindOf::Channel(_)) => Instr::Loadc,
        Some(KindOf::Array { .. }) => Instr::Pack(size(g, k)),
        Some(KindOf::Fields(_)) => Instr::Pack(size(g, k)),
        Some(_) => Instr::Load,
    }
}

/// The instruction that assigns a value of a type.
pub fn assign_instr(g: &CodeContext, k: u32) -> Instr
    ensures { result ≡ assign_instr (sort (plain_program g.now) k) (size (plain_program g.now) k) }
{
    match g.checked.kinds.get(k as usize) {
        None => Instr::Nocase,
        Some(KindOf::Array { .. }) => Instr::Copy(size(g, k)),
        Some(KindOf::Fields(_)) => Instr::Copy(size(g, k)),
        Some(_) => Instr::Store,
    }
}

/// Whether values of a type are many cells.
pub fn is_many(g: &CodeContext, k: u32) -> bool
    ensures { result ≡ is_many (sort (plain_program g.now) k) }
{
    matches!(
        g.checked.kinds.get(k as usize),
        Some(KindOf::Array { .. } | KindOf::Fields(_))
    )
}

/// The type of an element.
pub fn element_type(g: &CodeContext, k: u32) -> u32
    ensures { result ≡ element_type k (kind_at (plain_program g.now) k) }
{
    match g.checked.kinds.get(k as usize) {
        Some(KindOf::Array { element, .. }) => *element,
        _ => k,
    }
}

/// The selection of an element.
pub fn index_instr(g: &CodeContext, k: u32) -> Instr
    ensures { result ≡ index_instr (kind_at (plain_program g.now) k)
        (size (plain_program g.now) (element_type k (kind_at (plain_program g.now) k))) }
{
    match g.checked.kinds.get(k as usize) {
        Some(
            KindOf::Array {
                low,
                high,
                element,
                ..
            },
        ) => Instr::Index {
            low: *low,
            high: *high,
            size: size(g, *element),
        },
        _ => Instr::Nocase,
    }
}

/// The type of a field.
pub fn field_type(g: &CodeContext, k: u32, f: u32) -> u32
    ensures { result ≡ field_type k (kind_at (plain_program g.now) k) f }
{
    match g.checked.kinds.get(k as usize) {
        Some(KindOf::Fields(fields)) => match fields.get(f as usize) {
            None => k,
            Some(field) => field.1,
        },
        _ => k,
    }
}

/// How many cells of a record stand before a field.
fn offset(g: &CodeContext, k: u32, f: u32) -> Result<u32, Memory>
    ensures { IfOk result (λ n. (fs : List (List ℕ × ℕ)) → kind_at (plain_program g.now) k ≡ Some (Fields fs)
        → n ≡ field_offset (plain_program g.now) fs f) }
{
    match g.offsets.get(k as usize) {
        None => Err(Memory),
        Some(offsets) => match offsets.get(f as usize) {
            None => Err(Memory),
            Some(n) => Ok(*n),
        },
    }
}

/// The selection of a field.
pub fn field_instr(g: &CodeContext, k: u32, f: u32) -> Result<Instr, Memory>
    ensures { IfOk result (λ i. i ≡ field_instr (plain_program g.now) f (kind_at (plain_program g.now) k)) }
{
    match g.checked.kinds.get(k as usize) {
        Some(KindOf::Fields(_)) => {
            let n = offset(g, k, f)?;
            Ok(Instr::Field(n))
        }
        _ => Ok(Instr::Nocase),
    }
}

/// The writing of an item of a type, in a width or not.
pub fn write_instr(g: &CodeContext, k: u32, width: bool) -> Instr
    ensures { result ≡ write_instr (kind_at (plain_program g.now) k) width }
{
    match g.checked.kinds.get(k as usize) {
        Some(KindOf::Integer) => {
            if width {
                Instr::WritewInt
            } else {
                Instr::WriteInt
            }
        }
        Some(KindOf::Boolean) => {
            if width {
                Instr::WritewBool
            } else {
                Instr::WriteBool
            }
        }
        Some(KindOf::Char) => {
            if width {
                Instr::WritewChar
            } else {
                Instr::WriteChar
            }
        }
        _ => Instr::Nocase,
    }
}

/// The reading of an item of a type.
pub fn reading_instr(g: &CodeContext, k: u32) -> Instr
    ensures { result ≡ reading_instr (kind_at (plain_program g.now) k) }
{
    match g.checked.kinds.get(k as usize) {
        Some(KindOf::Integer) => Instr::ReadInt,
        Some(KindOf::Char) => Instr::ReadChar,
        _ => Instr::Nocase,
    }
}

/// The address of a variable whose frame is so many levels outward.
fn address_by(sc: &[Scope], x: u32, slot: u32, v: &Variable) -> Result<Instr, Memory>
    ensures { IfOk result (λ i. i ≡ addr_by (scopes sc.now) x slot (variable_of v.now) v.now.role) }
{
    match v.role {
        Role::Console => Ok(Instr::Nocase),
        Role::Reference => {
            let up = block_level(sc, v.block)?;
            Ok(Instr::Deref { up, var: slot })
        }
        Role::Index => {
            let up = index_level(sc, x)?;
            Ok(Instr::Addr { up, var: 0 })
        }
        Role::Local | Role::Value | Role::Answer => {
            let up = block_level(sc, v.block)?;
            Ok(Instr::Addr { up, var: slot })
        }
    }
}

/// The address of an entire variable.
pub fn address(g: &CodeContext, sc: &[Scope], x: u32) -> Result<Instr, Memory>
    ensures { IfOk result (λ i. i ≡ addr_code (plain_program g.now) (scopes sc.now) x) }
{
    match g.checked.variables.get(x as usize) {
        None => Ok(Instr::Nocase),
        Some(v) => address_by(sc, x, slot(g, x), v),
    }
}

/// The call of a block that has this one around it.
fn call_in(sc: &[Scope], f: u32, parent: Option<u32>) -> Result<Instr, Memory>
    ensures { IfOk result (λ i. i ≡ Call f (call_up (scopes sc.now) parent)) }
{
    match parent {
        None => Ok(Instr::Call { block: f, up: 0 }),
        Some(b) => {
            let up = block_level(sc, b)?;
            Ok(Instr::Call { block: f, up })
        }
    }
}

/// The call of a block.
#[tactic(auto, using(crate::proofs::Tables::block_at, crate::proofs::Tables::no_block))]
pub fn call_instr(g: &CodeContext, sc: &[Scope], f: u32) -> Result<Instr, Memory>
    ensures { IfOk result (λ i. i ≡ call_instr (scopes sc.now) f (slice_get (plain_program g.now).blocks f)) }
{
    match g.checked.blocks.get(f as usize) {
        None => Ok(Instr::Call { block: f, up: 0 }),
        Some(b) => call_in(sc, f, b.parent),
    }
}
