//! The variables of a process as `where` writes them.

ghost use Rattle.std.specs.Prelude.{◌≡◌, suc, drop, slice_get};
ghost use Rattle.std.specs.FinMap as map;
ghost use Rattle.std.specs.List.{list_any};
ghost use Rattle.sp_code.specs.Memory.{cell_at};
ghost use Rattle.sp_machine.specs.Frames.{frame_of, home_of};
ghost use Rattle.sp_where.specs.KnownOf.{IsKnown, known_of};
ghost use Rattle.sp_where.specs.StateVariables.{address_by, content_line, first_variable, moved_line, moved_lines};
ghost use Rattle.sp_where.specs.StateVariables.{moved_variables, own_lines, own_variables, same_spot, value_line};
ghost use Rattle.sp_where.specs.StateVariables.{variable_line};
ghost use Rattle.sp_base.specs.Adds.{Adds, Keeps};

use crate::symbols::Symbols;
use crate::values::put_value;
use sp_base::Writer;
use sp_cell::{Address, Cell, Spot};
use sp_code::{Code, Formal};
use sp_journal::Ledger;
use sp_machine::{Frame, Home, layout_of, referred};
use sp_store::Store;
use sp_tree::Variable;

/// What is known beside the state: the names that the journal gives, the text, and its code.
#[derive(Drop)]
pub(crate) struct Known<'a> {
    pub(crate) ledger: &'a Ledger,
    pub(crate) symbols: &'a Symbols,
    pub(crate) code: &'a Code,
}

// The cells from this one on.
fn from_cell(cells: &[Cell], offset: u32) -> &[Cell]
    ensures { result.now ≡ drop offset cells.now }
{
    let offset = offset as usize;
    if offset < cells.len() {
        return &cells[offset..];
    }
    &cells[cells.len()..]
}

fn put_value_line(out: &mut Writer<u8>, known: &Known, variable: &Variable, cells: &[Cell])
    requires { IsKnown known.now }
    ensures { Adds out.old out.new (value_line (known_of known.now) variable.now cells.now) }
{
    out.extend(b"    ");
    out.extend(variable.name.bytes());
    out.extend(b" = ");
    put_value(out, known.ledger, known.symbols, variable.kind, cells);
    out.extend(b"\n");
}

// Puts the line of a variable that stands there.
fn put_content(out: &mut Writer<u8>, known: &Known, store: &Store, at: Address, variable: &Variable)
    requires { IsKnown known.now }
    ensures { Adds out.old out.new
        (content_line (known_of known.now) variable.now at.offset (map.get store.now.map at.spot)) }
{
    match store.held(at.spot) {
        Some(cells) => put_value_line(out, known, variable, from_cell(cells, at.offset)),
        None => {
            if store.has_gone(at.spot) {
                out.extend(b"    ");
                out.extend(variable.name.bytes());
                out.extend(b" away\n");
            }
        }
    }
}

// Puts the line of a variable of the tree, if it stands somewhere.
fn put_variable(
    out: &mut Writer<u8>,
    known: &Known,
    store: &Store,
    variable: u32,
    at: Option<Address>,
)
    requires { IsKnown known.now }
    ensures { Adds out.old out.new (variable_line (known_of known.now) store.now variable at) }
{
    if let Some(at) = at {
        if let Some(found) = known.symbols.checked.variables.get(variable as usize) {
            put_content(out, known, store, at, found);
        }
    }
}

// Where the variable with this number stands.
fn address_by(frame: &Frame, number: u32, formal: Option<Formal>) -> Option<Address>
    ensures { result ≡ address_by (frame_of frame.now) number formal }
{
    match formal {
        None | Some(Formal::Value(_)) => Some(cell_at(frame, number)),
        Some(Formal::Reference(_)) => referred(number, frame.references.items()),
    }
}

// The same, by the parameters of the frame's block.
fn address_in(frame: &Frame, formals: &[Formal], number: u32) -> Option<Address>
    ensures { result ≡ address_by (frame_of frame.now) number (slice_get formals.now number) }
{
    address_by(frame, number, formals.get(number as usize).copied())
}

// The first cell of the variable with this number.
fn cell_at(frame: &Frame, number: u32) -> Address
    ensures { result ≡ cell_at (frame_of frame.now).number number }
{
    Address {
        spot: Spot {
            frame: frame.number,
            variable: number,
        },
        offset: 0,
    }
}

// Puts the variables of a process's own frame, from this number on. More than numbers can tell count as want of memory.
fn put_own_lines(
    out: &mut Writer<u8>,
    known: &Known,
    store: &Store,
    frame: &Frame,
    formals: &[Formal],
    first: u32,
    variables: &[u32],
)
    requires { IsKnown known.now }
    ensures { Adds out.old out.new (own_lines (known_of known.now) store.now (frame_of frame.now) formals.now first
        variables.now) }
{
    let mut number = first;
    for variable in variables {
        put_variable(
            out,
            known,
            store,
            *variable,
            address_in(frame, formals, number),
        );
        number = next_number(out, number);
    }
}

// The next number. There is one, or the writer is lost.
fn next_number(out: &mut Writer<u8>, number: u32) -> u32
    ensures { Keeps out.old out.new ((out.new.items.items ≡ out.old.items.items) × (result ≡ suc number)) }
{
    match number.checked_add(1) {
        Some(next) => next,
        None => {
            out.lose();
            number
        }
    }
}

fn is_same(spot: Spot, other: Spot) -> bool
    ensures { result ≡ same_spot spot other }
{
    spot.frame == other.frame && spot.variable == other.variable
}

// Whether the spot is one of these.
#[tactic(auto, using(crate::proofs::SpotTests::any_here, crate::proofs::SpotTests::any_on, crate::proofs::SpotTests::any_end))]
fn is_among(spot: Spot, spots: &[Spot]) -> bool
    ensures { result ≡ list_any (same_spot spot) spots.now }
{
    for other in spots {
        if is_same(spot, *other) {
            return true;
        }
    }
    false
}

// Puts the line of a variable of an ancestor's frame, if it is one of those that moved.
fn put_moved(
    out: &mut Writer<u8>,
    known: &Known,
    store: &Store,
    moved: &[Spot],
    variable: u32,
    at: Address,
)
    requires { IsKnown known.now }
    ensures { Adds out.old out.new (moved_line (known_of known.now) store.now moved.now variable at) }
{
    if is_among(at.spot, moved) {
        put_variable(out, known, store, variable, Some(at));
    }
}

// Puts those of these variables of an ancestor's frame that moved, from this number on.
fn put_moved_lines(
    out: &mut Writer<u8>,
    known: &Known,
    store: &Store,
    moved: &[Spot],
    frame: &Frame,
    first: u32,
    variables: &[u32],
)
    requires { IsKnown known.now }
    ensures { Adds out.old out.new (moved_lines (known_of known.now) store.now moved.now (frame_of frame.now) first
        variables.now) }
{
    let mut number = first;
    for variable in variables {
        put_moved(out, known, store, moved, *variable, cell_at(frame, number));
        number = next_number(out, number);
    }
}

/// The program's frame has its variables from number 2 on.
pub(crate) fn first_variable(home: Home) -> u32
    ensures { result ≡ first_variable (home_of home) }
{
    match home {
        Home::Block(block) => if block == 0 { 2 } else { 0 },
        Home::Index(_) => 0,
    }
}

/// Puts the variables of a process's own frame.
pub(crate) fn put_own_variables(out: &mut Writer<u8>, known: &Known, store: &Store, frame: &Frame)
    requires { IsKnown known.now }
    ensures { Adds out.old out.new (own_variables (known_of known.now) store.now (frame_of frame.now)
        (home_of frame.now.home)) }
{
    match frame.home {
        Home::Block(block) => {
            if let Some(layout) = layout_of(known.code, block) {
                let first = first_variable(frame.home);
                let variables = layout.variables.items();
                put_own_lines(
                    out,
                    known,
                    store,
                    frame,
                    layout.formals.items(),
                    first,
                    variables,
                );
            }
        }
        Home::Index(index) => put_own_lines(out, known, store, frame, &[], 0, &[index]),
    }
}

/// Puts the variables of an ancestor's frame that are among those that moved.
pub(crate) fn put_moved_variables(
    out: &mut Writer<u8>,
    known: &Known,
    store: &Store,
    moved: &[Spot],
    frame: &Frame,
)
    requires { IsKnown known.now }
    ensures { Adds out.old out.new (moved_variables (known_of known.now) store.now moved.now (frame_of frame.now)
        (home_of frame.now.home)) }
{
    match frame.home {
        Home::Block(block) => {
            if let Some(layout) = layout_of(known.code, block) {
                let first = first_variable(frame.home);
                put_moved_lines(
                    out,
                    known,
                    store,
                    moved,
                    frame,
                    first,
                    layout.variables.items(),
                );
            }
        }
        Home::Index(index) => put_moved_lines(out, known, store, moved, frame, 0, &[index]),
    }
}
