//! What the layout of an item takes from the items before it: counts, and the kind of the last.

ghost use Rattle.std.specs.Prelude.{◌≡◌, ◌<◌, ◌+◌, ◌^◌, ℕ, List, [], ◌∷◌, cond, true, false};
ghost use Rattle.sp_format.specs.Items.{Item, item};
ghost use Rattle.sp_format.specs.Layout as layout;

use crate::kinds::{begins, closes, ends, is_array, is_case, opens, stands_out, starts};
use sp_tree::{Kind, sign, word};

/// What the layout of an item takes from the items before it.
#[derive(Clone, Copy)]
pub struct Context {
    /// There is none.
    pub first: bool,
    /// The kind of the last one, if it is no comment.
    pub previous: Option<Kind>,
    /// How many of them open a part.
    pub begun: u32,
    /// How many of them close a part.
    pub ended: u32,
    /// How many of them are `(`.
    pub opened: u32,
    /// How many of them are `)`.
    pub closed: u32,
    /// The last one that is `array` or `case` is `case`.
    pub chooses: bool,
}

/// Before the first item.
pub fn start() -> Context
    ensures { result ≡ layout.context_of [] }
{
    Context {
        first: true,
        previous: None,
        begun: 0,
        ended: 0,
        opened: 0,
        closed: 0,
        chooses: false,
    }
}

fn one_more(count: u32, more: bool) -> u32
    requires { count + 1 < 2 ^ 32 }
    ensures { result ≡ cond more (count + 1) count }
{
    if more { count + 1 } else { count }
}

fn chooses_behind(chooses: bool, kind: Option<Kind>) -> bool
    ensures { result ≡ cond (layout.is_case kind) true (cond (layout.is_array kind) false chooses) }
{
    if is_case(kind) {
        true
    } else if is_array(kind) {
        false
    } else {
        chooses
    }
}

/// Behind one more item.
pub fn behind(context: Context, kind: Option<Kind>) -> Context
    requires begun { context.begun + 1 < 2 ^ 32 }
    requires ended { context.ended + 1 < 2 ^ 32 }
    requires opened { context.opened + 1 < 2 ^ 32 }
    requires closed { context.closed + 1 < 2 ^ 32 }
    ensures { (before : List Item) (bytes : List ℕ) → context ≡ layout.context_of before
        → result ≡ layout.context_of (item kind bytes ∷ before) }
{
    Context {
        first: false,
        previous: kind,
        begun: one_more(context.begun, begins(kind)),
        ended: one_more(context.ended, ends(kind)),
        opened: one_more(context.opened, opens(kind)),
        closed: one_more(context.closed, closes(kind)),
        chooses: chooses_behind(context.chooses, kind),
    }
}

/// Inside how many parts an item stands.
pub fn depth(context: Context, kind: Option<Kind>) -> u32
    ensures { result ≡ layout.depth context kind }
{
    let inside = context.begun.saturating_sub(context.ended);
    if stands_out(kind) {
        inside.saturating_sub(1)
    } else {
        inside
    }
}

fn breaks_behind(context: Context) -> bool
    ensures { result ≡ layout.breaks_behind context.previous context }
{
    match context.previous {
        None => true,
        Some(Kind::Word(n)) => {
            n == word::BEGIN
                || n == word::PARALLEL
                || n == word::RECORD
                || n == word::REPEAT
                || (n == word::OF && context.chooses)
        }
        Some(Kind::Sign(n)) => n == sign::SEMICOLON && context.opened <= context.closed,
        Some(_) => false,
    }
}

/// Whether a new line starts between the items before and this one.
pub fn breaks(context: Context, kind: Option<Kind>) -> bool
    ensures { result ≡ layout.breaks context kind }
{
    starts(kind) || breaks_behind(context)
}
