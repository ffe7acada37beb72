//! What the code of a statement needs to know of what is around the statement.

use crate::code_context::CodeContext;
use crate::levels::Scope;
use sp_varsets::Sets;

/// The program that a statement is part of, the sets of its variables, and the scopes around the statement.
#[derive(Clone, Copy)]
pub struct StatementContext<'a> {
    pub program: &'a CodeContext<'a>,
    pub sets: &'a Sets,
    pub scopes: &'a [Scope],
}
