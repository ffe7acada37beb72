//! The limits of the language's profile: of a text, of a name, and of parts inside others.

/// How many bytes a text may have.
pub const MAX_TEXT: usize = 1_048_576;

/// How many bytes a name may have.
pub const MAX_NAME: usize = 127;

/// Inside how many parts a part may not lie any more. A part is a block, a statement that is not empty, an
/// expression, or a factor after `not`.
pub const MAX_NESTING: u32 = 200;
