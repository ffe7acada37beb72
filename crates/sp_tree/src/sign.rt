//! The signs, each by its number in the list of signs.

/// `+`
pub const PLUS: u8 = 0;
/// `-`
pub const MINUS: u8 = 1;
/// `*`
pub const TIMES: u8 = 2;
/// `=`
pub const EQUAL: u8 = 3;
/// `<>`
pub const UNEQUAL: u8 = 4;
/// `<`
pub const LESS: u8 = 5;
/// `<=`
pub const AT_MOST: u8 = 6;
/// `>`
pub const GREATER: u8 = 7;
/// `>=`
pub const AT_LEAST: u8 = 8;
/// `(`
pub const OPEN: u8 = 9;
/// `)`
pub const CLOSE: u8 = 10;
/// `[`
pub const OPEN_INDEX: u8 = 11;
/// `]`
pub const CLOSE_INDEX: u8 = 12;
/// `:=`
pub const BECOMES: u8 = 13;
/// `.`
pub const DOT: u8 = 14;
/// `,`
pub const COMMA: u8 = 15;
/// `;`
pub const SEMICOLON: u8 = 16;
/// `:`
pub const COLON: u8 = 17;
/// `..`
pub const RANGE: u8 = 18;
/// `|`
pub const BAR: u8 = 19;
