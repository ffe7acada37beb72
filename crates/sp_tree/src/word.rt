//! The reserved words, each by its number in the order of the alphabet.

pub const AND: u8 = 0;

pub const ARRAY: u8 = 1;

pub const ASSUME: u8 = 2;

pub const BEGIN: u8 = 3;

pub const CASE: u8 = 4;

pub const CONST: u8 = 5;

pub const DIV: u8 = 6;

pub const DO: u8 = 7;

pub const DOWNTO: u8 = 8;

pub const ELSE: u8 = 9;

pub const END: u8 = 10;

pub const FOR: u8 = 11;

pub const FORALL: u8 = 12;

pub const FUNCTION: u8 = 13;

pub const IF: u8 = 14;

pub const MOD: u8 = 15;

pub const NOT: u8 = 16;

pub const OF: u8 = 17;

pub const OR: u8 = 18;

pub const PARALLEL: u8 = 19;

pub const PROCEDURE: u8 = 20;

pub const PROGRAM: u8 = 21;

pub const RECORD: u8 = 22;

pub const REPEAT: u8 = 23;

pub const THEN: u8 = 24;

pub const TO: u8 = 25;

pub const TYPE: u8 = 26;

pub const UNTIL: u8 = 27;

pub const VAR: u8 = 28;

pub const WHILE: u8 = 29;
