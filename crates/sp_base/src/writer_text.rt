//! Numbers and names behind the bytes of a text.

ghost use Rattle.std.specs.Prelude.{decimal};
ghost use Rattle.std.specs.Fmt.{signed_decimal};
ghost use Rattle.sp_base.specs.Names.{name_text, channel_text};
ghost use Rattle.sp_base.specs.Places.{place_text};
ghost use Rattle.sp_base.specs.Adds.{Adds};

use crate::decimal::{put_decimal, put_signed};
use crate::name::{ChanName, ProcName};
use crate::place::Place;
use crate::writer::Writer;

impl Writer<u8> {
    /// Puts the number in decimal last, as `0` or `42`.
    pub fn decimal(&mut self, number: u64)
        ensures { Adds self.old self.new (decimal number) }
    {
        if !self.is_lost && put_decimal(&mut self.items, number).is_err() {
            self.is_lost = true;
        }
    }

    /// Puts the integer in decimal last, as `42` or `-7`.
    pub fn signed(&mut self, number: i64)
        ensures { Adds self.old self.new (signed_decimal number) }
    {
        if !self.is_lost && put_signed(&mut self.items, number).is_err() {
            self.is_lost = true;
        }
    }

    /// Puts the name's text last, as `0/2.1`.
    pub fn name(&mut self, name: &ProcName)
        ensures { Adds self.old self.new (name_text name.now) }
    {
        if !self.is_lost && name.put(&mut self.items).is_err() {
            self.is_lost = true;
        }
    }

    /// Puts the name's text last, as `0/2.1#3`.
    pub fn channel(&mut self, name: &ChanName)
        ensures { Adds self.old self.new (channel_text name.now) }
    {
        if !self.is_lost && name.put(&mut self.items).is_err() {
            self.is_lost = true;
        }
    }

    /// Puts the place's line and column last, as `25:3`.
    pub fn place(&mut self, at: Place)
        ensures { Adds self.old self.new (place_text at) }
    {
        self.decimal(u64::from(at.line));
        self.extend(b":");
        self.decimal(u64::from(at.column));
    }
}
