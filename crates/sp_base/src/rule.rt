//! The rules that a program text keeps, and their names.

ghost use Rattle.std.specs.Prelude.{◌≡◌, Some};
ghost use Rattle.sp_base.specs.Rules.{rule_name};

use std::fmt;

/// A rule of the language, of the profile or of its limits, by its name in `docs/LANGUAGE.md`.
/// The variants stand in the order of the rule table: of two rules that are broken at one place of one
/// phase, the earlier one is reported.
#[derive(Clone, Copy, Debug, PartialEq, Eq)]
pub enum Rule {
    /// A text of more than 1,048,576 bytes.
    L1,
    /// A byte that is no blank and begins no token.
    S1,
    /// A comment without end.
    S2,
    /// A text without its closing quote on its line.
    S3,
    /// A number above `MAXINT`.
    S4,
    /// A name of more than 127 bytes.
    S5,
    /// A word or sign of the language that this profile refuses.
    U1,
    /// A real number, or the operator `/`.
    U2,
    /// A token with which no program can go on.
    G1,
    /// A part inside 200 other parts.
    L2,
    /// The end of the text before the end of the program.
    G2,
    /// A name that is not declared.
    N1,
    /// A name that is declared twice.
    N2,
    /// A name of the wrong kind.
    N3,
    /// A type's name in its own definition.
    N4,
    /// A width or an argument in a place that takes none.
    N5,
    /// A wrong number of parameters.
    N6,
    /// A target that is no variable.
    N7,
    /// A `for` variable that is no variable of the innermost block.
    N8,
    /// The 4,097th declaration of its kind.
    L4,
    /// An operand of the wrong type.
    Y1,
    /// A wrong index.
    Y2,
    /// A wrong field.
    Y3,
    /// A condition that is not boolean.
    Y4,
    /// An assigned expression of another type.
    Y5,
    /// An actual value parameter of another type.
    Y6,
    /// An actual variable parameter of another type, or no variable.
    Y7,
    /// An argument or a width that a standard call does not take.
    Y8,
    /// A message type that is not the channel's.
    Y9,
    /// A limit of `for` or `forall` of the wrong type.
    Y10,
    /// A `case` selector or constant of the wrong type.
    Y11,
    /// A repeated `case` constant.
    Y12,
    /// Bounds of an array that do not fit.
    Y13,
    /// A sign, a result or a text where its type does not fit.
    Y14,
    /// A type of more than 1,048,576 cells.
    L3,
    /// A frame of more than 1,048,576 cells.
    L6,
    /// Process statements that interfere.
    I1,
    /// A `forall` whose element statement has a target.
    I2,
    /// A `for` variable that its body changes.
    I3,
    /// Two variable parameters with one variable.
    I4,
    /// A variable parameter that the called block uses as well.
    I5,
    /// A recursive block with an implicit variable.
    I6,
    /// A function with a variable parameter.
    I7,
    /// A function with a side effect.
    I8,
    /// A function that communicates, forks, reads or writes.
    I9,
    /// Code of more than 1,048,576 instructions.
    L5,
}

impl Rule {
    /// The rule's name, as `N3`.
    pub fn name(self) -> &'static str
        ensures { result.now ≡ rule_name self }
    {
        match self {
            Rule::L1 => "L1",
            Rule::S1 => "S1",
            Rule::S2 => "S2",
            Rule::S3 => "S3",
            Rule::S4 => "S4",
            Rule::S5 => "S5",
            Rule::U1 => "U1",
            Rule::U2 => "U2",
            Rule::G1 => "G1",
            Rule::L2 => "L2",
            Rule::G2 => "G2",
            Rule::N1 => "N1",
            Rule::N2 => "N2",
            Rule::N3 => "N3",
            Rule::N4 => "N4",
            Rule::N5 => "N5",
            Rule::N6 => "N6",
            Rule::N7 => "N7",
            Rule::N8 => "N8",
            Rule::L4 => "L4",
            Rule::Y1 => "Y1",
            Rule::Y2 => "Y2",
            Rule::Y3 => "Y3",
            Rule::Y4 => "Y4",
            Rule::Y5 => "Y5",
            Rule::Y6 => "Y6",
            Rule::Y7 => "Y7",
            Rule::Y8 => "Y8",
            Rule::Y9 => "Y9",
            Rule::Y10 => "Y10",
            Rule::Y11 => "Y11",
            Rule::Y12 => "Y12",
            Rule::Y13 => "Y13",
            Rule::Y14 => "Y14",
            Rule::L3 => "L3",
            Rule::L6 => "L6",
            Rule::I1 => "I1",
            Rule::I2 => "I2",
            Rule::I3 => "I3",
            Rule::I4 => "I4",
            Rule::I5 => "I5",
            Rule::I6 => "I6",
            Rule::I7 => "I7",
            Rule::I8 => "I8",
            Rule::I9 => "I9",
            Rule::L5 => "L5",
        }
    }
}

impl fmt::Display for Rule {
    ghost output = { λ r. Some (rule_name r) };

    fn fmt<W: fmt::Write>(&self, f: &mut fmt::Formatter<W>) -> fmt::Result {
        write!(f, "{}", self.name())
    }
}
