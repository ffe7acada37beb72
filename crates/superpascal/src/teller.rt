//! What a journal is told by, beside the code that follows it (`Teller`), and what is then written (`Account`).

use sp_base::Text;
use sp_code::Code;
use sp_journal::End;
use sp_where::Symbols;

/// What a journal is told by.
pub enum Teller {
    /// What the program writes along it.
    Output,
    /// Its entries, by the places and the names of the text.
    Entries(Symbols),
    /// The state behind its last entry, by the same.
    State(Symbols),
}

// By hand, so that it is one call where a `?` drops it, and not what stands in it each time.
impl Drop for Teller {
    fn drop(self) {
        match self {
            Teller::Output => {}
            Teller::Entries(_) | Teller::State(_) => {}
        }
    }
}

/// The code of a text, and what its journals are told by.
#[derive(Drop)]
pub struct Ready {
    pub code: Code,
    pub teller: Teller,
}

/// What is told of a journal that was followed.
#[derive(Drop)]
pub struct Account {
    /// The end to which it leads, if any.
    pub end: Option<End>,
    /// What is written of it.
    pub text: Text,
}
