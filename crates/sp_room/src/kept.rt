//! What a room keeps: an object that one worker after another asks.
ghost use Rattle.std.specs.Prelude.{◌≡◌, ℕ};

/// The answer to an ask, and the note of the change that it made.
#[derive(Drop)]
pub struct Served<G, N> {
    pub got: G,
    /// None exactly where the object is unchanged.
    pub note: Option<N>,
}

/// An object for one thread. A room asks it for many, one after another.
///
/// What the object does is the relation `steps`, and its laws are proved with each implementation.
pub trait Kept {
    ghost use Rattle.std.specs.Prelude.{Option, List, Some, None, ◌<◌, length, Bool, true, false};
    ghost use Rattle.sp_room.specs.History.{LeadsTo, notes_by, StartsWith};

    type Ask;

    type Got;

    type Note: Copy;

    // The states with which a room may open.
    ghost opens: { Self → Type 0 };

    // What one thread may see: the state, the worker, the ask, the state after, the answer and the note.
    ghost steps: { Self → ℕ → Self.Ask → Self → Self.Got → Option Self.Note → Type 0 };

    // The state, the worker and the ask of a call that may be made.
    ghost can_serve: { Self → ℕ → Self.Ask → Type 0 };

    // The condition on an ask: the opening state, the worker, the history that its seat has seen, its own notes in it,
    // and the ask.
    ghost may_ask: { Self → ℕ → List Self.Note → List Self.Note → Self.Ask → Type 0 };

    // The worker that a note names.
    ghost author: { Self.Note → ℕ };

    // An ask, and what comes back where there is no memory for the history.
    ghost refused: { Self.Ask → Self.Got → Type 0 };

    // An ask that a seat makes at most once, as its last.
    ghost final_ask: { Self.Ask → Bool };

    /// Answers the ask of this worker.
    fn serve(&mut self, worker: u32, ask: Self::Ask) -> Served<Self::Got, Self::Note>
        requires { can_serve self.old worker ask }
        ensures { steps self.old worker ask self.new result.got result.note };

    /// The answer to an ask that was not put to the object, for want of memory. It gives back all that the ask held.
    fn refuse(ask: Self::Ask) -> Self::Got
        requires { final_ask ask ≡ false }
        ensures { refused ask result };

    /// Whether it is an ask that a seat makes at most once, as its last. Such an ask takes no memory, and its note goes
    /// into the reserve.
    fn last(ask: &Self::Ask) -> bool
        ensures { result ≡ final_ask ask.now };

    /// How many seats that found nothing to take could take something now: after a note so many of those that rest are
    /// woken, and all where it is `u64::MAX`. It changes nothing, and nothing is promised of it.
    fn left(&self) -> u64;

    /// The worker that the note names.
    fn by(note: &Self::Note) -> u32
        ensures { result ≡ author note.now };

    // Where no note is left nothing changed.
    ghost unchanged: { (x : Self) (w : ℕ) (a : Self.Ask) (y : Self) (g : Self.Got) → steps x w a y g None → y ≡ x };

    // Where a note is left something changed.
    ghost changed: { (x : Self) (w : ℕ) (a : Self.Ask) (y : Self) (g : Self.Got) (n : Self.Note)
        → steps x w a y g (Some n) → y ≡ x → ⊥ };

    // A last ask leaves a note.
    ghost leaves: { (x : Self) (w : ℕ) (a : Self.Ask) (y : Self) (g : Self.Got) → final_ask a ≡ true
        → steps x w a y g None → ⊥ };

    // A refused ask can be told from its answer, so the answer gives back all that it held.
    ghost regained: { (a b : Self.Ask) (g : Self.Got) → final_ask a ≡ false → final_ask b ≡ false → refused a g
        → refused b g → a ≡ b };

    // A note names the worker that was asked.
    ghost named: { (x : Self) (w : ℕ) (a : Self.Ask) (y : Self) (g : Self.Got) (n : Self.Note)
        → steps x w a y g (Some n) → author n ≡ w };

    // What may be asked after the history seen may be asked, and served, after each longer legal one with the same
    // notes of that worker.
    ghost lasting: { (x : Self) (w : ℕ) (seen own : List Self.Note) (a : Self.Ask) (log : List Self.Note) (y : Self)
        → opens x
        → may_ask x w seen own a → StartsWith log seen → notes_by author w log ≡ own → LeadsTo steps x log y
        → length log < 18446744073709551615 → may_ask x w log own a × can_serve y w a };
}
