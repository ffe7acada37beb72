//! The range of integers, how far a run may go, and what is told of a run (`Show`).

ghost use Rattle.std.specs.Prelude.{◌≡◌, pos};
ghost use Rattle.sp_base.specs.declared.limits.TheConstants.{MAXINT, TURN_TICKS};

/// The greatest integer of the language. The least one is `-MAXINT`.
pub const MAXINT: i64 = 9223372036854775807;

/// How many ticks a process may make since its last entry in the journal before it has to pause.
pub const TURN_TICKS: u64 = 100_000;

/// The two numbers that the definitions name and do not write.
pub fn the_numbers_are_these()
    ensures maxint { MAXINT ≡ pos 9223372036854775807 }
    ensures ticks { TURN_TICKS ≡ 100000 }
{}

/// The seven limits of a run. Ticks, depth and cells count for each process by itself. Processes, channels and
/// entries are totals of the run that never fall, since what is alive at once would depend on the schedule.
#[derive(Clone, Copy)]
pub struct Limits {
    /// How many ticks (turns of loops, and calls) a process may make.
    pub ticks: u64,
    /// How deep the calls and forks of a process may nest.
    pub depth: u32,
    /// How many cells the live frames of a process may have.
    pub cells: u32,
    /// How many processes there may ever be, the root among them.
    pub processes: u32,
    /// How many channels may ever be opened.
    pub channels: u32,
    /// How many entries fork, open, send or receive the journal may have.
    pub entries: u32,
    /// How many bytes the output may have.
    pub output: u64,
}

/// What a run reports beside its end and its verdict.
#[derive(Clone, Copy)]
pub enum Show {
    /// Nothing more.
    End,
    /// The entries of the journal with their indices.
    Timeline,
    /// How many entries of each kind there are.
    Census,
    /// The processes by their names.
    Tree,
    /// The processes that wait at the end, and for what.
    Waiting,
    /// All of these reports.
    All,
    /// The journal alone, in place of the end and the verdict.
    Journal,
}
