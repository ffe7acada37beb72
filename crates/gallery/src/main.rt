//! The gallery: makes the runs of `table.txt` and the calls of the files of `rows/` by the top call, and says whether
//! status, output and notes are as expected. It runs in the folder `data`, where the texts and what is expected of them
//! stand.
//!
//! To know:
//! - `src/table.rt` goes through the table, with files of the system, and `src/rows.rt` through rows, with texts in
//!   memory; `src/row.rt` is what the lines of a row say. `src/call.rt` makes a call, with input, output and notes in
//!   memory, and compares.
//! - A line of the table with the command `run` that names no number of workers is made with 1, 2 and 8 workers, any
//!   other line once.
//! - `examples` is a link to the folder `data`. `rt ci` runs the program there and compares what it writes with
//!   `stdout`, a line for each run of the table, and how many calls of each file of rows are as expected.
//!
//! To change:
//! - An example: its text, its `.in`, `.out` and `.notes`, its line in `data/table.txt` and in `data/README.md`, and
//!   its lines in `stdout`.
//! - A call on a small text: its lines in a file of `data/rows/`, as `data/README.md` tells them, and the number of
//!   calls of that file in `stdout`.
#![tactic(auto)]

mod call;
mod row;
mod rows;
mod table;

use rows::make_rows;
use std::io;
use table::make_table;

// The files of rows.
static ROWS: [&str; 11] = [
    "rows/words.txt",
    "rows/refusals.txt",
    "rows/texts.txt",
    "rows/runs.txt",
    "rows/workers.txt",
    "rows/options.txt",
    "rows/witnesses.txt",
    "rows/replays.txt",
    "rows/traces.txt",
    "rows/states.txt",
    "rows/executions.txt",
];

/// Writes a line for each run of the table, and for each file of rows.
fn main(rt: HostRuntime) -> io::Result<()> {
    make_table(&rt, &rt, "table.txt")?;
    for name in ROWS.as_slice() {
        make_rows(&rt, &rt, name)?;
    }
    Ok(())
}
