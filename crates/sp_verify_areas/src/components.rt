//! Components of the code's ways that pass no tick and no call, for rule V9. Their numbers are a guess: whoever takes
//! them checks what is needed of them.

ghost use Rattle.std.specs.Prelude.{◌≡◌};
ghost use Rattle.sp_verify_areas.specs.Rounds.{has_owner, number_at};

use crate::have;
use crate::owners::Owner;
use crate::ways::free_ways;
use sp_base::{List, Memory, Writer};
use sp_code::{Code, MAX_CODE};

/// Whether an instruction has an owner.
pub(crate) fn has_owner(owners: &List<Owner>, p: u32) -> bool
    ensures { result ≡ has_owner owners.now p }
{
    match owners.get(p as usize) {
        None => false,
        Some(Owner::Nobody) => false,
        Some(_) => true,
    }
}

/// The number of an instruction: 0 where there is none.
pub(crate) fn number_at(numbers: &List<u32>, p: u32) -> u32
    ensures { result ≡ number_at numbers.now p }
{
    match numbers.get(p as usize) {
        None => 0,
        Some(number) => *number,
    }
}

fn put(numbers: &mut List<u32>, p: u32, number: u32) {
    if (p as usize) < numbers.len() {
        let _old = numbers.replace(p as usize, number);
    }
}

// An instruction on the path, the number with which it was entered, and how many of its ways were followed.
#[derive(Clone, Copy)]
struct Step {
    at: u32,
    entry: u32,
    turn: u8,
}

// A search in depth that keeps one number for each instruction (D. J. Pearce, A space-efficient algorithm for finding
// strongly connected components, 2016). It is 0 until the search enters the instruction, then the greatest with which
// an instruction was entered that it leads back to, and in the end that of its component. Instructions are entered with
// numbers that fall, and components have numbers that rise from 1 on, so each of these is below each of those.
#[derive(Drop)]
struct Search {
    numbers: List<u32>,
    path: Writer<Step>,
    open: Writer<u32>,
    next_entry: u32,
    last_component: u32,
}

impl Search {
    fn enter(&mut self, p: u32) {
        if self.numbers.len() <= p as usize {
            return;
        }
        let entry = self.next_entry;
        put(&mut self.numbers, p, entry);
        self.path.put(Step {
            at: p,
            entry,
            turn: 0,
        });
        self.next_entry = entry.saturating_sub(1);
    }

    // An instruction leads to one of this number.
    fn lead(&mut self, p: u32, number: u32) {
        if number_at(&self.numbers, p) < number {
            put(&mut self.numbers, p, number);
        }
    }

    // Goes back from an instruction. Where it leads to none that was entered before it, its component is closed.
    fn leave(&mut self, p: u32, entry: u32) {
        self.open.put(p);
        if number_at(&self.numbers, p) == entry {
            self.last_component = self.last_component.saturating_add(1);
            for _member in 0..MAX_CODE {
                match self.open.items.pop() {
                    None => break,
                    Some(q) => {
                        if entry < number_at(&self.numbers, q) {
                            self.open.put(q);
                            break;
                        }
                        put(&mut self.numbers, q, self.last_component);
                    }
                }
            }
        }
        let number = number_at(&self.numbers, p);
        if let Some(around) = self.path.items.last().copied() {
            self.lead(around.at, number);
        }
    }

    // Takes the step that was put last: follows the next way, or goes back.
    fn step(&mut self, code: &Code, last: Step) {
        let Step { at, entry, turn } = last;
        if turn >= 2 {
            self.leave(at, entry);
            return;
        }
        self.path.put(Step {
            at,
            entry,
            turn: turn + 1,
        });
        let ways = free_ways(code, at);
        let way = if turn == 0 { ways.first } else { ways.second };
        if let Some(q) = way {
            let number = number_at(&self.numbers, q);
            if number == 0 {
                self.enter(q);
            } else {
                self.lead(at, number);
            }
        }
    }

    // All that an instruction leads to: each of at most 1,048,576 instructions takes three steps.
    fn explore(&mut self, code: &Code, start: u32) {
        self.enter(start);
        for _step in 0..4_194_304 {
            match self.path.items.pop() {
                None => return,
                Some(last) => self.step(code, last),
            }
        }
    }
}

/// A number for each instruction: of those that lead to each other the same, and a lower one where a way leads on to
/// others. The only other answer is want of memory.
pub(crate) fn components(code: &Code, owners: &List<Owner>) -> Result<List<u32>, Memory> {
    let instrs = &code.parts().instrs;
    let alloc = instrs.alloc();
    let count = instrs.len();
    let mut search = Search {
        numbers: List::of(have!(vec![in alloc; 0; count])),
        path: Writer::new(alloc),
        open: Writer::new(alloc),
        next_entry: u32::MAX,
        last_component: 0,
    };
    for start in 0..count {
        let p = start as u32;
        if has_owner(owners, p) && number_at(&search.numbers, p) == 0 {
            search.explore(code, p);
        }
    }
    if search.open.is_lost || search.path.is_lost {
        return Err(Memory);
    }
    let Search { numbers, .. } = search;
    Ok(numbers)
}
