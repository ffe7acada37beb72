//! The code that code files hold: its listing, and each reader of code once.

use crate::byte_lists::is_text;
use sp_base::List;
use sp_code::{Code, ForkTable, Instr, Parts, listing};
use sp_codefile::decode;
use std::alloc::Global;

// Whether this is the listing of the code that a file holds.
fn lists(alloc: Global, file: &str, wanted: &str) -> bool {
    match decode(alloc, file.as_bytes()) {
        Ok(code) => {
            let text = listing(alloc, &code);
            drop(code);
            is_text(text, wanted.as_bytes())
        }
        Err(_) => false,
    }
}

// Files and listings: a program, operands in their order, and fork tables behind the instructions.
const LISTINGS: [(&str, &str); 3] = [
    (
        "superpascal code 1\nlayout 0 0 - none sizes 1 variables 2 formals\n0 addr 0 2\n1 const 6\n2 store\n3 addr 0 2\n4 load\n5 const 7\n6 mul\n7 write int\n8 end\n",
        "0 addr 0 2\n1 const 6\n2 store\n3 addr 0 2\n4 load\n5 const 7\n6 mul\n7 write int\n8 end\n",
    ),
    (
        "superpascal code 1\n0 index -3 4 5\n1 range -9223372036854775808 255\n2 casej -1 7\n3 forup 2 8\n4 call 1 3\n5 writew text 6\n6 receive 9\n",
        "0 index -3 4 5\n1 range -9223372036854775808 255\n2 casej -1 7\n3 forup 2 8\n4 call 1 3\n5 writew text 6\n6 receive 9\n",
    ),
    (
        "superpascal code 1\n0 fork 0\n1 forall 1\ntable 0 child 0 entry 2 moves 3 shares 4 5\ntable 0 child 1 entry 7 moves 6 shares 4 5\ntable 1 child 0 entry 11 moves shares 2 index 8\n",
        "0 fork 0\n1 forall 1\ntable 0 child 0 entry 2 moves 3 shares 4 5\ntable 0 child 1 entry 7 moves 6 shares 4 5\ntable 1 child 0 entry 11 moves shares 2\n",
    ),
];

#[test]
fn listings(rt: HostRuntime) {
    for (file, wanted) in LISTINGS {
        assert!(rt; lists(rt.alloc(), file, wanted), "{wanted}");
    }
}

// A code with a text, a fork of two children and a forall.
const WHOLE: &str =
    "superpascal code 1\ntext 6162\n0 addr 0 2\n1 const 6\n2 store\n3 addr 0 2\n4 load\n5 const 7\n6 mul\n7 write int\n8 end\ntable 0 child 0 entry 2 moves 3 shares 4 5\ntable 0 child 1 entry 7 moves 6 shares 4 5\ntable 1 child 0 entry 11 moves shares 2 index 8\n";

fn index_in(code: &Code, table: u32) -> Option<u32> {
    match code.table(table) {
        Some(table) => table.index(),
        None => None,
    }
}

fn entry_in(code: &Code, table: u32, number: u64) -> Option<u32> {
    match code.table(table) {
        Some(table) => match table.child(number) {
            Some(child) => Some(child.entry),
            None => None,
        },
        None => None,
    }
}

fn reads_instructions(code: &Code) -> bool {
    matches!(code.instr(6), Some(Instr::Mul))
        && code.instr(9).is_none()
        && code.parts().instrs.len() == 9
}

fn reads_texts(code: &Code) -> bool {
    matches!(code.text(0), Some(text) if text.bytes() == b"ab".as_slice()) && code.text(1).is_none()
}

fn reads_tables(code: &Code) -> bool {
    index_in(code, 0).is_none()
        && index_in(code, 1) == Some(8)
        && entry_in(code, 0, 1) == Some(7)
        && entry_in(code, 0, 2).is_none()
        && entry_in(code, 1, 5) == Some(11)
}

// Whether the instructions, the texts, and the indices and the entries of the fork tables are read.
fn reads(alloc: Global, file: &str) -> [bool; 3] {
    match decode(alloc, file.as_bytes()) {
        Ok(code) => {
            let read = [
                reads_instructions(&code),
                reads_texts(&code),
                reads_tables(&code),
            ];
            drop(code);
            read
        }
        Err(_) => [false; 3],
    }
}

#[test]
fn code_is_read(rt: HostRuntime) {
    assert_eq!(rt; reads(rt.alloc(), WHOLE), [true; 3]);
}

// A fork with no children.
fn childless(alloc: Global) -> Parts {
    let mut forks = List::new(alloc);
    let _ = forks.push(ForkTable {
        children: List::new(alloc),
    });
    Parts {
        instrs: List::new(alloc),
        layouts: List::new(alloc),
        forks,
        texts: List::new(alloc),
    }
}

#[test]
fn a_fork_without_children_is_no_code(rt: HostRuntime) {
    let parts = childless(rt.alloc());
    let forks = parts.forks.len();
    let keeps = parts.keeps_sizes();
    drop(parts);
    assert!(rt; forks == 1 && !keeps);
}

#[test]
fn an_instruction_has_a_word_and_a_text(rt: HostRuntime) {
    let instr = Instr::Nextdown { var: 3, to: 12 };
    assert_eq!(rt; instr.word(), "nextdown");
    let mut out = Vec::new(rt.alloc());
    assert!(rt; instr.put(&mut out).is_ok());
    assert!(rt; out.as_slice() == b"nextdown 3 12".as_slice());
}
