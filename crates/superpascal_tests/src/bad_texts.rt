//! Texts that are cut or have a byte that no text has, and outputs that fail at each byte.

use crate::calls::{
    ANSWER, Failing, NONE, ORDERED, RUN, call, call_failing, copy, expect_given, source_of,
};
use sp_outside::OpenGate;
use std::alloc::Global;
use std::process::Abort;
use std::sync::Wait;
use std::thread::Threads;

// A pipeline of three processes.
const PIPE: &str =
    "program pipe;\ntype chan = *(integer); net = array [0..3] of chan;\nvar c: net; r: integer;\nprocedure node(a, b: chan);\nvar x: integer;\nbegin receive(a, x); send(b, x + 1) end;\nbegin\n  open(c[0], c[1], c[2], c[3]);\n  parallel send(c[0], 10)\n  | forall i := 1 to 3 do node(c[i-1], c[i])\n  | receive(c[3], r)\n  end;\n  write(r)\nend.";

// The line and the column behind this text.
fn place_behind(text: &str) -> (u32, u32) {
    let mut line = 1u32;
    let mut column = 1u32;
    for character in text.chars() {
        if character == '\n' {
            line = line.saturating_add(1);
            column = 1;
        } else {
            column = column.saturating_add(1);
        }
    }
    (line, column)
}

// The notes of a refusal at the place behind this text.
fn refusal_behind(alloc: Global, rule: &str, text: &str) -> String {
    let (line, column) = place_behind(text);
    match format!(in alloc; "refused {rule} {line}:{column}\n") {
        Ok(notes) => notes,
        Err(_) => String::new(alloc),
    }
}

// The pipeline with a mark behind each token but the last.
const MARKED: &str =
    "program~ pipe~;~\ntype~ chan~ =~ *~(~integer~)~;~ net~ =~ array~ [~0~..~3~]~ of~ chan~;~\nvar~ c~:~ net~;~ r~:~ integer~;~\nprocedure~ node~(~a~,~ b~:~ chan~)~;~\nvar~ x~:~ integer~;~\nbegin~ receive~(~a~,~ x~)~;~ send~(~b~,~ x~ +~ 1~)~ end~;~\nbegin~\n  open~(~c~[~0~]~,~ c~[~1~]~,~ c~[~2~]~,~ c~[~3~]~)~;~\n  parallel~ send~(~c~[~0~]~,~ 10~)~\n  |~ forall~ i~ :=~ 1~ to~ 3~ do~ node~(~c~[~i~-~1~]~,~ c~[~i~]~)~\n  |~ receive~(~c~[~3~]~,~ r~)~\n  end~;~\n  write~(~r~)~\nend~.";

// Asserts that this first part of a text is refused at its end.
fn expect_cut<R: Threads + Wait + Sync + Abort>(rt: &R, alloc: Global, text: &str) {
    let notes = refusal_behind(alloc, "G2", text);
    let given = call_failing(rt, alloc, &RUN, text, NONE);
    expect_given(rt, given, 1, false, "", &notes, text);
}

#[test]
fn texts_that_are_cut(rt: HostRuntime) {
    let mut text = String::new(rt.alloc());
    let mut cuts = 0u32;
    for character in MARKED.chars() {
        if character == '~' {
            expect_cut(&rt, rt.alloc(), &text);
            cuts = cuts.saturating_add(1);
        } else {
            let _ = text.push(character);
        }
    }
    assert_eq!(rt; text.as_str(), PIPE);
    assert_eq!(rt; cuts, 137);
}

// The text with the byte 0 in place of the character of this number.
fn with_a_zero(alloc: Global, text: &str, at: u32) -> String {
    let mut zeroed = String::new(alloc);
    let mut count = 0u32;
    for character in text.chars() {
        let _ = zeroed.push(if count == at { '\0' } else { character });
        count = count.saturating_add(1);
    }
    zeroed
}

// Asserts that this text is refused, by any rule.
fn expect_refusal<R: Threads + Wait + Sync + Abort>(rt: &R, alloc: Global, text: &str) {
    let given = call_failing(rt, alloc, &RUN, text, NONE);
    assert!(rt; given.status == 1, "{text}");
    assert!(rt; given.output.is_empty(), "{text}");
    drop(given);
}

// Which rule comes first depends on where the byte stands: of a name it may leave a reserved word.
#[test]
fn texts_with_a_zero(rt: HostRuntime) {
    for at in 0..327u32 {
        let text = with_a_zero(rt.alloc(), PIPE, at);
        expect_refusal(&rt, rt.alloc(), &text);
    }
    assert_eq!(rt; PIPE.len(), 327);
}

#[test]
fn an_input_that_comes_byte_by_byte(rt: HostRuntime) {
    let text = "program n(input, output); var x, y: integer; begin read(x, y); write(x + y) end.";
    let mut input = source_of(rt.alloc(), copy(rt.alloc(), b"12 34"), 1, &[]);
    let given = call(&rt, rt.alloc(), &RUN, text, &mut input, NONE, &OpenGate);
    drop(input);
    expect_given(&rt, given, 0, true, "46", ORDERED, "");
}

// Asserts that a call whose output fails at this byte leaves the bytes before it, and no notes.
fn expect_output_fault<R: Threads + Wait + Sync + Abort>(
    rt: &R,
    alloc: Global,
    words: &[&str],
    text: &str,
    ran: bool,
    at: u32,
    written: &str,
) {
    let failing = Failing {
        output: &[at],
        ..NONE
    };
    let given = call_failing(rt, alloc, words, text, failing);
    expect_given(rt, given, 6, ran, written, "", "");
}

// Asserts this of each byte of the output.
fn expect_output_faults<R: Threads + Wait + Sync + Abort>(
    rt: &R,
    alloc: Global,
    words: &[&str],
    text: &str,
    ran: bool,
    output: &str,
) {
    let mut written = String::new(alloc);
    let mut at = 0u32;
    for character in output.chars() {
        expect_output_fault(rt, alloc, words, text, ran, at, &written);
        let _ = written.push(character);
        at = at.saturating_add(1);
    }
}

#[test]
fn outputs_that_fail(rt: HostRuntime) {
    let alloc = rt.alloc();
    for workers in ["1", "2"] {
        let words = ["run", "--workers", workers, "a.sp"];
        expect_output_faults(&rt, alloc, &words, PIPE, true, "13");
    }
    let told = "size 3\noutput 115\nentries 93\ndone\nordered\n";
    expect_output_faults(&rt, alloc, &["gen", "3"], "", true, told);
    let layout = "program a;\nvar x: integer;\nbegin\n  x := 6;\n  write(x * 7)\nend.\n";
    expect_output_faults(&rt, alloc, &["format", "a.sp"], ANSWER, false, layout);
}
