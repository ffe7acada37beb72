//! The text of the generated program, byte for byte that of `specs/GeneratedText.antt`.

ghost use Rattle.std.specs.Prelude.{◌≡◌, ◌≤◌, ◌++◌, IfOk, OnOk};
ghost use Rattle.std.specs.List.{flat_map};
ghost use Rattle.sp_gen.specs.GeneratedText.{generated_text, lent_line_text, line_text, size_line};

use sp_base::{Memory, put_decimal};
use std::alloc::Global;

/// The lines below that of the size.
static LINES_BELOW: [&str; 14] = [
    "type chan = *(integer); net = array [0..n] of chan;",
    "var c: net; i, j, r, s: integer;",
    "procedure node(k: integer; a, b: chan);",
    "var m, x: integer;",
    "begin for m := 1 to 10 do begin receive(a, x); send(b, x + k) end end;",
    "begin",
    "  for i := 0 to n do open(c[i]);",
    "  s := 0;",
    "  parallel for i := 1 to 10 do send(c[0], i)",
    "  | forall k := 1 to n do node(k, c[k-1], c[k])",
    "  | for j := 1 to 10 do begin receive(c[n], r); s := s + r end",
    "  end;",
    "  write(s)",
    "end.",
];

/// The text of the program with `size` nodes, from 1 to 2,000, each line with its line feed: the numbers from 1 to 10
/// go through a row of parallel nodes, each of which adds its own number, and the sum of what comes out is written.
pub fn generated(alloc: Global, size: u32) -> Result<Vec<u8>, Memory>
    requires least { 1 ≤ size }
    requires most { size ≤ 2000 }
    ensures { IfOk result (λ text. text.items ≡ generated_text size) }
{
    let mut out = Vec::new(alloc);
    put_line(&mut out, "program gen;")?;
    put_size(&mut out, size)?;
    put_lines(&mut out, LINES_BELOW.as_slice())?;
    Ok(out)
}

fn put_size(out: &mut Vec<u8>, size: u32) -> Result<(), Memory>
    ensures { OnOk result (out.new.items ≡ out.old.items ++ line_text (size_line size)) }
{
    out.extend_from_slice(b"const n = ")?;
    put_decimal(out, u64::from(size))?;
    out.extend_from_slice(b";\n")?;
    Ok(())
}

fn put_line(out: &mut Vec<u8>, line: &str) -> Result<(), Memory>
    ensures { OnOk result (out.new.items ≡ out.old.items ++ line_text line.now) }
{
    out.extend_from_slice(line.as_bytes())?;
    out.extend_from_slice(b"\n")?;
    Ok(())
}

fn put_lines(out: &mut Vec<u8>, lines: &[&str]) -> Result<(), Memory>
    ensures { OnOk result (out.new.items
        ≡ out.old.items ++ flat_map lent_line_text lines.now) }
{
    for line in lines {
        put_line(out, line)?;
    }
    Ok(())
}
