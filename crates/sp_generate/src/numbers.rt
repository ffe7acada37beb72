//! Numbers of places and levels. One that is no `u32` is answered as want of memory.

ghost use Rattle.std.specs.Prelude.{◌≡◌, ◌+◌, IfOk};

use sp_base::Memory;

pub fn narrow(n: usize) -> Result<u32, Memory>
    ensures { IfOk result (λ m. m ≡ n) }
{
    if n < 4_294_967_296 {
        Ok(n as u32)
    } else {
        Err(Memory)
    }
}

pub fn sum(a: u32, b: u32) -> Result<u32, Memory>
    ensures { IfOk result (λ m. m ≡ a + b) }
{
    match a.checked_add(b) {
        Some(n) => Ok(n),
        None => Err(Memory),
    }
}
