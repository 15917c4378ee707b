// Reads an input into a buffer, as much of it as there is or as the buffer takes.
#![tactic(auto)]

ghost use Rattle.std.specs.Prelude.{◌≤◌, length};
ghost use Rattle.input.specs.Came.{count, Takes, EndsWhenShort};

use std::io::{Read, Result};

// Reads until `input` is full or the input ends, and answers how many bytes came; or that a read failed, and why.
pub fn read_all<R: Read>(reader: &mut R, input: &mut [u8]) -> Result<usize>
    ensures fits { count result ≤ length input.old }
    ensures bytes { Takes result (R.remaining reader.old) (R.remaining reader.new) input.new }
    ensures end { EndsWhenShort result (R.remaining reader.new) input.new }
{
    let mut at: usize = 0;
    while at < input.len() {
        let n = reader.read(&mut input[at..])?;
        if n == 0 {
            return Ok(at);
        }
        at += n;
    }
    Ok(at)
}
