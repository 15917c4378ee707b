// Puts each case of standard input through a public entry of the job reader, the planner, the page or the listing, and prints what
// comes of it. tests/make_vectors.py makes the cases and, by the reference, the lines that they must give.
//
// A case is a byte that says what it is for, the length of its body in 2 bytes, and the body. Numbers are little-endian.
//
//   r  the job reader                           d  the page
//   w  the job writer                           s  the station's planner
//   v  the job writer, with wires               b  the station's checker
//   u  the job writer, with results and wires   g  the station's page
//   p  planner, small entry and cover call      t  the listing
//   h  planner and cover call by weight
//   c  the checker
//
// The body of 'r' is a file; the others' are in the files that run them.
#![tactic(auto)]

mod body;
mod checking;
mod drawing;
mod planning;
mod reading;
mod show;
mod station;
mod text;
mod writing;

use std::io::{self, BufReader, BufWriter, ErrorKind, Read, Write};
use writing::Before;

fn run<W: Write>(sink: &mut W, what: u8, body: &[u8]) -> io::Result<()> {
    match what {
        b'r' => reading::case(sink, body),
        b'w' => writing::case(sink, Before::Nothing, body),
        b'v' => writing::case(sink, Before::Wires, body),
        b'u' => writing::case(sink, Before::ResultsAndWires, body),
        b'p' => planning::case(sink, body),
        b'h' => planning::weight_case(sink, body),
        b'c' => checking::case(sink, body),
        b'd' => drawing::case(sink, body),
        b's' => station::plan_case(sink, body),
        b'b' => station::check_case(sink, body),
        b'g' => station::page_case(sink, body),
        b't' => text::case(sink, body),
        _ => Ok(()),
    }
}

// Fills the buffer, and answers whether the input had as many bytes.
fn fill<R: Read>(source: &mut R, buffer: &mut [u8]) -> io::Result<bool> {
    match source.read_exact(buffer) {
        Ok(()) => Ok(true),
        Err(error) if error.kind() == ErrorKind::UnexpectedEof => Ok(false),
        Err(error) => Err(error),
    }
}

// Runs the next case, and answers whether there was one.
fn next<R: Read, W: Write>(source: &mut R, sink: &mut W) -> io::Result<bool> {
    let mut head = [0u8; 3];
    if !fill(source, &mut head)? {
        return Ok(false);
    }
    let [what, low, high] = head;
    let mut buffer = [0u8; 16384];
    let Some(body) = buffer.get_mut(..usize::from(u16::from_le_bytes([low, high]))) else {
        return Ok(false);
    };
    let is_whole = fill(source, body)?;
    if is_whole {
        run(sink, what, body)?;
    }
    Ok(is_whole)
}

// Runs the cases up to the end of the input. A loop has to end, and nothing says that the input does: the count of turns is one that no
// run uses up.
fn main(rt: HostRuntime) -> io::Result<()> {
    let mut source = BufReader::new(rt.alloc(), rt.stdin())?;
    let mut sink = BufWriter::new(rt.alloc(), rt.stdout())?;
    for _ in 0..u64::MAX {
        if !next(&mut source, &mut sink)? {
            break;
        }
    }
    sink.flush()
}
