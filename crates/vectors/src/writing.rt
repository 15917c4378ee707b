// A case of the writer: what it answers, and the whole output afterwards. Its body:
//
//   0  tasks (8 bytes)           19  fill of the output             28  fill of from
//   8  edges (8 bytes)           20  length of the output (2)       29  fill of to
//  16  processors                22  number of durations given (2)  30  fill of the counts (2)
//  17  topology                  24  fill of the durations (4)      32  the durations given (4 each), then
//  18  unit cost                                                        edges: from, to, count (4 each)
//
// Places of the arrays past those that are given hold the fill. A case with wires has all 256 places of theirs before that, one with
// results all 256 of these (2 each) and then those of the wires; in a case without they are 0.
use crate::body::Body;
use crate::show;
use job::{Arrays, HeldJob, Platform};
use std::io::{self, Write};

// What comes before the job in the body of a case.
#[derive(Clone, Copy)]
pub enum Before {
    Nothing,
    Wires,
    ResultsAndWires,
}

// A job held as numbers, and the length and the fill of the output.
#[derive(Drop)]
struct Held {
    platform: Platform,
    tasks: usize,
    edges: usize,
    arrays: Arrays,
    room: usize,
    fill: u8,
}

fn results(body: &mut Body) -> Option<[u16; 256]> {
    let mut results = [0u16; 256];
    for count in results.iter_mut() {
        *count = body.two()?;
    }
    Some(results)
}

// An edge: its ends and its message count.
fn edge(body: &mut Body) -> Option<(u8, u8, u16)> {
    Some((body.byte()?, body.byte()?, body.two()?))
}

fn read(before: Before, body: &[u8]) -> Option<Held> {
    let mut body = Body::new(body);
    let results = match before {
        Before::ResultsAndWires => results(&mut body)?,
        _ => [0; 256],
    };
    let wires = match before {
        Before::Nothing => [0; 256],
        _ => body.array()?,
    };
    let tasks = body.eight()?;
    let edges = body.eight()?;
    let platform = Platform {
        processors: body.byte()?,
        topology: body.byte()?,
        unit: body.byte()?,
    };
    let fill = body.byte()?;
    let room = body.length()?;
    let given = body.length()?;
    let mut durations = [body.four()?; 256];
    let mut from = [body.byte()?; 1024];
    let mut to = [body.byte()?; 1024];
    let mut counts = [body.two()?; 1024];
    for duration in durations.get_mut(..given)?.iter_mut() {
        *duration = body.four()?;
    }
    for i in 0..1024 {
        let Some((sender, receiver, count)) = edge(&mut body) else {
            break;
        };
        from[i] = sender;
        to[i] = receiver;
        counts[i] = count;
    }
    Some(Held {
        platform,
        tasks,
        edges,
        arrays: Arrays {
            durations,
            from,
            to,
            counts,
            wires,
            results,
        },
        room,
        fill,
    })
}

pub fn case<W: Write>(sink: &mut W, before: Before, body: &[u8]) -> io::Result<()> {
    let Some(case) = read(before, body) else {
        return Ok(());
    };
    let mut buffer = [case.fill; 8400];
    let Some(out) = buffer.get_mut(..case.room) else {
        return Ok(());
    };
    let job = HeldJob {
        platform: case.platform,
        tasks: case.tasks,
        edges: case.edges,
        arrays: &case.arrays,
    };
    match job::write(&job, out) {
        Ok(length) => write!(sink, "written {length} [")?,
        Err(refusal) => write!(sink, "refused {} [", refusal.number())?,
    }
    show::hex(sink, out)?;
    writeln!(sink, "]")
}
