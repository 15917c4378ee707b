// A case of the reader: what it finds, that every spare place is 0, and that the writer gives the same bytes again.
use crate::show;
use job::{Arrays, HeldJob, Platform, Reading, Topology, Verdict};
use std::io::{self, Write};

// How many processors have wires.
fn wired(p: Platform) -> usize {
    if p.topology == Topology::Wired as u8 {
        usize::from(p.processors)
    } else {
        0
    }
}

// Whether a place of the wires is one of a pair: two different processors below `n`.
fn is_pair(place: usize, n: usize) -> bool {
    let (from, to) = (place / 16, place % 16);
    from != to && from < n && to < n
}

// The costs among the first `n` processors.
fn show_wires<W: Write>(sink: &mut W, wires: &[u8; 256], n: usize) -> io::Result<()> {
    write!(sink, " wires")?;
    for (place, cost) in wires.iter().enumerate() {
        if is_pair(place, n) {
            write!(sink, " {cost}")?;
        }
    }
    Ok(())
}

// The first edges.
fn show_edges<W: Write>(sink: &mut W, arrays: &Arrays, edges: usize) -> io::Result<()> {
    write!(sink, " edges")?;
    let ends = arrays.from.iter().zip(arrays.to.iter());
    for ((from, to), count) in ends.zip(arrays.counts.iter()).take(edges) {
        write!(sink, " {from} {to} {count}")?;
    }
    Ok(())
}

// The results of the first tasks, nothing where a task has none.
fn show_results<W: Write>(sink: &mut W, results: &[u16], tasks: usize) -> io::Result<()> {
    for (task, count) in results.iter().enumerate().take(tasks) {
        if *count != 0 {
            write!(sink, " result {task} {count}")?;
        }
    }
    Ok(())
}

// Whether the places of the wires that are of no pair below `n` are 0.
fn are_wires_clear(wires: &[u8; 256], n: usize) -> bool {
    wires
        .iter()
        .enumerate()
        .all(|(place, cost)| *cost == 0 || is_pair(place, n))
}

// Whether the places from `n` on are 0.
fn is_clear<T: Copy>(numbers: &[T], n: usize) -> bool
where
    u32: From<T>,
{
    numbers.iter().skip(n).all(|number| u32::from(*number) == 0)
}

// Whether all places are 0 but those of the wires, tasks and edges.
fn is_spare_clear(arrays: &Arrays, wired: usize, tasks: usize, edges: usize) -> bool {
    are_wires_clear(&arrays.wires, wired)
        && is_clear(&arrays.durations, tasks)
        && is_clear(&arrays.from, edges)
        && is_clear(&arrays.to, edges)
        && is_clear(&arrays.counts, edges)
        && is_clear(&arrays.results, tasks)
}

// The platform, wires, tasks, edges and results, and whether all other places are 0.
fn show_job<W: Write>(sink: &mut W, r: &Reading, tasks: usize, edges: usize) -> io::Result<()> {
    let p = r.platform;
    write!(sink, " platform {} {} {}", p.processors, p.topology, p.unit)?;
    if p.topology == Topology::Wired as u8 {
        show_wires(sink, &r.arrays.wires, wired(p))?;
    }
    write!(sink, " tasks")?;
    for duration in r.arrays.durations.iter().take(tasks) {
        write!(sink, " {duration}")?;
    }
    show_edges(sink, &r.arrays, edges)?;
    show_results(sink, &r.arrays.results, tasks)?;
    if is_spare_clear(&r.arrays, wired(p), tasks, edges) {
        write!(sink, " spare 0")
    } else {
        write!(sink, " spare set")
    }
}

// Whether writing the job gives the bytes of its file.
fn is_same(file: &[u8], r: &Reading, tasks: usize, edges: usize) -> bool {
    let mut out = [238u8; 8400];
    let job = HeldJob {
        platform: r.platform,
        tasks,
        edges,
        arrays: &r.arrays,
    };
    match job::write(&job, &mut out) {
        Ok(length) => out.get(..length) == Some(file),
        Err(_) => false,
    }
}

// Runs the case of a file.
pub fn case<W: Write>(sink: &mut W, file: &[u8]) -> io::Result<()> {
    let r = job::read(file);
    match r.verdict {
        Verdict::Counts { tasks, edges } => {
            write!(sink, "job {tasks} {edges}")?;
            show_job(sink, &r, tasks, edges)?;
            if is_same(file, &r, tasks, edges) {
                writeln!(sink, " same")
            } else {
                writeln!(sink, " differs")
            }
        }
        Verdict::Refused(number) => {
            write!(sink, "refused {number}")?;
            show_job(sink, &r, 0, 0)?;
            writeln!(sink)
        }
    }
}
