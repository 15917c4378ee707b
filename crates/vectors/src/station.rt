// The cases of the station controller's calls but for its small planner, which the C host and the differentials call.
//
// The planner's case: what it returns and leaves in the plan, and what the checker returns for that. Its body:
//
//   0  length of the plan (2)    2  fill of the plan    3  the file
//
// The checker's case: what it returns for a plan that is handed in. Its body:
//
//   0  length of the plan (2)    2  the plan, then the file
//
// The page's case: what it returns for a plan that is handed in, and a digest of the whole buffer. Its body:
//
//   0  length of the buffer (2)    2  fill of the buffer    3  the plan and the file, as in a case of the checker
use crate::body::Body;
use crate::show;
use std::io::{self, Write};

fn check<W: Write>(sink: &mut W, job: &[u8], plan: &[u8]) -> io::Result<()> {
    let returned = kelvrist::kelvrist_check(job, plan);
    writeln!(sink, " check {returned}")
}

pub fn plan_case<W: Write>(sink: &mut W, body: &[u8]) -> io::Result<()> {
    let mut body = Body::new(body);
    let (Some(room), Some(fill)) = (body.length(), body.byte()) else {
        return Ok(());
    };
    let mut buffer = [fill; 1500];
    let Some(plan) = buffer.get_mut(..room) else {
        return Ok(());
    };
    let job = body.rest();
    let returned = kelvrist::kelvrist_plan(job, plan);
    write!(sink, "station {returned} [")?;
    show::hex(sink, plan)?;
    write!(sink, "]")?;
    check(sink, job, plan)
}

// A plan, after its length, and the file of its job.
fn handed<'a>(mut body: Body<'a>) -> Option<(&'a [u8], &'a [u8])> {
    let length = body.length()?;
    Some((body.bytes(length)?, body.rest()))
}

pub fn check_case<W: Write>(sink: &mut W, body: &[u8]) -> io::Result<()> {
    let Some((plan, job)) = handed(Body::new(body)) else {
        return Ok(());
    };
    let length = plan.len();
    write!(sink, "station plan of {length}")?;
    check(sink, job, plan)
}

pub fn page_case<W: Write>(sink: &mut W, body: &[u8]) -> io::Result<()> {
    let mut body = Body::new(body);
    let (Some(room), Some(fill)) = (body.length(), body.byte()) else {
        return Ok(());
    };
    let Some((plan, job)) = handed(body) else {
        return Ok(());
    };
    let mut buffer = [fill; 1200];
    let Some(page) = buffer.get_mut(..room) else {
        return Ok(());
    };
    let returned = kelvrist::kelvrist_page(job, plan, page);
    let digest = show::digest(0, page);
    writeln!(sink, "station page {returned} leaves {digest}")
}
