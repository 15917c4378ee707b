// Reads a job file from standard input and prints its plan (document 01, "Ticks worked out").
//
// The first 16,384 bytes settle what is printed (`enough` in specs/Input.antt): no more are read.
#![tactic(auto)]

ghost use Rattle.std.specs.Prelude.{◌≡◌};
ghost use Rattle.listing.specs.Listing.{listed, listing_call};

use job::Verdict;

// Puts what is printed for a job file at the front of `out`, a refusal's line or the listing of its plan, and answers its length.
fn answer(file: &[u8], out: &mut [u8; 12288]) -> usize
    ensures { listed result out.new ≡ listing_call file.now out.old }
{
    let r = job::read(file);
    let Verdict::Counts { .. } = r.verdict else {
        return listing::refusal(job::number(r.verdict), out);
    };
    listing::write(file, out)
}

fn main(rt: HostRuntime) {
    let mut input = [0u8; 16384];
    let came = input::read_all(&mut rt.stdin(), &mut input);
    let n = match came {
        Ok(n) => n,
        Err(error) => {
            let _ = eprintln!(rt; "plan: read: {error}");
            return;
        }
    };
    let mut output = [0u8; 12288];
    let length = answer(&input[..n], &mut output);
    let done = rt.write_all(&output[..length]);
    if let Err(error) = done {
        let _ = eprintln!(rt; "plan: write: {error}");
    }
}
