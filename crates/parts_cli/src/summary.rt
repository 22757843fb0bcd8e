// What each part holds, and how near the heaviest one is to the bound that is proved: n times its weight is at most T, the weight of
// all, and n times c, the heaviest weight on one index.
use divisions::division::Division;
use divisions::sums::{Sum, Sums};
use messages::Outcome;
use printing::Output;
use std::fmt;
use std::fmt::Write;
use std::rt::HostRuntime;

// Prints what the parts hold, behind the names of the columns, and what they are held against.
pub(crate) fn print(rt: HostRuntime, count: u32, division: Division<'_>) -> Outcome {
    let sums = Sums::of(count, division);
    let mut out = Output::of(rt);
    out.write_str("part,points,weight,first,last\n")?;
    for (part, sum) in sums.parts().iter().enumerate() {
        let held = Held(*sum);
        writeln!(out, "{part},{held}")?;
    }
    let all = sums.weight();
    let most = division.heaviest_on_one();
    write!(out, "T {all}\nc {most}\n")?;
    let count = u64::from(count);
    let (part, weight) = sums.heaviest();
    let reached = count.saturating_mul(weight);
    let bound = all.saturating_add(count.saturating_mul(most));
    writeln!(out, "part {part}: n*w / (T + n*c) = {reached} / {bound}")?;
    out.finish()
}

// What a part holds; nothing stands for the first and the last index where it has no point.
#[derive(Clone, Copy)]
struct Held(Sum);

impl fmt::Display for Held {
    fn fmt<W: Write>(&self, f: &mut fmt::Formatter<W>) -> fmt::Result {
        let Sum {
            points,
            weight,
            ends,
        } = self.0;
        match ends {
            Some((first, last)) => write!(f, "{points},{weight},{first},{last}"),
            None => write!(f, "{points},{weight},,"),
        }
    }
}
