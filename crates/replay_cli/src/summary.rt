// A night in numbers: its events, the weight of all cells and of the heaviest line, and both sides of the two bounds of demand 3, the one for
// the heaviest part and the other for the lightest, which answer for all.
use crate::answers::counted;
use crate::digits::Digits;
use grid_files::halved::Halved;
use grid_files::shape::Spot;
use grid_files::sums::Sums;
use messages::Outcome;
use printing::Output;
use rules::Refusal;
use std::fmt;
use std::fmt::Write;
use std::rt::HostRuntime;

// The weight of the heaviest line across an axis, by the coordinate of a cell on it.
fn heaviest_line<F: Fn(Spot) -> usize>(halved: Halved<'_>, coordinate: F) -> u64
    requires { F.IsAlwaysCallable coordinate }
{
    let mut lines = Sums::none();
    for (cell, weight) in halved.weights.iter().enumerate() {
        lines.add(coordinate(halved.shape.spot(cell)), *weight);
    }
    lines.heaviest().1
}

// The weight of the heaviest line across any axis.
fn heaviest_of_lines(halved: Halved<'_>) -> u64 {
    let across_x = heaviest_line(halved, |spot| spot.x);
    let across_y = heaviest_line(halved, |spot| spot.y);
    let heaviest = across_x.max(across_y);
    if halved.shape.is_flat() {
        return heaviest;
    }
    heaviest.max(heaviest_line(halved, |spot| spot.z))
}

// The two sides of a bound, with how they stand to each other between them.
#[derive(Clone, Copy)]
struct Bound {
    left: Digits,
    right: Digits,
}

impl fmt::Display for Bound {
    fn fmt<W: fmt::Write>(&self, f: &mut fmt::Formatter<W>) -> fmt::Result {
        let left = self.left;
        let right = self.right;
        let order = if left <= right { "<=" } else { ">" };
        write!(f, "{left} {order} {right}")
    }
}

// What the parts are held against: the levels k, the weight T of all cells and the weight M of the heaviest line.
#[derive(Clone, Copy)]
struct Held {
    k: u32,
    t: u64,
    m: u64,
}

impl Held {
    // 200^(k+1) * M.
    fn slack(self) -> Digits {
        Digits::product(self.m, 200, 200, self.k)
    }

    // The upper bound of a part of weight w: 99*200^k*w <= 99*101^k*T + 200^(k+1)*M.
    fn upper(self, w: u64) -> Bound {
        Bound {
            left: Digits::product(w, 99, 200, self.k),
            right: Digits::product(self.t, 99, 101, self.k) + self.slack(),
        }
    }

    // The lower bound of a part of weight w: 101*99^k*T <= 101*200^k*w + 200^(k+1)*M.
    fn lower(self, w: u64) -> Bound {
        Bound {
            left: Digits::product(self.t, 101, 99, self.k),
            right: Digits::product(w, 101, 200, self.k) + self.slack(),
        }
    }
}

// Prints how many events there are of each answer.
fn print_events(out: &mut Output, answers: &[u32]) -> Outcome {
    let events = answers.len();
    let accepted = counted(answers, 0);
    writeln!(out, "events {events}\naccepted {accepted}")?;
    for refusal in [Refusal::Weight, Refusal::Cell] {
        let number = u32::from(refusal);
        let refused = counted(answers, number);
        writeln!(out, "refused {number}: {refused}")?;
    }
    Ok(())
}

// Prints what the parts are held against, and the heaviest and the lightest of them with their bounds.
fn print_parts(out: &mut Output, halved: Halved<'_>) -> Outcome {
    let parts = halved.parts();
    let held = Held {
        k: halved.wish.depth,
        t: parts.total(),
        m: heaviest_of_lines(halved),
    };
    let Held { k, t, m } = held;
    writeln!(out, "T {t}\nM {m}\nk {k}")?;
    let (part, w) = parts.heaviest();
    let bound = held.upper(w);
    writeln!(
        out,
        "heaviest part {part}: w {w}, 99*200^k*w <= 99*101^k*T + 200^(k+1)*M: {bound}"
    )?;
    let (part, w) = parts.lightest(halved.wish.nodes() + 1);
    let bound = held.lower(w);
    writeln!(
        out,
        "lightest part {part}: w {w}, 101*99^k*T <= 101*200^k*w + 200^(k+1)*M: {bound}"
    )?;
    Ok(())
}

// Prints a night in numbers.
pub(crate) fn print(rt: HostRuntime, halved: Halved<'_>, answers: &[u32]) -> Outcome {
    let mut out = Output::of(rt);
    print_events(&mut out, answers)?;
    print_parts(&mut out, halved)?;
    out.finish()
}
