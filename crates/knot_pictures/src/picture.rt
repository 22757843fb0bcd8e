// The picture as a whole: 900 pixels high and 1,060 wide, 1,200 with parts beside it.
use crate::spots::Drawn;
use crate::{asked, frame, legend, marks, titles};
use divisions::sums::Sums;
use drawing::titles::Head;
use knot_files::asked::order;
use messages::Outcome;
use printing::Output;
use std::fmt::Write;
use std::rt::HostRuntime;
use words::Words;

// Prints the picture of knots whose parts hold so much.
pub(crate) fn print(rt: HostRuntime, words: &Words, drawn: Drawn<'_>, sums: &Sums) -> Outcome {
    let mut out = Output::of(rt);
    let head = Head {
        width: if asked::parts(words).is_some() {
            1200
        } else {
            1060
        },
        height: 900,
    };
    write!(out, "{head}")?;
    titles::print(&mut out, words, drawn)?;
    legend::print(&mut out, words, sums)?;
    frame::print(&mut out, order(words), drawn)?;
    marks::print(&mut out, drawn)?;
    out.write_str("</g>\n</svg>\n")?;
    out.finish()
}
