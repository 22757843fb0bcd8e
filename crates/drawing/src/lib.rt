// What pictures in SVG are made of: their head, texts that stand in them as text, the numbers of cells along axes, marks on the first and the
// last of what is joined, and colours of parts. Each is a struct that is printed as its piece of the picture.
//
// Places are in tenths of a pixel. Their sums saturate, which none in a picture does.
// Every function is proved safe, and to end; what is written no contract can say, and the gate compares it.
#![tactic(auto)]

pub mod colours;
pub mod ends;
pub mod texts;
pub mod ticks;
pub mod titles;
