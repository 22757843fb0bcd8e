// Colours of parts.
use std::fmt;

// The colour of a part. The hue of one part is 137.508 degrees from that of the next, so that of a few parts any two are far apart. Of
// more parts those come near that are 5, 8, 13, 21 or 34 apart, by 32, 20, 12, 8 and 5 degrees; those differ in lightness, or at 21 in
// saturation.
#[derive(Clone, Copy)]
pub struct Colour(pub u64);

impl fmt::Display for Colour {
    fn fmt<W: fmt::Write>(&self, f: &mut fmt::Formatter<W>) -> fmt::Result {
        let part = self.0 % 4096;
        let hue = (215000 + part * 137508) / 1000 % 360;
        let saturation = saturation(part);
        let lightness = lightness(part);
        write!(f, "hsl({hue},{saturation}%,{lightness}%)")
    }
}

// How much of its hue a part shows, in percent.
fn saturation(part: u64) -> u64 {
    match part / 21 % 3 {
        0 => 72,
        1 => 36,
        _ => 95,
    }
}

// How light a part is, in percent.
fn lightness(part: u64) -> u64 {
    match part % 3 {
        0 => 42,
        1 => 54,
        _ => 32,
    }
}
