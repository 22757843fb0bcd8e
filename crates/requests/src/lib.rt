// What document 02 adds to the rules of document 01, as definitions: the limits stand here, and what each request means stands in
// specs/:
//
//   Order      points in the order of their indices
//   Parts      parts along the curve (1/14)
//   Replay     a bench night: events that add to cells, and halvings between them (12/14)
//   Scaled     a finite f64 as a whole number, in steps of 2^-1074
//   Rounding   how far off a cell may be (14/14)
//
// There is no function here, and no proof but those of some cases (proofs/PartsCases.antt, ReplayCases.antt, RoundingCases.antt).
#![tactic(auto)]

// The most points that are put in order or given parts.
pub const TOP_POINTS: u32 = 65536;

// The most parts.
pub const TOP_PARTS: u32 = 1024;
