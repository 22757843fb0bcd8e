// Whether an encoder takes a cell, of the plane and of space alike.
//
// A caller may rely on `passed_2d` and `passed_3d` of curve_laws (Refusals): what these tests answer, the encoder answers, with the cell's index.
#![tactic(auto)]

ghost use Rattle.std.specs.Prelude.{◌≡◌, ◌≤◌, leb};
ghost use Rattle.rules.specs.Sums.{any};
ghost use Rattle.rules.specs.Refusals.{encode_tests, answer_by};

use rules::Refusal;

// Whether some coordinate is not below the side.
fn reaches(cell: &[u64], side: u64) -> bool
    ensures { result ≡ any (leb side) cell.now }
{
    cell.iter().any(|coordinate| side <= *coordinate)
}

// Why a cell is refused, by the first test that does: of its order, or of its coordinates.
pub fn tested<const D: usize>(cell: [u64; D], order: u32, most: u32) -> Result<(), Refusal>
    requires { most ≤ 63 }
    ensures { result ≡ answer_by (encode_tests most order cell.entry) tt }
{
    if most < order {
        return Err(Refusal::Order);
    }
    if reaches(&cell, 1 << order) {
        return Err(Refusal::Coordinate);
    }
    Ok(())
}
