// The round trips of demand 2, as programs: a call of an encoder and a decoder, one after the other, on every input.
//
// An accepted cell comes back as it went, and so does an accepted index; a refused one comes back as its refusal. The functions of 2D and of 3D
// stay apart, since docs/PROMISES.md and the laws `there_and_back_2d_only`, `there_and_back_3d_only` and so on name each.
#![tactic(auto)]

ghost use Rattle.std.specs.Prelude.{◌≡◌, [], ◌∷◌};
ghost use Rattle.rules.specs.Refusals.{top2, top3, encode_tests, decode_tests, answer_by};

use rules::Refusal;

// The cell (x, y), encoded and decoded.
#[tactic(auto, using(curve_laws::proofs::Trips::there_and_back2, curve_laws::proofs::Trips::refusal_back2))]
pub fn there_and_back_2d(x: u64, y: u64, order: u32) -> Result<[u64; 2], Refusal>
    ensures { result ≡ answer_by (encode_tests top2 order (x ∷ y ∷ [])) (x ∷ y ∷ []) }
{
    let index = curve::encode_2d(x, y, order)?;
    curve::decode_2d(index, order)
}

// The cell (x, y, z), encoded and decoded.
#[tactic(auto, using(curve_laws::proofs::Trips::there_and_back3, curve_laws::proofs::Trips::refusal_back3))]
pub fn there_and_back_3d(x: u64, y: u64, z: u64, order: u32) -> Result<[u64; 3], Refusal>
    ensures { result ≡ answer_by (encode_tests top3 order (x ∷ y ∷ z ∷ [])) (x ∷ y ∷ z ∷ []) }
{
    let index = curve::encode_3d(x, y, z, order)?;
    curve::decode_3d(index, order)
}

// The index, decoded and encoded in 2D.
#[tactic(auto, using(curve_laws::proofs::Trips::back_and_there2, curve_laws::proofs::Trips::refusal_there2))]
pub fn back_and_there_2d(index: u64, order: u32) -> Result<u64, Refusal>
    ensures { result ≡ answer_by (decode_tests 2 top2 order index) index }
{
    let [x, y] = curve::decode_2d(index, order)?;
    curve::encode_2d(x, y, order)
}

// The index, decoded and encoded in 3D.
#[tactic(auto, using(curve_laws::proofs::Trips::back_and_there3, curve_laws::proofs::Trips::refusal_there3))]
pub fn back_and_there_3d(index: u64, order: u32) -> Result<u64, Refusal>
    ensures { result ≡ answer_by (decode_tests 3 top3 order index) index }
{
    let [x, y, z] = curve::decode_3d(index, order)?;
    curve::encode_3d(x, y, z, order)
}
