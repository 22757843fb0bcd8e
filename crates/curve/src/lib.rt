// The 2D and the 3D Hilbert curve: the bit deposit, a cell's index, and an index's cell.
//
// A cell's coordinates are laid bit by bit side by side (z-order, x's bit above y's, y's above z's), and a machine goes over them from the top
// level down: of its state and the quadrant that it meets it writes a digit of the index, and goes on in the next state (rules' Curve).
//
//   spread                    deposit, and the z-order of a cell
//   cell_tests                whether an encoder takes a cell
//   encoding_2d               six levels at once, by the table of `curve_table`
//   encoding_3d               level by level, by the table of 01
//   decoding                  level by level, by the inverses of the table's rows
//
// A caller may rely on (crate curve_laws): decode after encode gives the cell and encode after decode the index (Demand2, `decode_encode_2d`
// and so on); no two cells share an index (`no_two_cells_share_an_index`); an index is below 2^(d * order), a coordinate below 2^order
// (RoundTrip, `index_below`, `coordinate_below`). Each promise has one answer (proofs/Once.antt of each, `encode_2d_only` and so on), and none
// asks anything of its caller.
#![tactic(auto)]

pub use decoding::{decode_2d, decode_2d_default, decode_3d, decode_3d_default};
pub use encoding_2d::{encode_2d, encode_2d_default};
pub use encoding_3d::{encode_3d, encode_3d_default};
pub use spread::deposit;
