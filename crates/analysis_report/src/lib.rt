//! What is reported of a certificate: its lines, how they stand to those of another one, its bounds as powers,
//! and the bounds of a call at its arguments. Its laws say which limits suffice: under bounds, and with room for
//! them, a machine runs to its end.
#![tactic(auto)]

mod bounds;
mod comparing;
mod comparison;
pub mod laws;
mod listing;
mod powering;
mod powers_fault;

pub use bounds::{FloorFault, Floors, floors_at};
pub use comparing::comparison_lines;
pub use listing::{function_lines, lines, meter_lines};
pub use powering::power_lines;
pub use powers_fault::PowersFault;
