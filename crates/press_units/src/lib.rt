//! Values, units, positions and dots of PCL 5.
//!
//! A value field is read as a number in ten-thousandths, a value of so many units is a position in
//! 1/7200 inch, and a position lies on a dot.
#![tactic(auto)]

mod fault;
mod position;
mod value;

pub use fault::{NO_MEMORY, ToldFault};
pub use position::{
    POSITIONS_PER_INCH, Pos, RESOLUTIONS, Resolution, Unit, UnitOfMeasure, dot, position_of, to_pos,
};
pub use value::{GREATEST_VALUE, LONGEST_FIELD, Value, is_field, read_value};
