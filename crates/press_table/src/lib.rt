//! The command table of PCL 5: the state, and what each command does to it.
#![tactic(auto)]

mod calls;
mod canvas;
mod changing;
mod closing;
mod drawing;
mod effect;
mod filling;
mod job_language;
mod macro_control;
mod macros;
mod motion;
mod operation;
mod page_kept;
mod passing;
mod pattern_control;
mod patterns;
mod raster;
mod rectangle;
mod refusal;
mod row;
mod state;

pub use calls::SavedEnvironment;
pub use changing::Changed;
pub use drawing::Drawing;
pub use effect::{BodyEnd, BodyStart, Effect, EjectCause, FinishedSheet, Sent, Source};
pub use page_kept::{may_change_page, transfers_rows};
pub use rectangle::Rectangle;
pub use refusal::Refusal;
pub use state::State;
