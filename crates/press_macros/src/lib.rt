//! The macros of a printer: the commands that each one recorded, and the definition that is open.
//!
//! Source: PCL 5 Printer Language Technical Reference Manual, Macros.
#![tactic(auto)]

mod macro_store;
mod open_definition;
mod stored_macro;

pub use macro_store::MacroStore;
