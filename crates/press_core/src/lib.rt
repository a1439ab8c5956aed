//! The press: messages, turns of its engines, and operators on one queue of jobs.
#![tactic(auto)]

mod commands;
mod device;
mod engines;
mod fault;
mod flag;
mod handing;
mod heading;
mod listings;
mod message_type;
mod operator;
mod parameters;
mod press;
mod response;
mod submission;
mod turn;
mod turning;
mod work;
mod works;

pub use device::{Device, DeviceStatus};
pub use engines::BadEngines;
pub use fault::Refused;
pub use flag::FlagCommand;
pub use message_type::MessageType;
pub use operator::OperatorCommand;
pub use press::Press;
pub use turn::{Turn, TurnError};
