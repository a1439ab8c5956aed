//! Where sheets and replies go, and outputs that are made by their names.
#![tactic(auto)]

mod delivery;
mod fault;
mod folder_sink;
mod fuse_replies;
mod fuse_sink;
mod list_outputs;
mod list_replies;
mod list_sink;
mod named_outputs;
mod side;
mod sink;
mod template;
mod write_replies;

pub use delivery::Delivery;
pub use fault::{REPLY_FAULT, ReplyError, SINK_FAULT, SinkError, TemplateError};
pub use folder_sink::{FolderSink, Unopened};
pub use fuse_replies::FuseReplies;
pub use fuse_sink::FuseSink;
pub use list_outputs::{ListOutputs, ListedOutput};
pub use list_replies::ListReplies;
pub use list_sink::ListSink;
pub use named_outputs::{NamedOutputs, write_output, write_page};
pub use sink::{ReplySink, SheetSink};
pub use template::is_side_name;
pub use write_replies::WriteReplies;
