//! Outputs that are files: each is made beside its name, and takes it when it is whole.
#![tactic(auto)]

mod file_number;
mod file_outputs;
mod file_system;
mod output_file;
mod parts;
mod stream_name;
mod system_files;

pub use file_number::FileNumber;
pub use file_outputs::FileOutputs;
pub use file_system::{FileSystem, Found, NumberedFile};
pub use output_file::OutputFile;
pub use system_files::SystemFiles;
