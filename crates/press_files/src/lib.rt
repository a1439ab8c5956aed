//! What the program reads and writes: inputs by their names, lines that are answered, the files and the listing of a stream, and the job of a
//! ticket.
#![tactic(auto)]

mod around;
mod devices;
mod digest;
mod entry_pages;
mod entry_sheets;
mod entry_template;
mod files;
mod held_replies;
mod inputs;
mod jobs;
mod lent;
mod line_reader;
mod listed_sheet;
mod listing;
mod listing_sink;
mod measures;
mod named_inputs;
mod page_lines;
mod stream;
mod taken;
mod talking;
mod through_replies;
mod told_folder;

pub use around::{Alone, Around};
pub use devices::{Devices, Platform};
pub use entry_pages::{EntryFolder, EntryPages};
pub use entry_sheets::EntrySheets;
pub use entry_template::EntryTemplate;
pub use files::print_files;
pub use inputs::{InputError, read_all};
pub use jobs::{JobFileError, images_named, ticket_in, write_files};
pub use lent::{Lent, Loan};
pub use listing::{list_delivered, print_list, print_sums};
pub use named_inputs::{NamedFile, NamedFiles, NamedInputs, open_named};
pub use talking::{Talk, answer_lines};
