//! Sheets as they were delivered.

use press_bits::Sheet;

/// A sheet as it was delivered, under a tag.
#[derive(Drop)]
pub struct Delivery {
    pub tag: u64,
    pub sheet: Sheet,
}
