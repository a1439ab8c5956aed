//! The law of queues, the contract of a function that does nothing.

ghost use Rattle.press_queue.specs.QueueLaw.{EachRowKeepsTheQueue};

/// What is true of every queue is true of a new one, and each row of the table leaves it true.
pub fn each_row_keeps_the_queue()
    ensures { EachRowKeepsTheQueue }
{}
