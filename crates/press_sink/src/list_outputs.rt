//! Named outputs that are kept in a list.
ghost use Rattle.std.specs.Prelude.{◌≡◌, [], Some, false, true};
ghost use Rattle.press_sink.specs.Kept.{kept_outputs, outputs_in};
ghost use Rattle.press_sink.specs.Outputs.{last_holds};

use crate::named_outputs::NamedOutputs;
use std::alloc::{AllocError, Global};
use std::io;

/// An output: its name, and what it holds, once it is closed.
#[derive(Drop)]
pub struct ListedOutput {
    pub name: String,
    pub holds: Option<Vec<u8>>,
}

/// Named outputs that are kept, in the order in which they were made: for bytes in memory, and for tests.
#[derive(Drop)]
pub struct ListOutputs {
    alloc: Global,
    outputs: Vec<ListedOutput>,
}

impl ListOutputs {
    /// Nothing was made yet.
    pub fn new(alloc: Global) -> Self
        ensures { kept_outputs result ≡ [] }
    {
        ListOutputs {
            alloc,
            outputs: Vec::new(alloc),
        }
    }

    /// What was made, in order.
    pub fn outputs(&self) -> &[ListedOutput]
        ensures { outputs_in result.now ≡ kept_outputs self.now }
    {
        &self.outputs
    }

    /// Keeps what was written to the output that was made last.
    fn keep(&mut self, output: Vec<u8>)
        ensures { kept_outputs self.new ≡ last_holds (Some output.items) (kept_outputs self.old) }
    {
        if let Some(last) = self.outputs.last_mut() {
            last.holds = Some(output);
        }
    }
}

impl NamedOutputs for ListOutputs {
    ghost made = { λ outputs. Some (kept_outputs outputs) };

    ghost failed = { λ _. true };

    ghost waiting = { λ _. false };

    type Output = Vec<u8>;

    fn spare(&mut self, _input: &str) -> Result<(), AllocError> {
        Ok(())
    }

    fn make(&mut self, name: &str) -> io::Result<Vec<u8>> {
        let name = String::from_str(self.alloc, name)?;
        self.outputs.push(ListedOutput { name, holds: None })?;
        Ok(Vec::new(self.alloc))
    }

    fn close(&mut self, output: Vec<u8>) -> io::Result<()> {
        self.keep(output);
        Ok(())
    }

    fn abandon(&mut self, output: Vec<u8>) {
        self.keep(output);
    }
}
