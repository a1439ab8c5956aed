//! A macro, whose commands bodies share (PCL 5 Printer Language Technical Reference Manual, Macros).

ghost use Rattle.std.specs.Prelude.{◌≡◌, IfOk, IfErr};

use press_cmd::{Body, Records};
use press_store::Duplicate;
use std::alloc::AllocError;
use std::marker::Model;
use std::rc::Rc;

/// A macro. Its commands are shared with the bodies of it that run. Contracts see the commands.
#[derive(Drop)]
pub(crate) struct StoredMacro {
    commands: Rc<Records>,
}

impl Model for StoredMacro {
    ghost use Rattle.std.specs.Prelude.{List};
    ghost use Rattle.press_cmd.specs.Token.{Token};

    ghost Value = { List Token };

    ghost view = { λ m. m.commands.value };
}

impl StoredMacro {
    /// The macro of these commands. An error gives them back.
    pub fn of(commands: Records) -> Result<Self, Records>
        ensures made { IfOk result (λ made. made ≡ commands) }
        ensures given_back { IfErr result (λ back. back ≡ commands) }
    {
        match Rc::new(commands.allocator(), commands) {
            Ok(commands) => Ok(StoredMacro { commands }),
            Err(failed) => Err(failed.value),
        }
    }

    /// Its body, from the first command on.
    pub fn body(&self) -> Result<Body, AllocError>
        ensures { IfOk result (λ body. body ≡ self.now) }
    {
        Ok(Body::of(self.commands.clone()?))
    }
}

impl Duplicate for StoredMacro {
    fn duplicate(&self) -> Result<StoredMacro, AllocError> {
        Ok(StoredMacro {
            commands: self.commands.clone()?,
        })
    }
}
