//! A macro definition that was begun and not ended (PCL 5 Printer Language Technical Reference Manual, Macros).

ghost use Rattle.std.specs.Prelude.{◌≡◌, [], IfOk, IfErr, OnOk, OnErr};
ghost use Rattle.press_cmd.specs.View.{token};
ghost use Rattle.press_macros.specs.Macros.{with_command};

use crate::stored_macro::StoredMacro;
use press_cmd::{Command, Records};
use std::alloc::{AllocError, Global};
use std::marker::Model;

/// A macro definition that was begun and not ended.
#[derive(Drop)]
pub(crate) struct OpenDefinition {
    id: u16,
    commands: Records,
}

impl Model for OpenDefinition {
    ghost use Rattle.press_macros.specs.Macros.{Definition};

    ghost Value = { Definition };

    ghost view = { λ d. record { id = d.id; commands = d.commands } };
}

impl OpenDefinition {
    /// A definition without a command.
    pub fn new(alloc: Global, id: u16) -> Self
        ensures { result ≡ record { id = id; commands = [] } }
    {
        OpenDefinition {
            id,
            commands: Records::new(alloc),
        }
    }

    /// The ID of the macro that is being defined.
    pub fn id(&self) -> u16
        ensures { result ≡ self.now.id }
    {
        self.id
    }

    /// Records a command behind the others.
    pub fn record(&mut self, command: &Command) -> Result<(), AllocError>
        ensures recorded { OnOk result (self.new ≡ with_command self.old (token command.now)) }
        ensures unchanged { OnErr result (self.new ≡ self.old) }
    {
        self.commands.push(command)
    }

    /// The macro that was defined. An error gives the definition back.
    pub fn end(self) -> Result<StoredMacro, Self>
        ensures ended { IfOk result (λ made. made ≡ self.commands) }
        ensures unchanged { IfErr result (λ definition. definition ≡ self) }
    {
        let OpenDefinition { id, commands } = self;
        match StoredMacro::of(commands) {
            Ok(made) => Ok(made),
            Err(commands) => Err(OpenDefinition { id, commands }),
        }
    }

    /// An equal definition.
    pub fn copy(&self) -> Result<Self, AllocError>
        ensures { IfOk result (λ definition. definition ≡ self.now) }
    {
        Ok(OpenDefinition {
            id: self.id,
            commands: self.commands.copy()?,
        })
    }
}
