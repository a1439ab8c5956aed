//! The macros under their IDs, and the open definition (PCL 5 Printer Language Technical Reference Manual, Macros).

ghost use Rattle.std.specs.Prelude.{◌≡◌, IfOk, IsErr, OnOk, OnErr, IsSome, IsNone};
ghost use Rattle.press_cmd.specs.View.{token};
ghost use Rattle.press_macros.specs.Macros.{no_macros, defining, definition_begun, recorded, definition_ended, abandoned, body_of, without};
ghost use Rattle.press_macros.specs.Macros.{all_deleted, permanent_macros, macro_made};

use crate::open_definition::OpenDefinition;
use crate::stored_macro::StoredMacro;
use press_cmd::{Body, Command};
use press_store::Store;
use std::alloc::{AllocError, Global};
use std::marker::Model;

/// The macros under their IDs, and the macro definition that is open. Contracts see it as a finite map from IDs to
/// macros, each the list of its commands and whether it is permanent, and as the open definition, if one is open.
///
/// Source: PCL 5 Printer Language Technical Reference Manual, Macros.
#[derive(Drop)]
pub struct MacroStore {
    stored: Store<StoredMacro>,
    definition: Option<OpenDefinition>,
}

impl Model for MacroStore {
    ghost use Rattle.press_macros.specs.Macros.{Macros};
    ghost use Rattle.press_macros.specs.Coding.{macros_code};

    ghost Value = { Macros };

    ghost coded = { macros_code };

    ghost view = { λ s. record { stored = s.stored.things; definition = s.definition } };
}

impl MacroStore {
    /// No macro, and no open definition.
    pub fn new(alloc: Global) -> Self
        ensures { result ≡ no_macros }
    {
        MacroStore {
            stored: Store::new(alloc),
            definition: None,
        }
    }

    /// An equal store.
    ///
    /// # Errors
    ///
    /// Where memory ran out.
    pub fn copy(&self) -> Result<Self, AllocError>
        ensures { IfOk result (λ store. store ≡ self.now) }
    {
        let definition = match &self.definition {
            Some(definition) => Some(definition.copy()?),
            None => None,
        };
        Ok(MacroStore {
            stored: self.stored.copy()?,
            definition,
        })
    }

    /// The ID of the open definition, if one is open.
    pub fn defining(&self) -> Option<u16>
        ensures { result ≡ defining self.now }
    {
        match &self.definition {
            Some(definition) => Some(definition.id()),
            None => None,
        }
    }

    /// Begins the definition of the macro with this ID. The macro itself stays as it is until the definition ends.
    /// No definition may be open: [`MacroStore::defining`] is the test.
    ///
    /// Source: PCL 5 Printer Language Technical Reference Manual, Macros, Macro Control command, value 0.
    pub fn begin(&mut self, id: u16)
        requires { IsNone (defining self.old) }
        ensures { self.new ≡ definition_begun self.old id }
    {
        self.definition = Some(OpenDefinition::new(self.stored.allocator(), id));
    }

    /// Records a command in the open definition, behind those before it. A definition has to be open.
    ///
    /// # Errors
    ///
    /// Where memory ran out. Then nothing changed.
    pub fn record(&mut self, command: &Command) -> Result<(), AllocError>
        requires { IsSome (defining self.old) }
        ensures recorded { OnOk result (self.new ≡ recorded self.old (token command.now)) }
        ensures unchanged { OnErr result (self.new ≡ self.old) }
    {
        match &mut self.definition {
            Some(definition) => definition.record(command),
            None => Ok(()),
        }
    }

    /// Ends the open definition: what was recorded is the macro with its ID from now on, in place of an older one. It
    /// is temporary, also where the older one was permanent. A definition has to be open.
    ///
    /// Source: PCL 5 Printer Language Technical Reference Manual, Macros, Macro Control command, value 1.
    ///
    /// # Errors
    ///
    /// Where memory ran out. Then nothing changed: the definition is still open.
    pub fn stop(&mut self) -> Result<(), AllocError>
        requires { IsSome (defining self.old) }
        ensures ended { OnOk result (self.new ≡ definition_ended self.old) }
        ensures unchanged { OnErr result (self.new ≡ self.old) }
    {
        self.stored.reserve()?;
        let Some(definition) = self.definition.take() else {
            return Ok(());
        };
        let id = definition.id();
        match definition.end() {
            Ok(made) => { self.stored.store(id, made) }
            Err(definition) => {
                self.definition = Some(definition);
                Err(AllocError)
            }
        }
    }

    /// Drops the open definition, if one is open. An older macro with its ID stays.
    pub fn abandon(&mut self)
        ensures { self.new ≡ abandoned self.old }
    {
        self.definition = None;
    }

    /// The body of the macro with this ID, from its first command on, if there is such a macro. It shares the macro's
    /// commands, and stays what it is where the macro is deleted or defined again.
    ///
    /// # Errors
    ///
    /// Where memory ran out.
    pub fn body(&self, id: u16) -> Result<Option<Body>, AllocError>
        ensures body { IfOk result (λ body. body ≡ body_of self.now id) }
        ensures memory { IsErr result → IsSome (body_of self.now id) }
    {
        match self.stored.get(id) {
            Some(found) => Ok(Some(found.body()?)),
            None => Ok(None),
        }
    }

    /// Deletes the macro with this ID, if there is one.
    ///
    /// Source: PCL 5 Printer Language Technical Reference Manual, Macros, Macro Control command, value 8.
    pub fn delete(&mut self, id: u16)
        ensures { self.new ≡ without self.old id }
    {
        self.stored.delete(id);
    }

    /// Deletes all macros. An open definition stays open.
    ///
    /// Source: PCL 5 Printer Language Technical Reference Manual, Macros, Macro Control command, value 6.
    pub fn delete_all(&mut self)
        ensures { self.new ≡ all_deleted self.old }
    {
        self.stored.delete_all();
    }

    /// Deletes the macros that are not permanent. An open definition stays open.
    ///
    /// Source: PCL 5 Printer Language Technical Reference Manual, Macros, Macro Control command, value 7.
    pub fn delete_temporary(&mut self)
        ensures { self.new ≡ permanent_macros self.old }
    {
        self.stored.delete_temporary();
    }

    /// Makes the macro with this ID permanent or temporary, if there is one.
    ///
    /// Source: PCL 5 Printer Language Technical Reference Manual, Macros, Macro Control command, values 9 and 10.
    pub fn set_permanent(&mut self, id: u16, permanent: bool)
        ensures { self.new ≡ macro_made self.old id permanent }
    {
        self.stored.set_permanent(id, permanent);
    }
}
