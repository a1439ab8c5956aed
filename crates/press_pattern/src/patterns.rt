//! The patterns that there are (PCL 5 Printer Language Technical Reference Manual, The PCL Print Model).

ghost use Rattle.std.specs.Prelude.{◌≡◌, ◌↔◌, true, false, option_map, option_copied, OnOk, OnErr, IfOk, IsErrOf};
ghost use Rattle.std.specs.FinMap as maps;
ghost use Rattle.press_store.specs.Things.{made, permanent_only};
ghost use Rattle.press_pattern.specs.Tiling.{tile_row};
ghost use Rattle.press_pattern.specs.UserData.{has_header, has_rows};
ghost use Rattle.press_pattern.specs.Store.{tile_of, with_definition};
ghost use Rattle.press_pattern.specs.Brush.{brush_of};

use crate::brush::{Brush, mode_of};
use crate::fault::DefineError;
use crate::fixed;
use crate::pattern::{Pattern, PatternKind};
use crate::tile::{OwnedTile, Tile};
use crate::user_data::read_tile;
use press_bits::Mode;
use press_store::Store;
use std::alloc::{AllocError, Global};
use std::marker::Model;

/// The patterns: those that always exist, and the user-defined ones. Contracts see it as a finite map
/// from IDs to user-defined patterns.
///
/// Source: PCL 5 Printer Language Technical Reference Manual, The PCL Print Model.
#[derive(Drop)]
pub struct Patterns {
    user: Store<OwnedTile>,
}

impl Model for Patterns {
    ghost use Rattle.press_pattern.specs.Store.{UserPatterns};
    ghost use Rattle.press_pattern.specs.Tiling.{tiling_code};
    ghost use Rattle.press_store.specs.Things.{things_code};

    ghost Value = { UserPatterns };

    ghost coded = { things_code tiling_code };

    ghost view = { λ patterns. patterns.user.things };
}

impl Patterns {
    /// No user-defined pattern.
    pub fn new(alloc: Global) -> Self
        ensures { result ≡ maps.empty }
    {
        Patterns {
            user: Store::new(alloc),
        }
    }

    /// Equal patterns.
    ///
    /// # Errors
    ///
    /// Where memory ran out.
    pub fn copy(&self) -> Result<Self, AllocError>
        ensures { IfOk result (λ patterns. patterns ≡ self.now) }
    {
        Ok(Patterns {
            user: self.user.copy()?,
        })
    }

    /// Defines the pattern that the data of a Define Pattern command stands for, in place of an older one
    /// with this ID. It is temporary, also where the older one was permanent. Data behind the last row is
    /// ignored.
    ///
    /// Source: PCL 5 Printer Language Technical Reference Manual, The PCL Print Model, Define Pattern
    /// command.
    ///
    /// # Errors
    ///
    /// `BadHeader` (201) exactly where no header stands first, and else `ShortData` (202) exactly where
    /// the rows are cut short, and else `NoMemory` where memory ran out. Each changes nothing.
    pub fn define(&mut self, id: u16, bytes: &[u8]) -> Result<(), DefineError>
        ensures defined { OnOk result (self.new ≡ with_definition self.old id bytes.now) }
        ensures unchanged { OnErr result (self.new ≡ self.old) }
        ensures bad_header { IsErrOf result DefineError.BadHeader ↔ (has_header bytes.now ≡ false) }
        ensures short_data { IsErrOf result DefineError.ShortData
            ↔ ((has_header bytes.now ≡ true) × (has_rows bytes.now ≡ false)) }
    {
        let tile = read_tile(self.user.allocator(), bytes)?;
        self.user.store(id, tile)?;
        Ok(())
    }

    /// Deletes the user-defined pattern with this ID, if there is one.
    pub fn delete(&mut self, id: u16)
        ensures { self.new ≡ maps.remove self.old id }
    {
        self.user.delete(id);
    }

    /// Deletes all user-defined patterns.
    pub fn delete_all(&mut self)
        ensures { self.new ≡ maps.empty }
    {
        self.user.delete_all();
    }

    /// Deletes the user-defined patterns that are not permanent.
    pub fn delete_temporary(&mut self)
        ensures { self.new ≡ permanent_only self.old }
    {
        self.user.delete_temporary();
    }

    /// Makes the user-defined pattern with this ID permanent or temporary, if there is one.
    pub fn set_permanent(&mut self, id: u16, permanent: bool)
        ensures { self.new ≡ made self.old id permanent }
    {
        self.user.set_permanent(id, permanent);
    }

    /// The tile of a pattern, if it exists.
    #[inline(always)]
    pub fn tile(&self, pattern: Pattern) -> Option<Tile<'_>>
        ensures { result ≡ tile_of self.now pattern.kind pattern.id }
    {
        match pattern.kind {
            PatternKind::Black => Some(fixed::black()),
            PatternKind::White => Some(fixed::white()),
            PatternKind::Shading => fixed::shading(pattern.id),
            PatternKind::CrossHatch => fixed::cross_hatch(pattern.id),
            PatternKind::User => {
                let found = self.user.get(pattern.id)?;
                Some(found.as_tile())
            }
        }
    }

    /// What a pattern is painted with in a mode, if it exists. Solid white always whitens: its white dots
    /// are opaque.
    ///
    /// Source: PCL 5 Printer Language Technical Reference Manual, The PCL Print Model.
    #[inline(always)]
    pub fn brush(&self, pattern: Pattern, mode: Mode) -> Option<Brush<'_>>
        ensures { result ≡ brush_of self.now pattern mode }
    {
        let tile = self.tile(pattern)?;
        Some(Brush {
            tile,
            mode: mode_of(pattern.kind, mode),
        })
    }

    /// Where the patterns take their memory.
    pub fn allocator(&self) -> Global {
        self.user.allocator()
    }

    /// The bytes of a pattern's tile for line `y` of the frame, if the pattern exists; see [`Tile::row`].
    pub fn row_of(&self, kind: PatternKind, id: u16, y: u32) -> Option<&[u8]>
        ensures { option_copied result
            ≡ option_map (λ tile. tile_row tile y) (tile_of self.now kind id) }
    {
        let tile = self.tile(Pattern { kind, id })?;
        Some(tile.row(y))
    }
}
