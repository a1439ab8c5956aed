//! The words of parameters.
ghost use Rattle.std.specs.Prelude.{◌≡◌, codes};
ghost use Rattle.std.specs.Option.{ForSome};
ghost use Rattle.press_cmd.specs.Grammar.{IsCharacter, IsGroup, IsEnd};
ghost use Rattle.press_asm.specs.Form.{word};

/// The word of a parameter: its character, its group if it has one, its field and its end.
#[derive(Clone, Copy)]
pub struct Word<'a> {
    pub character: u8,
    pub group: Option<u8>,
    pub field: &'a [u8],
    pub end: u8,
    ghost character_class: { IsCharacter character },
    ghost group_class: { ForSome group IsGroup },
    ghost end_class: { IsEnd end },
    ghost no_exit: { word character group field.now end ≡ codes "%-12345X" → ⊥ },
}
