//! What has a name in the job language (PJL Technical Reference Manual, the syntax of PJL commands).

ghost use Rattle.std.specs.Prelude.{◌≡◌, List, ℕ};
ghost use Rattle.press_pjl.specs.Names.{of_name, size_name, orientation_name, switch_name, binding_name, resolution_name};

use press_cmd::pjl::is_word;
use press_page::{Binding, Orientation, PageSize};
use press_units::Resolution;

/// What has a name in the job language.
pub(crate) trait Named: Copy {
    ghost spelled: { Self → List ℕ };

    /// The name, in upper case.
    fn name(&self) -> &'static [u8]
        ensures { result.now ≡ spelled self.now };
}

/// The first of some things whose name a text is, in letters of either case.
pub(crate) fn find_named<N: Named>(things: &[N], text: &[u8]) -> Option<N>
    ensures { result ≡ of_name N.spelled things.now text.now }
{
    things
        .iter()
        .copied()
        .find(|thing| is_word(text, thing.name()))
}

impl Named for PageSize {
    ghost spelled = { size_name };

    fn name(&self) -> &'static [u8] {
        match self {
            PageSize::Letter => b"LETTER",
            PageSize::Legal => b"LEGAL",
            PageSize::A4 => b"A4",
            PageSize::Executive => b"EXECUTIVE",
            PageSize::Ledger => b"LEDGER",
            PageSize::A3 => b"A3",
        }
    }
}

impl Named for Orientation {
    ghost spelled = { orientation_name };

    fn name(&self) -> &'static [u8] {
        match self {
            Orientation::Portrait | Orientation::ReversePortrait => b"PORTRAIT",
            Orientation::Landscape | Orientation::ReverseLandscape => b"LANDSCAPE",
        }
    }
}

impl Named for bool {
    ghost spelled = { switch_name };

    fn name(&self) -> &'static [u8] {
        if *self { b"ON" } else { b"OFF" }
    }
}

impl Named for Binding {
    ghost spelled = { binding_name };

    fn name(&self) -> &'static [u8] {
        match self {
            Binding::LongEdge => b"LONGEDGE",
            Binding::ShortEdge => b"SHORTEDGE",
        }
    }
}

impl Named for Resolution {
    ghost spelled = { resolution_name };

    fn name(&self) -> &'static [u8] {
        match self {
            Resolution::Dpi300 => b"300",
            Resolution::Dpi600 => b"600",
        }
    }
}
