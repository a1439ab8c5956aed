//! The names of media and sides (CIP4 JDF 1.5; which there are is this profile's).

ghost use Rattle.std.specs.Prelude.{◌≡◌};
ghost use Rattle.press_ticket.specs.Names.{media_named, sides_named};

/// The size of the medium.
///
/// Source: CIP4 JDF 1.5, names of media sizes; which of them there are is this profile's.
#[derive(Clone, Copy, Debug, PartialEq, Eq)]
pub enum Media {
    Letter,
    Legal,
    A4,
    Executive,
    Ledger,
    A3,
}

impl Media {
    /// The size of this name.
    pub fn named(name: &str) -> Option<Self>
        ensures { result ≡ media_named name.now }
    {
        match name {
            "Letter" => Some(Media::Letter),
            "Legal" => Some(Media::Legal),
            "A4" => Some(Media::A4),
            "Executive" => Some(Media::Executive),
            "Ledger" => Some(Media::Ledger),
            "A3" => Some(Media::A3),
            _ => None,
        }
    }
}

/// Which sides of a sheet are printed, and how the back is turned.
///
/// Source: the names are this profile's.
#[derive(Clone, Copy, Debug, PartialEq, Eq)]
pub enum Sides {
    OneSidedFront,
    TwoSidedHeadToHead,
    TwoSidedHeadToFoot,
}

impl Sides {
    /// The sides of this name.
    pub fn named(name: &str) -> Option<Self>
        ensures { result ≡ sides_named name.now }
    {
        match name {
            "OneSidedFront" => Some(Sides::OneSidedFront),
            "TwoSidedHeadToHead" => Some(Sides::TwoSidedHeadToHead),
            "TwoSidedHeadToFoot" => Some(Sides::TwoSidedHeadToFoot),
            _ => None,
        }
    }
}
