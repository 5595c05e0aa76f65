//! The numbers of the declines.

ghost use Rattle.std.specs.Prelude.{◌≡◌};

use crate::decline::Decline;

/// The number by which callers know this decline.
impl From<Decline> for u8 {
    ghost use Rattle.rc.specs.Declines.{number_of};

    ghost from_gives = { λ why n. n ≡ number_of why };

    fn from(why: Decline) -> u8 {
        match why {
            Decline::Memory => 1,
            Decline::List => 2,
            Decline::Handle => 3,
            Decline::Loose => 4,
            Decline::Slice => 5,
            Decline::Index => 6,
            Decline::References => 7,
            Decline::Shared => 8,
            Decline::Count => 9,
            Decline::Allocator(why) => u8::from(why),
        }
    }
}
