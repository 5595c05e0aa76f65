//! The numbers of the declines.

ghost use Rattle.std.specs.Prelude.{◌≡◌};
ghost use Rattle.blocks.specs.Declines.{number_of};

use crate::block::Decline;

/// The number by which callers know a decline.
impl From<Decline> for u8 {
    ghost from_gives = { λ decline n. n ≡ number_of decline };

    fn from(decline: Decline) -> u8 {
        match decline {
            Decline::Unfit => 10,
            Decline::NotOut => 11,
        }
    }
}
