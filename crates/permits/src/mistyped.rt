// A user permit with one character mistyped, which no check accepts.
ghost use Rattle.std.specs.Prelude.{◌≡◌, slice_index, slice_set};
ghost use Rattle.permits.specs.Mistyped.{other_digit};
ghost use Rattle.user_permit.specs.Alteration.{Altered};
ghost use Rattle.user_permit.specs.declared.check.CheckRefusal.TheVariants.{Checksum};

use user_permit::check::{CheckRefusal, check};
use user_permit::permit::UserPermit;

// The sixth character becomes a 0, or a 1 where it was one.
pub fn mistype(permit: &UserPermit) -> [u8; 46]
    ensures value { result ≡ slice_set permit.now.text 5 (other_digit (slice_index permit.now.text 5)) }
    ensures altered { Altered permit.now.text result }
{
    let mut text = *permit.text();
    text[5] = if text[5] == b'0' { b'1' } else { b'0' };
    text
}

// Why the mistyped text is refused. That it is refused is what a check promises of every such alteration.
#[tactic(auto, using(crate::proofs::OneCharacter::given_away))]
pub fn refusal(permit: &UserPermit) -> CheckRefusal
    ensures { result ≡ Checksum }
{
    check(&mistype(permit)).unwrap_err()
}
