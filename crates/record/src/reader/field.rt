//! The tests of one field of a record.

ghost use Rattle.std.specs.Prelude.{◌≡◌};
ghost use Rattle.refusal.specs.Outcome.{first_due, outcome};
ghost use Rattle.record_format.specs.Reading.{field_rules};

use record_format::layout::{HEAD_LENGTH, TAG_LENGTH};
use record_format::{Tag, number_at};
use refusal::{Refusal, refuse_if};

/// The tests of a field at an offset, where a tag and a length in bytes are due: 10 (fewer than
/// three bytes are left), 11, 12, then 10 (its body is not all there), each at the offset.
#[tactic(auto, using(refusal::proofs::Outcome::tests), unfolding(refusal::specs::Outcome::first_due))]
pub fn check_field(bytes: &[u8], at: usize, tag: Tag, due: usize) -> Result<(), Refusal>
    ensures { outcome result ≡ first_due (field_rules bytes.now at tag due) tt }
{
    let left = bytes.len().saturating_sub(at);
    refuse_if(left < HEAD_LENGTH, Refusal::Cut(at))?;
    refuse_if(bytes[at] != tag.byte(), Refusal::Tag(at))?;
    let stated = number_at(bytes, at + TAG_LENGTH) as usize;
    refuse_if(stated != due, Refusal::Length(at))?;
    refuse_if(left - HEAD_LENGTH < due, Refusal::Cut(at))
}
