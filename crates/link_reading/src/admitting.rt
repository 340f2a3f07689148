// The rows of links read, added to a draft.
ghost use Rattle.std.specs.Prelude.{◌≡◌, Some};
ghost use Rattle.link_reading.specs.Layout.{fields_of, rows_of};
ghost use Rattle.link_reading.specs.Adding.{add_all, kept};

use super::coded::{Combinations, has_wide};
use super::fields::Fields;
use super::halves::Halves;
use super::reading::read_sizes;
use frames::refusal::Refusal;
use sets::draft::Draft;

// The rows of a payload into a draft, until one is refused. Without TI there are no half octets, and each IPTI is 0.
#[tactic(auto, using(crate::proofs::Room::place_within, crate::proofs::Room::first_within, crate::proofs::Room::few_within))]
pub(crate) fn admit(draft: &mut Draft, payload: &[u8], fields: Fields) -> Result<(), Refusal>
    requires read { fields_of payload.now ≡ Some fields }
    requires subflows { draft.old.opening.subflows ≡ fields.subflows }
    requires timed { draft.old.opening.timed ≡ fields.timed }
    ensures rows { kept result draft.new.combinations ≡ add_all fields.subflows fields.timed draft.old.combinations (rows_of fields payload.now) }
    ensures opening { draft.new.opening ≡ draft.old.opening }
{
    let (_, octets) = payload.split_at(1);
    let (_, ending) = payload.split_at(fields.place);
    let mut iptis = Halves::of(ending, fields.timed);
    for combination in Combinations::of(octets, fields.subflows) {
        let head = combination.head;
        let sizes = read_sizes(combination.sizes, has_wide(head), fields.subflows);
        draft.add(head % 64, iptis.next().unwrap_or(0), sizes.as_slice())?;
    }
    Ok(())
}
