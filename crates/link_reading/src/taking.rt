// Links taken one after the other.
ghost use Rattle.std.specs.Prelude.{◌≡◌, ◌≤◌, if◌then◌else◌, Some, Ok, ◌≢◌};
ghost use Rattle.link_reading.specs.Laws.{ReadsBack};
ghost use Rattle.link_reading.specs.Links.{nothing};
ghost use Rattle.link_reading.specs.Holding.{agrees, follows, base, examined, ruled, judged, answer, after};

use super::admitting::admit;
use super::fields::Fields;
use super::held::Held;
use super::reading::examine;
use frames::number::Number;
use frames::refusal::Refusal;
use sets::closed::Set;
use sets::draft::Draft;
use sets::opening::Opening;

impl Held {
    // No link yet. From here, as from any links held, the links of a closed set give that set.
    #[tactic(auto, using(crate::proofs::Returns::reads_back))]
    pub fn none() -> Held
        ensures nothing { result ≡ nothing }
        ensures back { ReadsBack }
    {
        Held {
            draft: Draft::open(Opening::smallest()).drafted(),
            versions: 0,
            links: 0,
            complete: false,
        }
    }

    // Whether these fields say what link 0 said.
    fn agrees(&self, fields: Fields) -> bool
        ensures { result ≡ agrees self.now fields }
    {
        let opening = self.draft.opening();
        fields.subflows == opening.subflows()
            && fields.timed == opening.is_timed()
            && fields.versions == self.versions
            && fields.kind == opening.data_type().number()
    }

    // Whether a link with these fields may come now.
    #[tactic(auto, unfolding(crate::specs::Holding::follows))]
    fn may_come(&self, number: u8, fields: Fields) -> bool
        ensures { result ≡ follows self.now number fields }
    {
        !(number == 3 && fields.chain)
            && (number == 0 || number == self.links && !self.complete && self.agrees(fields))
    }

    // What the combinations of the link are added to.
    fn begun(&self, number: u8, opening: Opening) -> Draft
        requires { (number ≢ 0) → self.now.contents.opening ≡ opening }
        ensures { result ≡ record { opening = opening; combinations = base self.now number } }
    {
        if number == 0 {
            Draft::open(opening)
        } else {
            Draft::resume(&self.draft)
        }
    }

    // A link whose payload is sound in itself is held too, or it is against a rule. Its number is a plain one here, as the rules compare it.
    fn extend(&mut self, number: u8, payload: &[u8], fields: Fields) -> Result<(), Refusal>
        requires read { Ok fields ≡ examined payload.now }
        requires number { number ≤ 3 }
        ensures answer { result ≡ answer (ruled self.old number payload.now fields) }
        ensures held { self.new ≡ after self.old (ruled self.old number payload.now fields) }
    {
        let opening = Opening::new(fields.subflows, fields.timed, fields.kind).or(Err(
            Refusal::UnexpectedValue,
        ))?;
        if !self.may_come(number, fields) {
            return Err(Refusal::UnexpectedValue);
        }
        let mut draft = self.begun(number, opening);
        admit(&mut draft, payload, fields).or(Err(Refusal::UnexpectedValue))?;
        *self = Held {
            draft: draft.drafted(),
            versions: fields.versions,
            links: number + 1,
            complete: !fields.chain,
        };
        Ok(())
    }

    // Link `number` with this payload is held too, or it is refused and what is held stays.
    pub fn read(&mut self, number: Number, payload: &[u8]) -> Result<(), Refusal>
        ensures answer { result ≡ answer (judged self.old number payload.now) }
        ensures held { self.new ≡ after self.old (judged self.old number payload.now) }
    {
        let fields = examine(payload)?;
        self.extend(number.value(), payload, fields)
    }

    // The set that the links make goes into `place` once the last is held; before that `place` stays as it was.
    // The place is lent, as where a draft is closed, so that no set moves in the answer: that tells whether the place was filled, which is no refusal.
    pub fn finish(&self, place: &mut Option<Set>) -> bool
        ensures answer { result ≡ self.now.complete }
        ensures place { place.new ≡ (if self.now.complete then Some self.now.contents else place.old) }
    {
        if !self.complete {
            return false;
        }
        self.draft.close(place).is_ok()
    }
}
