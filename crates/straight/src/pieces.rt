// The pieces of an item, each from a place on; all that is read of one is Item.
ghost use Rattle.std.specs.Prelude.{◌≡◌, ◌<◌, ◌≤◌, true, length, slice_index, IfSome};
ghost use Rattle.money.specs.Amount.{most};
ghost use Rattle.profile.specs.Profile.{bic_kind};
ghost use Rattle.swift_values.specs.Stands.{StandsFor};
ghost use Rattle.notes.specs.Notes.{may_follow};
ghost use Rattle.straight.specs.Spelled.{Spelled};
ghost use Rattle.straight.specs.Runs.{text_at, Texts};
ghost use Rattle.straight.specs.Ways.{told, Gone};
ghost use Rattle.straight.specs.Kept.{TypedGone, ChargedGone, CreditorGone, Kept};
ghost use Rattle.straight.specs.Legs.{begun_legs, ids_legs, type_legs, terms_legs, mandate_legs, scheme_legs, party_legs, agent_legs, last_legs, front_legs, back_legs, item_legs, CodesWithin, SideWithin, FrontWithin, BackWithin, Follows, Followed};

use crate::before::{Before, Charged, Codes, CreditorSide, Source, Stretch};
use crate::between::Side;
use crate::{between, quick};
use codes::Element;
use money::Range;
use profile::Version;

// A tag begins at a place.
fn tag_at(m: &[u8], at: usize) -> bool
    requires { at ≤ length m.now }
    ensures { result ≡ true → (at < length m.now) × (slice_index m.now at ≡ 60) }
{
    at != m.len() && m[at] == b'<'
}

// A BIC by the version.
#[inline(always)]
fn bic(m: &[u8], at: usize, v: Version) -> Option<usize>
    ensures { IfSome result (StandsFor (bic_kind v) (told (bic_kind v) 0) m.now at) }
{
    match v {
        Version::V02 => swift_values::bic(m, at),
        Version::V08 => swift_values::bicfi(m, at),
    }
}

// Where InstrId begins (0 where there is none, as in the notes' starts, to which it goes), and the value of EndToEndId.
#[derive(Clone, Copy)]
struct Begun {
    at: usize,
    first: usize,
}

// Where InstrId (0 where there is none) and EndToEndId begin, and the value of TxId.
#[derive(Clone, Copy)]
struct Ids {
    at: usize,
    first: usize,
    ends: usize,
}

// The cents, where ChrgBr and ReqdColltnDt begin, and the value of MndtId.
#[derive(Clone, Copy)]
struct Terms {
    at: usize,
    cents: u64,
    charge: usize,
    collected: usize,
}

// A place that is noted (0 for a remittance text that is not there, as in the notes' starts), and where the next value begins.
#[derive(Clone, Copy)]
struct Two {
    at: usize,
    noted: usize,
}

// Where the values up to ReqdColltnDt begin, the cents, which code LclInstrm is, and the value of MndtId. (0 for none, as in Codes.)
#[derive(Clone, Copy)]
pub struct Front {
    pub at: usize,
    pub first: usize,
    pub ends: usize,
    pub tx: usize,
    pub level: usize,
    pub service: usize,
    pub sequence: usize,
    pub listed: u64,
    pub amount: usize,
    pub cents: u64,
    pub charge: usize,
    pub collected: usize,
}

// Where the values from DtOfSgntr on begin, and the place behind the item.
#[derive(Clone, Copy)]
pub struct Back {
    pub at: usize,
    pub signed: usize,
    pub identifier: usize,
    pub scheme: usize,
    pub creditor: usize,
    pub account: usize,
    pub agent: usize,
    pub debtor: usize,
    pub debited: usize,
    pub bank: usize,
    pub text: usize,
}

// What was found of an item; the place behind it is its back's.
#[derive(Clone, Copy)]
pub struct Item {
    pub front: Front,
    pub back: Back,
}

impl Source<'_> {
    // From behind an item's start tag to the value of EndToEndId, past InstrId where there is one.
    fn begin(self, at: usize, before: &mut Before) -> Option<Begun>
        requires { (at ≤ length self.m.now) × Texts self.t.now × Kept self.m.now self.v before.old }
        ensures { IfSome result (λ r. (r.first ≤ length self.entry.m.now) × Gone self.entry.m.now at (begun_legs r.first) r.at) × Kept self.entry.m.now self.entry.v before.new }
    {
        if let Some(e) = self.as_before(at, before, between::START_TO_END_TO_END_ID) {
            return Some(Begun { at: e, first: 0 });
        }
        let Some(a) = self.run(at, before, between::START_TO_INSTR_ID) else {
            let z = self.anew(at, before, between::START_TO_END_TO_END_ID)?;
            return Some(Begun { at: z, first: 0 });
        };
        let b = swift_values::reference(self.m, a, before.lengths.instr_id)?;
        before.lengths.instr_id = b - a;
        let z = self.run(b, before, between::INSTR_ID_TO_END_TO_END_ID)?;
        Some(Begun { at: z, first: a })
    }

    // Up to the value of TxId.
    fn read_ids(self, at: usize, before: &mut Before) -> Option<Ids>
        requires { (at ≤ length self.m.now) × Texts self.t.now × Kept self.m.now self.v before.old }
        ensures { IfSome result (λ r. (r.first ≤ length self.entry.m.now) × (r.ends ≤ length self.entry.m.now) × Gone self.entry.m.now at (ids_legs r.first r.ends) r.at)
            × Kept self.entry.m.now self.entry.v before.new }
    {
        let e = self.begin(at, before)?;
        let a = swift_values::end_to_end(self.m, e.at, before.lengths.end_to_end_id)?;
        before.lengths.end_to_end_id = a - e.at;
        let z = self.run(a, before, between::END_TO_END_ID_TO_TX_ID)?;
        Some(Ids {
            at: z,
            first: e.first,
            ends: e.at,
        })
    }

    // The payment type as an item before had it; first is the service of the items before.
    fn typed_again(self, at: usize, first: Option<u64>, before: &Before) -> Option<Codes>
        requires { (at ≤ length self.m.now) × Kept self.m.now self.v before.now }
        ensures { IfSome result (λ r. CodesWithin (length self.entry.m.now) r × TypedGone self.entry.m.now at r × (may_follow first r.listed ≡ true)) }
    {
        let Stretch { from, found } = before.typed?;
        let z = quick::again_wide(self.m, at, from, found.at - from)?;
        if !notes::may_follow(first, found.listed) {
            return None;
        }
        Some(Codes {
            at: z,
            level: at + (found.level - from),
            service: at + (found.service - from),
            sequence: at + (found.sequence - from),
            listed: found.listed,
        })
    }

    // The payment type from behind TxId, up to the value of the amount.
    fn typed_anew(self, at: usize, first: Option<u64>, before: &mut Before) -> Option<Codes>
        requires { (at ≤ length self.m.now) × Texts self.t.now × Kept self.m.now self.v before.old }
        ensures { IfSome result (λ r. CodesWithin (length self.entry.m.now) r × TypedGone self.entry.m.now at r × (may_follow first r.listed ≡ true)) × Kept self.entry.m.now self.entry.v before.new }
    {
        if !tag_at(self.m, at) {
            return None;
        }
        let p = self.run(at, before, between::TX_ID_TO_SVC_LVL)?;
        let a = swift_values::code(Element::SvcLvl, self.m, p)?;
        let b = self.run(a.at, before, between::SVC_LVL_TO_LCL_INSTRM)?;
        let c = swift_values::code(Element::LclInstrm, self.m, b)?;
        if !notes::may_follow(first, c.worth) {
            return None;
        }
        let d = self.run(c.at, before, between::LCL_INSTRM_TO_SEQ_TP)?;
        let e = swift_values::code(Element::SeqTp, self.m, d)?;
        let z = self.run(e.at, before, between::SEQ_TP_TO_AMOUNT)?;
        Some(Codes {
            at: z,
            level: p,
            service: b,
            sequence: d,
            listed: c.worth,
        })
    }

    // The payment type: as an item before had it, or anew, and then it is kept.
    // (Three functions have this form: one over them would take three closures, since it would lend what is kept as a whole and in part.)
    fn read_typed(self, at: usize, first: Option<u64>, before: &mut Before) -> Option<Codes>
        requires { (at ≤ length self.m.now) × Texts self.t.now × Kept self.m.now self.v before.old }
        ensures { IfSome result (λ r. CodesWithin (length self.entry.m.now) r × TypedGone self.entry.m.now at r × (may_follow first r.listed ≡ true)) × Kept self.entry.m.now self.entry.v before.new }
    {
        if let Some(a) = self.typed_again(at, first, before) {
            return Some(a);
        }
        let found = self.typed_anew(at, first, before)?;
        before.typed = Some(Stretch { from: at, found });
        Some(found)
    }

    // TxId's end tag and the amount's start tag: no payment type stands between them.
    fn no_type(self, at: usize, before: &mut Before) -> Option<Codes>
        requires { (at ≤ length self.m.now) × Texts self.t.now × Kept self.m.now self.v before.old }
        ensures { IfSome result (λ r. Spelled self.entry.m.now at (text_at 5) r.at × (r.level ≡ 0) × (r.service ≡ 0) × (r.sequence ≡ 0) × (r.listed ≡ 0))
            × Kept self.entry.m.now self.entry.v before.new }
    {
        let z = self.run(at, before, between::TX_ID_TO_AMOUNT)?;
        Some(Codes {
            at: z,
            level: 0,
            service: 0,
            sequence: 0,
            listed: 0,
        })
    }

    // TxId and the payment type, up to the value of the amount; said is what was said of the type before: the same is not said again.
    fn kind(
        self,
        at: usize,
        said: Option<bool>,
        first: Option<u64>,
        before: &mut Before,
    ) -> Option<Codes>
        requires { (at ≤ length self.m.now) × Texts self.t.now × Kept self.m.now self.v before.old }
        ensures { IfSome result (λ r. CodesWithin (length self.entry.m.now) r × Gone self.entry.m.now at (type_legs at r.level r.service r.sequence r.listed) r.at × Follows said first r.level r.listed)
            × Kept self.entry.m.now self.entry.v before.new }
    {
        let a = swift_values::reference(self.m, at, before.lengths.tx_id)?;
        before.lengths.tx_id = a - at;
        if said == Some(true) {
            return self.no_type(a, before);
        }
        if let Some(b) = self.read_typed(a, first, before) {
            return Some(b);
        }
        if said == Some(false) {
            return None;
        }
        self.no_type(a, before)
    }

    // ChrgBr and ReqdColltnDt as an item before had them, from behind the amount.
    fn charged_again(self, at: usize, before: &Before) -> Option<Charged>
        requires { (at ≤ length self.m.now) × Kept self.m.now self.v before.now }
        ensures { IfSome result (λ r. (r.charge ≤ length self.entry.m.now) × (r.collected ≤ length self.entry.m.now) × ChargedGone self.entry.m.now at r) }
    {
        let Stretch { from, found } = before.charged?;
        let z = quick::again_wide(self.m, at, from, found.at - from)?;
        Some(Charged {
            at: z,
            charge: at + (found.charge - from),
            collected: at + (found.collected - from),
        })
    }

    // ChrgBr and ReqdColltnDt from behind the amount, up to the value of MndtId.
    fn charged_anew(self, at: usize, before: &mut Before) -> Option<Charged>
        requires { (at ≤ length self.m.now) × Texts self.t.now × Kept self.m.now self.v before.old }
        ensures { IfSome result (λ r. (r.charge ≤ length self.entry.m.now) × (r.collected ≤ length self.entry.m.now) × ChargedGone self.entry.m.now at r) × Kept self.entry.m.now self.entry.v before.new }
    {
        if !tag_at(self.m, at) {
            return None;
        }
        let b = self.run(at, before, between::AMOUNT_TO_CHRG_BR)?;
        let c = swift_values::code(Element::ChrgBr, self.m, b)?;
        let d = self.run(c.at, before, between::CHRG_BR_TO_REQD_COLLTN_DT)?;
        let e = swift_values::date(self.m, d)?;
        let z = self.run(e, before, between::REQD_COLLTN_DT_TO_MNDT_ID)?;
        Some(Charged {
            at: z,
            charge: b,
            collected: d,
        })
    }

    // ChrgBr and ReqdColltnDt: as an item before had them, or anew, and then they are kept.
    fn read_charged(self, at: usize, before: &mut Before) -> Option<Charged>
        requires { (at ≤ length self.m.now) × Texts self.t.now × Kept self.m.now self.v before.old }
        ensures { IfSome result (λ r. (r.charge ≤ length self.entry.m.now) × (r.collected ≤ length self.entry.m.now) × ChargedGone self.entry.m.now at r) × Kept self.entry.m.now self.entry.v before.new }
    {
        if let Some(a) = self.charged_again(at, before) {
            return Some(a);
        }
        let found = self.charged_anew(at, before)?;
        before.charged = Some(Stretch { from: at, found });
        Some(found)
    }

    // From the amount to the value of MndtId.
    fn read_terms(self, at: usize, before: &mut Before) -> Option<Terms>
        requires { (at ≤ length self.m.now) × Texts self.t.now × Kept self.m.now self.v before.old }
        ensures { IfSome result (λ r. (r.charge ≤ length self.entry.m.now) × (r.collected ≤ length self.entry.m.now) × (r.cents ≤ most Range.Item)
            × Gone self.entry.m.now at (terms_legs at r.cents r.charge r.collected) r.at) × Kept self.entry.m.now self.entry.v before.new }
    {
        let a = swift_values::amount(self.m, at)?;
        let b = self.read_charged(a.at, before)?;
        Some(Terms {
            at: b.at,
            cents: a.worth,
            charge: b.charge,
            collected: b.collected,
        })
    }

    // The mandate, up to behind DtOfSgntr.
    fn mandate(self, at: usize, before: &mut Before) -> Option<Two>
        requires { (at ≤ length self.m.now) × Texts self.t.now × Kept self.m.now self.v before.old }
        ensures { IfSome result (λ r. (r.noted ≤ length self.entry.m.now) × Gone self.entry.m.now at (mandate_legs at r.noted) r.at) × Kept self.entry.m.now self.entry.v before.new }
    {
        let a = swift_values::reference(self.m, at, before.lengths.mndt_id)?;
        before.lengths.mndt_id = a - at;
        let b = self.run(a, before, between::MNDT_ID_TO_DT_OF_SGNTR)?;
        let z = swift_values::date(self.m, b)?;
        Some(Two { at: z, noted: b })
    }

    // The creditor's identifier and its scheme, up to the creditor's name.
    fn scheme(self, at: usize, before: &mut Before) -> Option<Two>
        requires { (at ≤ length self.m.now) × Texts self.t.now × Kept self.m.now self.v before.old }
        ensures { IfSome result (λ r. (r.noted ≤ length self.entry.m.now) × Gone self.entry.m.now at (scheme_legs at r.noted) r.at) × Kept self.entry.m.now self.entry.v before.new }
    {
        let a = swift_values::identifier(self.m, at)?;
        let b = self.run(a, before, between::CDTR_ID_TO_PRTRY)?;
        let c = swift_values::code(Element::Prtry, self.m, b)?;
        let z = self.run(c.at, before, between::PRTRY_TO_CDTR_NM)?;
        Some(Two { at: z, noted: b })
    }

    // A party's name and account, up to the value of its agent's BIC.
    fn party(self, at: usize, s: Side, before: &mut Before) -> Option<Two>
        requires { (at ≤ length self.m.now) × Texts self.t.now × Kept self.m.now self.v before.old }
        ensures { IfSome result (λ r. (r.noted ≤ length self.entry.m.now) × Gone self.entry.m.now at (party_legs s self.entry.v at r.noted) r.at) × Kept self.entry.m.now self.entry.v before.new }
    {
        let a = swift_values::name(self.m, at)?;
        let b = self.run(a, before, between::to_iban(s))?;
        let c = swift_values::iban(self.m, b)?;
        let z = self.run(c, before, between::to_bic(s, self.v))?;
        Some(Two { at: z, noted: b })
    }

    // The creditor's BIC, up to the debtor's name.
    fn agent(self, at: usize, before: &mut Before) -> Option<usize>
        requires { (at ≤ length self.m.now) × Texts self.t.now × Kept self.m.now self.v before.old }
        ensures { IfSome result (Gone self.entry.m.now at (agent_legs self.entry.v at)) × Kept self.entry.m.now self.entry.v before.new }
    {
        let a = bic(self.m, at, self.v)?;
        self.run(
            a,
            before,
            between::by_version(between::CDTR_BIC_TO_DBTR_NM, self.v),
        )
    }

    // The creditor's side as an item before had it, from behind DtOfSgntr.
    fn creditor_again(self, at: usize, before: &Before) -> Option<CreditorSide>
        requires { (at ≤ length self.m.now) × Kept self.m.now self.v before.now }
        ensures { IfSome result (λ r. SideWithin (length self.entry.m.now) r × CreditorGone self.entry.m.now self.entry.v at r) }
    {
        let Stretch { from, found } = before.creditor?;
        let z = quick::again_wide(self.m, at, from, found.at - from)?;
        Some(CreditorSide {
            at: z,
            identifier: at + (found.identifier - from),
            scheme: at + (found.scheme - from),
            name: at + (found.name - from),
            account: at + (found.account - from),
            agent: at + (found.agent - from),
        })
    }

    // The creditor's side from behind DtOfSgntr, up to the debtor's name.
    fn creditor_anew(self, at: usize, before: &mut Before) -> Option<CreditorSide>
        requires { (at ≤ length self.m.now) × Texts self.t.now × Kept self.m.now self.v before.old }
        ensures { IfSome result (λ r. SideWithin (length self.entry.m.now) r × CreditorGone self.entry.m.now self.entry.v at r) × Kept self.entry.m.now self.entry.v before.new }
    {
        if !tag_at(self.m, at) {
            return None;
        }
        let a = self.run(at, before, between::DT_OF_SGNTR_TO_CDTR_ID)?;
        let b = self.scheme(a, before)?;
        let c = self.party(b.at, Side::Creditor, before)?;
        let z = self.agent(c.at, before)?;
        Some(CreditorSide {
            at: z,
            identifier: a,
            scheme: b.noted,
            name: b.at,
            account: c.noted,
            agent: c.at,
        })
    }

    // The creditor's side: as an item before had it, or anew, and then it is kept.
    fn read_creditor(self, at: usize, before: &mut Before) -> Option<CreditorSide>
        requires { (at ≤ length self.m.now) × Texts self.t.now × Kept self.m.now self.v before.old }
        ensures { IfSome result (λ r. SideWithin (length self.entry.m.now) r × CreditorGone self.entry.m.now self.entry.v at r) × Kept self.entry.m.now self.entry.v before.new }
    {
        if let Some(a) = self.creditor_again(at, before) {
            return Some(a);
        }
        let found = self.creditor_anew(at, before)?;
        before.creditor = Some(Stretch { from: at, found });
        Some(found)
    }

    // The debtor's BIC and the remittance text, where there is one, up to behind the item.
    fn last(self, at: usize, before: &mut Before) -> Option<Two>
        requires { (at ≤ length self.m.now) × Texts self.t.now × Kept self.m.now self.v before.old }
        ensures { IfSome result (λ r. (r.noted ≤ length self.entry.m.now) × Gone self.entry.m.now at (last_legs self.entry.v at r.noted) r.at) × Kept self.entry.m.now self.entry.v before.new }
    {
        let a = bic(self.m, at, self.v)?;
        let to_end = between::by_version(between::DBTR_BIC_TO_END, self.v);
        if let Some(e) = self.as_before(a, before, to_end) {
            return Some(Two { at: e, noted: 0 });
        }
        let to_text = between::by_version(between::DBTR_BIC_TO_USTRD, self.v);
        let Some(b) = self.run(a, before, to_text) else {
            let z = self.anew(a, before, to_end)?;
            return Some(Two { at: z, noted: 0 });
        };
        let c = swift_values::remittance(self.m, b, before.lengths.ustrd)?;
        before.lengths.ustrd = c - b;
        let z = self.run(c, before, between::USTRD_TO_END)?;
        Some(Two { at: z, noted: b })
    }

    // From behind an item's start tag to the value of MndtId.
    fn read_front(
        self,
        at: usize,
        said: Option<bool>,
        first: Option<u64>,
        before: &mut Before,
    ) -> Option<Front>
        requires { (at ≤ length self.m.now) × Texts self.t.now × Kept self.m.now self.v before.old }
        ensures { IfSome result (λ r. FrontWithin (length self.entry.m.now) r × Gone self.entry.m.now at (front_legs r) r.at × Followed said first r) × Kept self.entry.m.now self.entry.v before.new }
    {
        let a = self.read_ids(at, before)?;
        let b = self.kind(a.at, said, first, before)?;
        let c = self.read_terms(b.at, before)?;
        Some(Front {
            at: c.at,
            first: a.first,
            ends: a.ends,
            tx: a.at,
            level: b.level,
            service: b.service,
            sequence: b.sequence,
            listed: b.listed,
            amount: b.at,
            cents: c.cents,
            charge: c.charge,
            collected: c.collected,
        })
    }

    // From the value of MndtId to behind the item.
    fn read_back(self, at: usize, before: &mut Before) -> Option<Back>
        requires { (at ≤ length self.m.now) × Texts self.t.now × Kept self.m.now self.v before.old }
        ensures { IfSome result (λ r. BackWithin (length self.entry.m.now) r × Gone self.entry.m.now at (back_legs self.entry.v at r) r.at) × Kept self.entry.m.now self.entry.v before.new }
    {
        let a = self.mandate(at, before)?;
        let c = self.read_creditor(a.at, before)?;
        let e = self.party(c.at, Side::Debtor, before)?;
        let f = self.last(e.at, before)?;
        Some(Back {
            at: f.at,
            signed: a.noted,
            identifier: c.identifier,
            scheme: c.scheme,
            creditor: c.name,
            account: c.account,
            agent: c.agent,
            debtor: c.at,
            debited: e.noted,
            bank: e.at,
            text: f.noted,
        })
    }

    // What an item holds, from behind its start tag to behind its end tag; said is what was said of the payment type before it, first the service of the items before.
    pub fn read_item(
        self,
        at: usize,
        said: Option<bool>,
        first: Option<u64>,
        before: &mut Before,
    ) -> Option<Item>
        requires { (at ≤ length self.m.now) × Texts self.t.now × Kept self.m.now self.v before.old }
        ensures { IfSome result (λ r. FrontWithin (length self.entry.m.now) r.front × BackWithin (length self.entry.m.now) r.back × Gone self.entry.m.now at (item_legs self.entry.v r) r.back.at
            × Followed said first r.front) × Kept self.entry.m.now self.entry.v before.new }
    {
        let front = self.read_front(at, said, first, before)?;
        let back = self.read_back(front.at, before)?;
        Some(Item { front, back })
    }
}
