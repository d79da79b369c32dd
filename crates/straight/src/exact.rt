// The exact reader, for all that the quick one does not tell: what the profile holds, group by group.
ghost use Rattle.std.specs.Prelude.{◌≡◌, ◌+◌, ◌≤◌, length};
ghost use Rattle.tags.specs.Tags.{plain_tag, amount_tag, end_tag};
ghost use Rattle.profile.specs.Profile.{in_header, in_item};
ghost use Rattle.reading.specs.Trace.{trace};
ghost use Rattle.items.specs.Sums.{of_amount};
ghost use Rattle.items.specs.Alone.{item_body};
ghost use Rattle.notes.specs.Steps.{stated, stepped, Good, Room};
ghost use Rattle.straight.specs.Pieces.{pmt_id};
ghost use Rattle.straight.specs.Exact.{two_of, in_type_of, type_of, amount_of, mandate_of, other_of, private_of, own_of, scheme_of, debit_of, agent_of};
ghost use Rattle.straight.specs.Exact.{head_of, parties_of, last_of, first_of, due_item, Makes};

use crate::leaves::{
    CDTR_IBAN, CDTR_ID, CDTR_NM, CHRG_BR, CRE_DT_TM, DBTR_IBAN, DBTR_NM, DT_OF_SGNTR,
    END_TO_END_ID, INSTR_ID, INTR_BK_STTLM_DT, LCL_INSTRM, Leaf, MNDT_ID, MSG_ID, NB_OF_TXS, PRTRY,
    REQD_COLLTN_DT, SEQ_TP, STTLM_MTD, SVC_LVL, TTL_INTR_BK_STTLM_AMT, TX_ID, USTRD,
};
use crate::part::{Message, Sought};
use answers::{Refusal, Refused};
use notes::State;
use profile::{Field, Kind, Simple, Version};
use tags::Look;

impl Message<'_> {
    // What PmtId holds, exactly.
    fn pmt_id(self, st: State, places: &mut [u32]) -> Result<State, Refused>
        requires { Good self.m.now (stated st) }
        ensures { Makes self.entry.m.now (trace pmt_id self.entry.m.now st.at) st.notes places.old (stepped result) places.new }
    {
        let st = self.leaf(INSTR_ID, true, st, places)?;
        let st = self.leaf(END_TO_END_ID, false, st, places)?;
        let st = self.leaf(TX_ID, false, st, places)?;
        self.end_tag(b"</PmtId>", st)
    }

    // What the payment type holds.
    fn in_type(self, st: State, places: &mut [u32]) -> Result<State, Refused>
        requires { Good self.m.now (stated st) }
        ensures { Makes self.entry.m.now (in_type_of self.entry.m.now st.at) st.notes places.old (stepped result) places.new }
    {
        let st = self.one(b"<SvcLvl>", SVC_LVL, b"</SvcLvl>", st, places)?;
        let st = self.one(b"<LclInstrm>", LCL_INSTRM, b"</LclInstrm>", st, places)?;
        let st = self.leaf(SEQ_TP, false, st, places)?;
        self.end_tag(b"</PmtTpInf>", st)
    }

    // The payment type, which is there or not.
    fn type_info(self, st: State, places: &mut [u32]) -> Result<State, Refused>
        requires { Good self.m.now (stated st) }
        ensures { Makes self.entry.m.now (type_of self.entry.m.now st.at) st.notes places.old (stepped result) places.new }
    {
        let Sought { look, at } = self.seek(b"<PmtTpInf>", st);
        match look {
            Look::Whole => {
                let st = st.at_place(at as u32).say_type(true)?;
                self.in_type(st.at_place((at + 10) as u32), places)
            }
            Look::Cut => Err(Refusal::Cut.at(self.m.len())),
            Look::Other => st.at_place(at as u32).say_type(false),
        }
    }

    // The mandate.
    fn mandate(self, st: State, places: &mut [u32]) -> Result<State, Refused>
        requires { Good self.m.now (stated st) }
        ensures { Makes self.entry.m.now (mandate_of self.entry.m.now st.at) st.notes places.old (stepped result) places.new }
    {
        let st = self.open_tag(b"<MndtRltdInf>", st)?;
        let st = self.leaf(MNDT_ID, false, st, places)?;
        let st = self.leaf(DT_OF_SGNTR, false, st, places)?;
        self.end_tag(b"</MndtRltdInf>", st)
    }

    // The creditor's identifier and its scheme.
    fn other_id(self, st: State, places: &mut [u32]) -> Result<State, Refused>
        requires { Good self.m.now (stated st) }
        ensures { Makes self.entry.m.now (other_of self.entry.m.now st.at) st.notes places.old (stepped result) places.new }
    {
        let st = self.open_tag(b"<Othr>", st)?;
        let st = self.leaf(CDTR_ID, false, st, places)?;
        let st = self.one(b"<SchmeNm>", PRTRY, b"</SchmeNm>", st, places)?;
        self.end_tag(b"</Othr>", st)
    }

    // The groups around it: PrvtId.
    // (One function for this, `own_id` and `scheme`, with what is inside as a closure, was tried: the check refuses what it asks of a closure that takes a
    // message, and each of the three is left with a goal.)
    fn private_id(self, st: State, places: &mut [u32]) -> Result<State, Refused>
        requires { Good self.m.now (stated st) }
        ensures { Makes self.entry.m.now (private_of self.entry.m.now st.at) st.notes places.old (stepped result) places.new }
    {
        let st = self.open_tag(b"<PrvtId>", st)?;
        let st = self.other_id(st, places)?;
        self.end_tag(b"</PrvtId>", st)
    }

    // Id.
    fn own_id(self, st: State, places: &mut [u32]) -> Result<State, Refused>
        requires { Good self.m.now (stated st) }
        ensures { Makes self.entry.m.now (own_of self.entry.m.now st.at) st.notes places.old (stepped result) places.new }
    {
        let st = self.open_tag(b"<Id>", st)?;
        let st = self.private_id(st, places)?;
        self.end_tag(b"</Id>", st)
    }

    // CdtrSchmeId.
    fn scheme(self, st: State, places: &mut [u32]) -> Result<State, Refused>
        requires { Good self.m.now (stated st) }
        ensures { Makes self.entry.m.now (scheme_of self.entry.m.now st.at) st.notes places.old (stepped result) places.new }
    {
        let st = self.open_tag(b"<CdtrSchmeId>", st)?;
        let st = self.own_id(st, places)?;
        self.end_tag(b"</CdtrSchmeId>", st)
    }

    // The direct debit: the mandate, and the creditor's identifier.
    fn direct_debit(self, st: State, places: &mut [u32]) -> Result<State, Refused>
        requires { Good self.m.now (stated st) }
        ensures { Makes self.entry.m.now (debit_of self.entry.m.now st.at) st.notes places.old (stepped result) places.new }
    {
        let st = self.open_tag(b"<DrctDbtTx>", st)?;
        let st = self.mandate(st, places)?;
        let st = self.scheme(st, places)?;
        self.end_tag(b"</DrctDbtTx>", st)
    }

    // An item's amount.
    fn amount(self, st: State, places: &mut [u32]) -> Result<State, Refused>
        requires { Good self.m.now (stated st) × Room 1 st.notes }
        ensures { Makes self.entry.m.now (amount_of (amount_tag "IntrBkSttlmAmt") (end_tag "IntrBkSttlmAmt") Kind.Amount Field.IntrBkSttlmAmt self.entry.m.now st.at) st.notes places.old (stepped result) places.new }
    {
        let st = self.enter(b"<IntrBkSttlmAmt Ccy=\"", st)?;
        self.sum_value(b"</IntrBkSttlmAmt>", Field::IntrBkSttlmAmt, st, places)
    }

    // The header's total.
    fn total(self, st: State, places: &mut [u32]) -> Result<State, Refused>
        requires { Good self.m.now (stated st) }
        ensures { Makes self.entry.m.now (amount_of (amount_tag "TtlIntrBkSttlmAmt") (end_tag "TtlIntrBkSttlmAmt") Kind.Total Field.TtlIntrBkSttlmAmt self.entry.m.now st.at) st.notes places.old (stepped result) places.new }
    {
        let st = self.enter(TTL_INTR_BK_STTLM_AMT.start, st)?;
        self.value(TTL_INTR_BK_STTLM_AMT, st, places)
    }

    // An account, which is an IBAN.
    fn account(
        self,
        start: &[u8],
        iban: Leaf<'_>,
        finish: &[u8],
        st: State,
        places: &mut [u32],
    ) -> Result<State, Refused>
        requires { Good self.m.now (stated st) × (of_amount iban.kind ≡ 0) }
        ensures { Makes self.entry.m.now (two_of start.now (plain_tag "Id") iban.entry.start.now iban.entry.finish.now (end_tag "Id") finish.now iban.entry.kind iban.entry.field self.entry.m.now st.at) st.notes places.old (stepped result) places.new }
    {
        self.two(start, b"<Id>", iban, b"</Id>", finish, st, places)
    }

    // An agent: its BIC by the version.
    fn agent(
        self,
        start: &[u8],
        field: Field,
        finish: &[u8],
        st: State,
        places: &mut [u32],
    ) -> Result<State, Refused>
        requires { Good self.m.now (stated st) }
        ensures { Makes self.entry.m.now (agent_of self.entry.v start.now finish.now field self.entry.m.now st.at) st.notes places.old (stepped result) places.new }
    {
        let bic = match self.v {
            Version::V02 => Leaf {
                start: b"<BIC>",
                finish: b"</BIC>",
                kind: Kind::Plain(Simple::Bic),
                field,
            },
            Version::V08 => Leaf {
                start: b"<BICFI>",
                finish: b"</BICFI>",
                kind: Kind::Plain(Simple::Bicfi),
                field,
            },
        };
        self.two(
            start,
            b"<FinInstnId>",
            bic,
            b"</FinInstnId>",
            finish,
            st,
            places,
        )
    }

    // An item up to its ReqdColltnDt.
    fn item_head(self, st: State, places: &mut [u32]) -> Result<State, Refused>
        requires { Good self.m.now (stated st) × Room 1 st.notes }
        ensures { Makes self.entry.m.now (head_of self.entry.m.now st.at) st.notes places.old (stepped result) places.new }
    {
        let st = self.open_tag(b"<PmtId>", st)?;
        let st = self.pmt_id(st, places)?;
        let st = self.type_info(st, places)?;
        let st = self.amount(st, places)?;
        let st = self.leaf(CHRG_BR, false, st, places)?;
        self.leaf(REQD_COLLTN_DT, false, st, places)
    }

    // An item's direct debit and its parties, up to the debtor's account.
    fn item_parties(self, st: State, places: &mut [u32]) -> Result<State, Refused>
        requires { Good self.m.now (stated st) }
        ensures { Makes self.entry.m.now (parties_of self.entry.v self.entry.m.now st.at) st.notes places.old (stepped result) places.new }
    {
        let st = self.direct_debit(st, places)?;
        let st = self.one(b"<Cdtr>", CDTR_NM, b"</Cdtr>", st, places)?;
        let st = self.account(b"<CdtrAcct>", CDTR_IBAN, b"</CdtrAcct>", st, places)?;
        let st = self.agent(b"<CdtrAgt>", Field::CdtrBic, b"</CdtrAgt>", st, places)?;
        let st = self.one(b"<Dbtr>", DBTR_NM, b"</Dbtr>", st, places)?;
        self.account(b"<DbtrAcct>", DBTR_IBAN, b"</DbtrAcct>", st, places)
    }

    // The end of an item: the debtor's agent, and the remittance text.
    fn item_last(self, st: State, places: &mut [u32]) -> Result<State, Refused>
        requires { Good self.m.now (stated st) }
        ensures { Makes self.entry.m.now (last_of self.entry.v self.entry.m.now st.at) st.notes places.old (stepped result) places.new }
    {
        let st = self.agent(b"<DbtrAgt>", Field::DbtrBic, b"</DbtrAgt>", st, places)?;
        let st = self.may_one(b"<RmtInf>", USTRD, b"</RmtInf>", st, places)?;
        self.end_tag(b"</DrctDbtTxInf>", st)
    }

    // What an item holds, up to behind its end tag.
    fn in_item(self, st: State, places: &mut [u32]) -> Result<State, Refused>
        requires { Good self.m.now (stated st) × Room 1 st.notes }
        ensures { Makes self.entry.m.now (trace (in_item self.entry.v) self.entry.m.now st.at) st.notes places.old (stepped result) places.new }
    {
        let st = self.item_head(st, places)?;
        let st = self.item_parties(st, places)?;
        self.item_last(st, places)
    }

    // The header up to its date.
    fn header_first(self, st: State, places: &mut [u32]) -> Result<State, Refused>
        requires { Good self.m.now (stated st) }
        ensures { Makes self.entry.m.now (first_of self.entry.m.now st.at) st.notes places.old (stepped result) places.new }
    {
        let st = self.leaf(MSG_ID, false, st, places)?;
        let st = self.leaf(CRE_DT_TM, false, st, places)?;
        let st = self.leaf(NB_OF_TXS, false, st, places)?;
        let st = self.total(st, places)?;
        self.leaf(INTR_BK_STTLM_DT, false, st, places)
    }

    // What the header holds, up to behind its end tag.
    pub fn in_header(self, st: State, places: &mut [u32]) -> Result<State, Refused>
        requires { Good self.m.now (stated st) }
        ensures { Makes self.entry.m.now (trace (in_header self.entry.v) self.entry.m.now st.at) st.notes places.old (stepped result) places.new }
    {
        let st = self.header_first(st, places)?;
        let st = self.one(b"<SttlmInf>", STTLM_MTD, b"</SttlmInf>", st, places)?;
        let st = self.type_info(st, places)?;
        let st = self.agent(b"<InstgAgt>", Field::InstgBic, b"</InstgAgt>", st, places)?;
        self.end_tag(b"</GrpHdr>", st)
    }

    // An item from the `<` of its start tag, which lies whole at the state's place, to behind its end tag, by the exact reader.
    pub fn item(self, st: State, places: &mut [u32]) -> Result<State, Refused>
        requires { Good self.m.now (stated st) × (st.at + 14 ≤ length self.m.now) × Room 0 st.notes }
        ensures { Makes self.entry.m.now (item_body self.entry.v self.entry.m.now st.at) st.notes places.old (stepped result) places.new }
    {
        let at = st.at + 14;
        let st = st.begin_item()?;
        self.in_item(st.at_place(at), places)
    }

    // The first item, which is due after white space, by the exact reader.
    pub fn first_item(self, st: State, places: &mut [u32]) -> Result<State, Refused>
        requires { Good self.m.now (stated st) × Room 0 st.notes }
        ensures { Makes self.entry.m.now (due_item self.entry.v self.entry.m.now st.at) st.notes places.old (stepped result) places.new }
    {
        let Sought { look, at } = self.seek(b"<DrctDbtTxInf>", st);
        engine::expect_whole(look, self.m, at)?;
        self.item(st.at_place(at as u32), places)
    }
}
