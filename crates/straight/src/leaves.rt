// The elements that hold a value, which the exact reader reads: of each its tags, the kind of its value, and its field.
use codes::Element;
use profile::{Field, Kind, Simple};

// An element that holds a value.
#[derive(Clone, Copy)]
pub struct Leaf<'a> {
    pub start: &'a [u8],
    pub finish: &'a [u8],
    pub kind: Kind,
    pub field: Field,
}

// The header's: of an amount, the start tag up to its currency.
pub const MSG_ID: Leaf<'static> = Leaf {
    start: b"<MsgId>",
    finish: b"</MsgId>",
    kind: Kind::Plain(Simple::Reference),
    field: Field::MsgId,
};

pub const CRE_DT_TM: Leaf<'static> = Leaf {
    start: b"<CreDtTm>",
    finish: b"</CreDtTm>",
    kind: Kind::Plain(Simple::Time),
    field: Field::CreDtTm,
};

pub const NB_OF_TXS: Leaf<'static> = Leaf {
    start: b"<NbOfTxs>",
    finish: b"</NbOfTxs>",
    kind: Kind::Count,
    field: Field::NbOfTxs,
};

pub const TTL_INTR_BK_STTLM_AMT: Leaf<'static> = Leaf {
    start: b"<TtlIntrBkSttlmAmt Ccy=\"",
    finish: b"</TtlIntrBkSttlmAmt>",
    kind: Kind::Total,
    field: Field::TtlIntrBkSttlmAmt,
};

pub const INTR_BK_STTLM_DT: Leaf<'static> = Leaf {
    start: b"<IntrBkSttlmDt>",
    finish: b"</IntrBkSttlmDt>",
    kind: Kind::Plain(Simple::Date),
    field: Field::IntrBkSttlmDt,
};

pub const STTLM_MTD: Leaf<'static> = Leaf {
    start: b"<SttlmMtd>",
    finish: b"</SttlmMtd>",
    kind: Kind::Code(Element::SttlmMtd),
    field: Field::SttlmMtd,
};

// The payment type's.
pub const SVC_LVL: Leaf<'static> = Leaf {
    start: b"<Cd>",
    finish: b"</Cd>",
    kind: Kind::Code(Element::SvcLvl),
    field: Field::SvcLvl,
};

pub const LCL_INSTRM: Leaf<'static> = Leaf {
    start: b"<Cd>",
    finish: b"</Cd>",
    kind: Kind::Code(Element::LclInstrm),
    field: Field::LclInstrm,
};

pub const SEQ_TP: Leaf<'static> = Leaf {
    start: b"<SeqTp>",
    finish: b"</SeqTp>",
    kind: Kind::Code(Element::SeqTp),
    field: Field::SeqTp,
};

// An item's.
pub const INSTR_ID: Leaf<'static> = Leaf {
    start: b"<InstrId>",
    finish: b"</InstrId>",
    kind: Kind::Plain(Simple::Reference),
    field: Field::InstrId,
};

pub const END_TO_END_ID: Leaf<'static> = Leaf {
    start: b"<EndToEndId>",
    finish: b"</EndToEndId>",
    kind: Kind::Plain(Simple::EndToEnd),
    field: Field::EndToEndId,
};

pub const TX_ID: Leaf<'static> = Leaf {
    start: b"<TxId>",
    finish: b"</TxId>",
    kind: Kind::Plain(Simple::Reference),
    field: Field::TxId,
};

pub const CHRG_BR: Leaf<'static> = Leaf {
    start: b"<ChrgBr>",
    finish: b"</ChrgBr>",
    kind: Kind::Code(Element::ChrgBr),
    field: Field::ChrgBr,
};

pub const REQD_COLLTN_DT: Leaf<'static> = Leaf {
    start: b"<ReqdColltnDt>",
    finish: b"</ReqdColltnDt>",
    kind: Kind::Plain(Simple::Date),
    field: Field::ReqdColltnDt,
};

pub const MNDT_ID: Leaf<'static> = Leaf {
    start: b"<MndtId>",
    finish: b"</MndtId>",
    kind: Kind::Plain(Simple::Reference),
    field: Field::MndtId,
};

pub const DT_OF_SGNTR: Leaf<'static> = Leaf {
    start: b"<DtOfSgntr>",
    finish: b"</DtOfSgntr>",
    kind: Kind::Plain(Simple::Date),
    field: Field::DtOfSgntr,
};

pub const CDTR_ID: Leaf<'static> = Leaf {
    start: b"<Id>",
    finish: b"</Id>",
    kind: Kind::Plain(Simple::Identifier),
    field: Field::CdtrId,
};

pub const PRTRY: Leaf<'static> = Leaf {
    start: b"<Prtry>",
    finish: b"</Prtry>",
    kind: Kind::Code(Element::Prtry),
    field: Field::Prtry,
};

pub const CDTR_NM: Leaf<'static> = Leaf {
    start: b"<Nm>",
    finish: b"</Nm>",
    kind: Kind::Plain(Simple::Text70),
    field: Field::CdtrNm,
};

pub const CDTR_IBAN: Leaf<'static> = Leaf {
    start: b"<IBAN>",
    finish: b"</IBAN>",
    kind: Kind::Plain(Simple::Iban),
    field: Field::CdtrIban,
};

pub const DBTR_NM: Leaf<'static> = Leaf {
    start: b"<Nm>",
    finish: b"</Nm>",
    kind: Kind::Plain(Simple::Text70),
    field: Field::DbtrNm,
};

pub const DBTR_IBAN: Leaf<'static> = Leaf {
    start: b"<IBAN>",
    finish: b"</IBAN>",
    kind: Kind::Plain(Simple::Iban),
    field: Field::DbtrIban,
};

pub const USTRD: Leaf<'static> = Leaf {
    start: b"<Ustrd>",
    finish: b"</Ustrd>",
    kind: Kind::Plain(Simple::Text140),
    field: Field::Ustrd,
};
