// The runs of tags between the values of an item, by their numbers: the order of their texts.
ghost use Rattle.std.specs.Prelude.{◌≡◌, ◌<◌};
ghost use Rattle.straight.specs.Legs.{by_version, to_iban, to_bic};

use profile::Version;

// How many runs there are.
pub const MANY: usize = 29;

// Each is named by what stands before it and behind it. Of those that lead to or from a BIC, the one of version .02; that of .08 comes next (by_version).
pub const START_TO_INSTR_ID: usize = 0;

pub const START_TO_END_TO_END_ID: usize = 1;

pub const INSTR_ID_TO_END_TO_END_ID: usize = 2;

pub const END_TO_END_ID_TO_TX_ID: usize = 3;

pub const TX_ID_TO_SVC_LVL: usize = 4;

pub const TX_ID_TO_AMOUNT: usize = 5;

pub const SVC_LVL_TO_LCL_INSTRM: usize = 6;

pub const LCL_INSTRM_TO_SEQ_TP: usize = 7;

pub const SEQ_TP_TO_AMOUNT: usize = 8;

pub const AMOUNT_TO_CHRG_BR: usize = 9;

pub const CHRG_BR_TO_REQD_COLLTN_DT: usize = 10;

pub const REQD_COLLTN_DT_TO_MNDT_ID: usize = 11;

pub const MNDT_ID_TO_DT_OF_SGNTR: usize = 12;

pub const DT_OF_SGNTR_TO_CDTR_ID: usize = 13;

pub const CDTR_ID_TO_PRTRY: usize = 14;

pub const PRTRY_TO_CDTR_NM: usize = 15;

pub const CDTR_NM_TO_IBAN: usize = 16;

pub const CDTR_IBAN_TO_BIC: usize = 17;

pub const CDTR_BIC_TO_DBTR_NM: usize = 19;

pub const DBTR_NM_TO_IBAN: usize = 21;

pub const DBTR_IBAN_TO_BIC: usize = 22;

pub const DBTR_BIC_TO_USTRD: usize = 24;

pub const DBTR_BIC_TO_END: usize = 26;

pub const USTRD_TO_END: usize = 28;

// The two parties of an item.
#[derive(Clone, Copy)]
pub enum Side {
    Creditor,
    Debtor,
}

// Of two runs that differ by the version, the one of a version: that of .08 comes next.
pub fn by_version(j: usize, v: Version) -> usize
    requires { j < 28 }
    ensures { (result ≡ by_version j v) × (result < 29) }
{
    match v {
        Version::V02 => j,
        Version::V08 => j + 1,
    }
}

// The run from a party's name to its account's number. (A match: the two parties' runs have names of their own.)
pub fn to_iban(s: Side) -> usize
    ensures { (result ≡ to_iban s) × (result < 29) }
{
    match s {
        Side::Creditor => CDTR_NM_TO_IBAN,
        Side::Debtor => DBTR_NM_TO_IBAN,
    }
}

// The run from a party's account's number to its agent's BIC.
pub fn to_bic(s: Side, v: Version) -> usize
    ensures { (result ≡ to_bic s v) × (result < 29) }
{
    match s {
        Side::Creditor => by_version(CDTR_IBAN_TO_BIC, v),
        Side::Debtor => by_version(DBTR_IBAN_TO_BIC, v),
    }
}
