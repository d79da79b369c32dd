// The table that the reader goes by: a row for each element in the order of the profile, and one for each group's end. Its columns are told in specs/Table.antt.
#![tactic(auto)]

ghost use Rattle.std.specs.Prelude.{◌≡◌, ◌<◌, ◌≤◌, ◌/◌, ◌%◌};
ghost use Rattle.text.specs.Truth.{part};
ghost use Rattle.tags.specs.Tags.{look};
ghost use Rattle.table.specs.Table.{tags as all_tags, table, ItemsRow, row_of, row_in, kind_of, field_of, what_of, occ_by, repeats, amount_due, opens_by, closes_by, width};

use codes::Element;
use profile::{Field, Kind, Simple, Version};
use tags::Look;

// How often an element may come: 1; 0 or 1; 1 or more; and what is left of the last once one has come, 0 or more.
#[derive(Clone, Copy, PartialEq, Eq)]
pub enum Occ {
    Once,
    Optional,
    Many,
    More,
}

impl Occ {
    // Whether another one may follow it.
    pub fn repeats(self) -> bool
        ensures { result ≡ repeats self }
    {
        matches!(self, Occ::Many | Occ::More)
    }
}

// What is due at a row.
#[derive(Clone, Copy)]
pub enum What {
    End,
    Group,
    Value(Kind, Field),
}

// A row of the table.
#[derive(Clone, Copy)]
pub struct Row {
    // Where its tags stand, and how long its start tag and its end tag are there.
    pub tag: u16,
    pub start: u16,
    pub finish: u16,
    pub what: What,
    pub occ: Occ,
    // The row of what is due after it.
    pub next: u16,
    // Whether it is the payment type's.
    pub typed: bool,
}

// How many bytes the tags of a version take.
pub const BYTES: usize = 1152;

// How many rows there are.
pub const ROWS: usize = 93;

// The item's row.
const ITEM: usize = 25;

// The tags as a message with nothing in it has them, each as often as it comes; an amount's start tag as far as its quotation mark.
// Two versions, which differ in BIC and BICFI: spelt out, so that each is compared with its tree by computing.
const TAGS_02: [u8; BYTES] = *b"\
    <FIToFICstmrDrctDbt>\
        <GrpHdr>\
            <MsgId></MsgId>\
            <CreDtTm></CreDtTm>\
            <NbOfTxs></NbOfTxs>\
            <TtlIntrBkSttlmAmt Ccy=\"</TtlIntrBkSttlmAmt>\
            <IntrBkSttlmDt></IntrBkSttlmDt>\
            <SttlmInf><SttlmMtd></SttlmMtd></SttlmInf>\
            <PmtTpInf>\
                <SvcLvl><Cd></Cd></SvcLvl>\
                <LclInstrm><Cd></Cd></LclInstrm>\
                <SeqTp></SeqTp>\
            </PmtTpInf>\
            <InstgAgt><FinInstnId><BIC></BIC></FinInstnId></InstgAgt>\
        </GrpHdr>\
        <DrctDbtTxInf>\
            <PmtId>\
                <InstrId></InstrId>\
                <EndToEndId></EndToEndId>\
                <TxId></TxId>\
            </PmtId>\
            <PmtTpInf>\
                <SvcLvl><Cd></Cd></SvcLvl>\
                <LclInstrm><Cd></Cd></LclInstrm>\
                <SeqTp></SeqTp>\
            </PmtTpInf>\
            <IntrBkSttlmAmt Ccy=\"</IntrBkSttlmAmt>\
            <ChrgBr></ChrgBr>\
            <ReqdColltnDt></ReqdColltnDt>\
            <DrctDbtTx>\
                <MndtRltdInf>\
                    <MndtId></MndtId>\
                    <DtOfSgntr></DtOfSgntr>\
                </MndtRltdInf>\
                <CdtrSchmeId><Id><PrvtId><Othr>\
                    <Id></Id>\
                    <SchmeNm><Prtry></Prtry></SchmeNm>\
                </Othr></PrvtId></Id></CdtrSchmeId>\
            </DrctDbtTx>\
            <Cdtr><Nm></Nm></Cdtr>\
            <CdtrAcct><Id><IBAN></IBAN></Id></CdtrAcct>\
            <CdtrAgt><FinInstnId><BIC></BIC></FinInstnId></CdtrAgt>\
            <Dbtr><Nm></Nm></Dbtr>\
            <DbtrAcct><Id><IBAN></IBAN></Id></DbtrAcct>\
            <DbtrAgt><FinInstnId><BIC></BIC></FinInstnId></DbtrAgt>\
            <RmtInf><Ustrd></Ustrd></RmtInf>\
        </DrctDbtTxInf>\
    </FIToFICstmrDrctDbt>\
    </Document>            ";

const TAGS_08: [u8; BYTES] = *b"\
    <FIToFICstmrDrctDbt>\
        <GrpHdr>\
            <MsgId></MsgId>\
            <CreDtTm></CreDtTm>\
            <NbOfTxs></NbOfTxs>\
            <TtlIntrBkSttlmAmt Ccy=\"</TtlIntrBkSttlmAmt>\
            <IntrBkSttlmDt></IntrBkSttlmDt>\
            <SttlmInf><SttlmMtd></SttlmMtd></SttlmInf>\
            <PmtTpInf>\
                <SvcLvl><Cd></Cd></SvcLvl>\
                <LclInstrm><Cd></Cd></LclInstrm>\
                <SeqTp></SeqTp>\
            </PmtTpInf>\
            <InstgAgt><FinInstnId><BICFI></BICFI></FinInstnId></InstgAgt>\
        </GrpHdr>\
        <DrctDbtTxInf>\
            <PmtId>\
                <InstrId></InstrId>\
                <EndToEndId></EndToEndId>\
                <TxId></TxId>\
            </PmtId>\
            <PmtTpInf>\
                <SvcLvl><Cd></Cd></SvcLvl>\
                <LclInstrm><Cd></Cd></LclInstrm>\
                <SeqTp></SeqTp>\
            </PmtTpInf>\
            <IntrBkSttlmAmt Ccy=\"</IntrBkSttlmAmt>\
            <ChrgBr></ChrgBr>\
            <ReqdColltnDt></ReqdColltnDt>\
            <DrctDbtTx>\
                <MndtRltdInf>\
                    <MndtId></MndtId>\
                    <DtOfSgntr></DtOfSgntr>\
                </MndtRltdInf>\
                <CdtrSchmeId><Id><PrvtId><Othr>\
                    <Id></Id>\
                    <SchmeNm><Prtry></Prtry></SchmeNm>\
                </Othr></PrvtId></Id></CdtrSchmeId>\
            </DrctDbtTx>\
            <Cdtr><Nm></Nm></Cdtr>\
            <CdtrAcct><Id><IBAN></IBAN></Id></CdtrAcct>\
            <CdtrAgt><FinInstnId><BICFI></BICFI></FinInstnId></CdtrAgt>\
            <Dbtr><Nm></Nm></Dbtr>\
            <DbtrAcct><Id><IBAN></IBAN></Id></DbtrAcct>\
            <DbtrAgt><FinInstnId><BICFI></BICFI></FinInstnId></DbtrAgt>\
            <RmtInf><Ustrd></Ustrd></RmtInf>\
        </DrctDbtTxInf>\
    </FIToFICstmrDrctDbt>\
    </Document>";

// The rows, with the names of their elements behind them. Each is packed into a number: as a struct it would take nine lines, 186 times.
const TABLE_02: [u64; ROWS] = [
    0x0000_14_00_01_0_5c_00_0, // 0 FIToFICstmrDrctDbt
    0x0014_08_00_01_0_19_00_0, // 1 GrpHdr
    0x001c_07_08_02_0_03_00_0, // 2 MsgId
    0x002b_09_0a_09_0_04_01_0, // 3 CreDtTm
    0x003e_09_0a_05_0_05_02_0, // 4 NbOfTxs
    0x0051_18_14_03_0_06_03_0, // 5 TtlIntrBkSttlmAmt
    0x007d_0f_10_08_0_07_04_0, // 6 IntrBkSttlmDt
    0x009c_0a_00_01_0_0a_00_0, // 7 SttlmInf
    0x00a6_0a_0b_0d_0_09_05_0, // 8 SttlmMtd
    0x00bb_00_0b_00_0_00_00_0, // 9 /SttlmInf
    0x00c6_0a_00_01_1_13_00_1, // 10 PmtTpInf
    0x00d0_08_00_01_0_0e_00_0, // 11 SvcLvl
    0x00d8_04_05_0e_0_0d_0a_0, // 12 Cd
    0x00e1_00_09_00_0_00_00_0, // 13 /SvcLvl
    0x00ea_0b_00_01_0_11_00_0, // 14 LclInstrm
    0x00f5_04_05_0f_0_10_0b_0, // 15 Cd
    0x00fe_00_0c_00_0_00_00_0, // 16 /LclInstrm
    0x010a_07_08_10_0_12_0c_0, // 17 SeqTp
    0x0119_00_0b_00_0_00_00_0, // 18 /PmtTpInf
    0x0124_0a_00_01_0_18_00_0, // 19 InstgAgt
    0x012e_0c_00_01_0_17_00_0, // 20 FinInstnId
    0x013a_05_06_0a_0_16_06_0, // 21 BIC
    0x0145_00_0d_00_0_00_00_0, // 22 /FinInstnId
    0x0152_00_0b_00_0_00_00_0, // 23 /InstgAgt
    0x015d_00_09_00_0_00_00_0, // 24 /GrpHdr
    0x0166_0e_00_01_2_5b_00_0, // 25 DrctDbtTxInf
    0x0174_07_00_01_0_1f_00_0, // 26 PmtId
    0x017b_09_0a_02_1_1c_07_0, // 27 InstrId
    0x018e_0c_0d_13_0_1d_08_0, // 28 EndToEndId
    0x01a7_06_07_02_0_1e_09_0, // 29 TxId
    0x01b4_00_08_00_0_00_00_0, // 30 /PmtId
    0x01bc_0a_00_01_1_28_00_1, // 31 PmtTpInf
    0x01c6_08_00_01_0_23_00_0, // 32 SvcLvl
    0x01ce_04_05_0e_0_22_0a_0, // 33 Cd
    0x01d7_00_09_00_0_00_00_0, // 34 /SvcLvl
    0x01e0_0b_00_01_0_26_00_0, // 35 LclInstrm
    0x01eb_04_05_0f_0_25_0b_0, // 36 Cd
    0x01f4_00_0c_00_0_00_00_0, // 37 /LclInstrm
    0x0200_07_08_10_0_27_0c_0, // 38 SeqTp
    0x020f_00_0b_00_0_00_00_0, // 39 /PmtTpInf
    0x021a_15_11_04_0_29_0d_0, // 40 IntrBkSttlmAmt
    0x0240_08_09_11_0_2a_0e_0, // 41 ChrgBr
    0x0251_0e_0f_08_0_2b_0f_0, // 42 ReqdColltnDt
    0x026e_0b_00_01_0_3d_00_0, // 43 DrctDbtTx
    0x0279_0d_00_01_0_30_00_0, // 44 MndtRltdInf
    0x0286_08_09_02_0_2e_10_0, // 45 MndtId
    0x0297_0b_0c_08_0_2f_11_0, // 46 DtOfSgntr
    0x02ae_00_0e_00_0_00_00_0, // 47 /MndtRltdInf
    0x02bc_0d_00_01_0_3c_00_0, // 48 CdtrSchmeId
    0x02c9_04_00_01_0_3b_00_0, // 49 Id
    0x02cd_08_00_01_0_3a_00_0, // 50 PrvtId
    0x02d5_06_00_01_0_39_00_0, // 51 Othr
    0x02db_04_05_0c_0_35_12_0, // 52 Id
    0x02e4_09_00_01_0_38_00_0, // 53 SchmeNm
    0x02ed_07_08_12_0_37_13_0, // 54 Prtry
    0x02fc_00_0a_00_0_00_00_0, // 55 /SchmeNm
    0x0306_00_07_00_0_00_00_0, // 56 /Othr
    0x030d_00_09_00_0_00_00_0, // 57 /PrvtId
    0x0316_00_05_00_0_00_00_0, // 58 /Id
    0x031b_00_0e_00_0_00_00_0, // 59 /CdtrSchmeId
    0x0329_00_0c_00_0_00_00_0, // 60 /DrctDbtTx
    0x0335_06_00_01_0_40_00_0, // 61 Cdtr
    0x033b_04_05_06_0_3f_14_0, // 62 Nm
    0x0344_00_07_00_0_00_00_0, // 63 /Cdtr
    0x034b_0a_00_01_0_45_00_0, // 64 CdtrAcct
    0x0355_04_00_01_0_44_00_0, // 65 Id
    0x0359_06_07_0b_0_43_15_0, // 66 IBAN
    0x0366_00_05_00_0_00_00_0, // 67 /Id
    0x036b_00_0b_00_0_00_00_0, // 68 /CdtrAcct
    0x0376_09_00_01_0_4a_00_0, // 69 CdtrAgt
    0x037f_0c_00_01_0_49_00_0, // 70 FinInstnId
    0x038b_05_06_0a_0_48_16_0, // 71 BIC
    0x0396_00_0d_00_0_00_00_0, // 72 /FinInstnId
    0x03a3_00_0a_00_0_00_00_0, // 73 /CdtrAgt
    0x03ad_06_00_01_0_4d_00_0, // 74 Dbtr
    0x03b3_04_05_06_0_4c_17_0, // 75 Nm
    0x03bc_00_07_00_0_00_00_0, // 76 /Dbtr
    0x03c3_0a_00_01_0_52_00_0, // 77 DbtrAcct
    0x03cd_04_00_01_0_51_00_0, // 78 Id
    0x03d1_06_07_0b_0_50_18_0, // 79 IBAN
    0x03de_00_05_00_0_00_00_0, // 80 /Id
    0x03e3_00_0b_00_0_00_00_0, // 81 /DbtrAcct
    0x03ee_09_00_01_0_57_00_0, // 82 DbtrAgt
    0x03f7_0c_00_01_0_56_00_0, // 83 FinInstnId
    0x0403_05_06_0a_0_55_19_0, // 84 BIC
    0x040e_00_0d_00_0_00_00_0, // 85 /FinInstnId
    0x041b_00_0a_00_0_00_00_0, // 86 /DbtrAgt
    0x0425_08_00_01_1_5a_00_0, // 87 RmtInf
    0x042d_07_08_07_0_59_1a_0, // 88 Ustrd
    0x043c_00_09_00_0_00_00_0, // 89 /RmtInf
    0x0445_00_0f_00_0_00_00_0, // 90 /DrctDbtTxInf
    0x0454_00_15_00_0_00_00_0, // 91 /FIToFICstmrDrctDbt
    0x0469_00_0b_00_0_00_00_0, // 92 /Document
];

const TABLE_08: [u64; ROWS] = [
    0x0000_14_00_01_0_5c_00_0, // 0 FIToFICstmrDrctDbt
    0x0014_08_00_01_0_19_00_0, // 1 GrpHdr
    0x001c_07_08_02_0_03_00_0, // 2 MsgId
    0x002b_09_0a_09_0_04_01_0, // 3 CreDtTm
    0x003e_09_0a_05_0_05_02_0, // 4 NbOfTxs
    0x0051_18_14_03_0_06_03_0, // 5 TtlIntrBkSttlmAmt
    0x007d_0f_10_08_0_07_04_0, // 6 IntrBkSttlmDt
    0x009c_0a_00_01_0_0a_00_0, // 7 SttlmInf
    0x00a6_0a_0b_0d_0_09_05_0, // 8 SttlmMtd
    0x00bb_00_0b_00_0_00_00_0, // 9 /SttlmInf
    0x00c6_0a_00_01_1_13_00_1, // 10 PmtTpInf
    0x00d0_08_00_01_0_0e_00_0, // 11 SvcLvl
    0x00d8_04_05_0e_0_0d_0a_0, // 12 Cd
    0x00e1_00_09_00_0_00_00_0, // 13 /SvcLvl
    0x00ea_0b_00_01_0_11_00_0, // 14 LclInstrm
    0x00f5_04_05_0f_0_10_0b_0, // 15 Cd
    0x00fe_00_0c_00_0_00_00_0, // 16 /LclInstrm
    0x010a_07_08_10_0_12_0c_0, // 17 SeqTp
    0x0119_00_0b_00_0_00_00_0, // 18 /PmtTpInf
    0x0124_0a_00_01_0_18_00_0, // 19 InstgAgt
    0x012e_0c_00_01_0_17_00_0, // 20 FinInstnId
    0x013a_07_08_14_0_16_06_0, // 21 BICFI
    0x0149_00_0d_00_0_00_00_0, // 22 /FinInstnId
    0x0156_00_0b_00_0_00_00_0, // 23 /InstgAgt
    0x0161_00_09_00_0_00_00_0, // 24 /GrpHdr
    0x016a_0e_00_01_2_5b_00_0, // 25 DrctDbtTxInf
    0x0178_07_00_01_0_1f_00_0, // 26 PmtId
    0x017f_09_0a_02_1_1c_07_0, // 27 InstrId
    0x0192_0c_0d_13_0_1d_08_0, // 28 EndToEndId
    0x01ab_06_07_02_0_1e_09_0, // 29 TxId
    0x01b8_00_08_00_0_00_00_0, // 30 /PmtId
    0x01c0_0a_00_01_1_28_00_1, // 31 PmtTpInf
    0x01ca_08_00_01_0_23_00_0, // 32 SvcLvl
    0x01d2_04_05_0e_0_22_0a_0, // 33 Cd
    0x01db_00_09_00_0_00_00_0, // 34 /SvcLvl
    0x01e4_0b_00_01_0_26_00_0, // 35 LclInstrm
    0x01ef_04_05_0f_0_25_0b_0, // 36 Cd
    0x01f8_00_0c_00_0_00_00_0, // 37 /LclInstrm
    0x0204_07_08_10_0_27_0c_0, // 38 SeqTp
    0x0213_00_0b_00_0_00_00_0, // 39 /PmtTpInf
    0x021e_15_11_04_0_29_0d_0, // 40 IntrBkSttlmAmt
    0x0244_08_09_11_0_2a_0e_0, // 41 ChrgBr
    0x0255_0e_0f_08_0_2b_0f_0, // 42 ReqdColltnDt
    0x0272_0b_00_01_0_3d_00_0, // 43 DrctDbtTx
    0x027d_0d_00_01_0_30_00_0, // 44 MndtRltdInf
    0x028a_08_09_02_0_2e_10_0, // 45 MndtId
    0x029b_0b_0c_08_0_2f_11_0, // 46 DtOfSgntr
    0x02b2_00_0e_00_0_00_00_0, // 47 /MndtRltdInf
    0x02c0_0d_00_01_0_3c_00_0, // 48 CdtrSchmeId
    0x02cd_04_00_01_0_3b_00_0, // 49 Id
    0x02d1_08_00_01_0_3a_00_0, // 50 PrvtId
    0x02d9_06_00_01_0_39_00_0, // 51 Othr
    0x02df_04_05_0c_0_35_12_0, // 52 Id
    0x02e8_09_00_01_0_38_00_0, // 53 SchmeNm
    0x02f1_07_08_12_0_37_13_0, // 54 Prtry
    0x0300_00_0a_00_0_00_00_0, // 55 /SchmeNm
    0x030a_00_07_00_0_00_00_0, // 56 /Othr
    0x0311_00_09_00_0_00_00_0, // 57 /PrvtId
    0x031a_00_05_00_0_00_00_0, // 58 /Id
    0x031f_00_0e_00_0_00_00_0, // 59 /CdtrSchmeId
    0x032d_00_0c_00_0_00_00_0, // 60 /DrctDbtTx
    0x0339_06_00_01_0_40_00_0, // 61 Cdtr
    0x033f_04_05_06_0_3f_14_0, // 62 Nm
    0x0348_00_07_00_0_00_00_0, // 63 /Cdtr
    0x034f_0a_00_01_0_45_00_0, // 64 CdtrAcct
    0x0359_04_00_01_0_44_00_0, // 65 Id
    0x035d_06_07_0b_0_43_15_0, // 66 IBAN
    0x036a_00_05_00_0_00_00_0, // 67 /Id
    0x036f_00_0b_00_0_00_00_0, // 68 /CdtrAcct
    0x037a_09_00_01_0_4a_00_0, // 69 CdtrAgt
    0x0383_0c_00_01_0_49_00_0, // 70 FinInstnId
    0x038f_07_08_14_0_48_16_0, // 71 BICFI
    0x039e_00_0d_00_0_00_00_0, // 72 /FinInstnId
    0x03ab_00_0a_00_0_00_00_0, // 73 /CdtrAgt
    0x03b5_06_00_01_0_4d_00_0, // 74 Dbtr
    0x03bb_04_05_06_0_4c_17_0, // 75 Nm
    0x03c4_00_07_00_0_00_00_0, // 76 /Dbtr
    0x03cb_0a_00_01_0_52_00_0, // 77 DbtrAcct
    0x03d5_04_00_01_0_51_00_0, // 78 Id
    0x03d9_06_07_0b_0_50_18_0, // 79 IBAN
    0x03e6_00_05_00_0_00_00_0, // 80 /Id
    0x03eb_00_0b_00_0_00_00_0, // 81 /DbtrAcct
    0x03f6_09_00_01_0_57_00_0, // 82 DbtrAgt
    0x03ff_0c_00_01_0_56_00_0, // 83 FinInstnId
    0x040b_07_08_14_0_55_19_0, // 84 BICFI
    0x041a_00_0d_00_0_00_00_0, // 85 /FinInstnId
    0x0427_00_0a_00_0_00_00_0, // 86 /DbtrAgt
    0x0431_08_00_01_1_5a_00_0, // 87 RmtInf
    0x0439_07_08_07_0_59_1a_0, // 88 Ustrd
    0x0448_00_09_00_0_00_00_0, // 89 /RmtInf
    0x0451_00_0f_00_0_00_00_0, // 90 /DrctDbtTxInf
    0x0460_00_15_00_0_00_00_0, // 91 /FIToFICstmrDrctDbt
    0x0475_00_0b_00_0_00_00_0, // 92 /Document
];

// All tags of a version, for whoever lends them down.
pub fn tags_of(v: Version) -> [u8; BYTES]
    ensures { result ≡ all_tags v }
{
    match v {
        Version::V02 => TAGS_02,
        Version::V08 => TAGS_08,
    }
}

// All rows of a version, for whoever lends them down. (Rows are numbers and tags are bytes, each lent alone: so `tags_of` is another function.)
pub fn rows_of(v: Version) -> [u64; ROWS]
    ensures { result ≡ table v }
{
    match v {
        Version::V02 => TABLE_02,
        Version::V08 => TABLE_08,
    }
}

// The row of the item, in any version.
pub fn item_row() -> usize
    ensures { ItemsRow result }
{
    ITEM
}

// What a row's number has in the digits above `below`, as many as `most` allows.
fn digits(n: u64, below: u64, most: u64) -> u16
    requires { (0 < below) × (0 < most) × (most ≤ 65536) }
    ensures { result ≡ n / below % most }
{
    (n / below % most) as u16
}

// The kind of a value by its number. (By number, since the row is one number and the tables are written so.)
#[tactic(auto, using(crate::proofs::Numbers::other_kind), unfolding(crate::specs::Table::kind_of))]
pub fn kind_of(n: u16) -> Kind
    ensures { result ≡ kind_of n }
{
    match n {
        3 => Kind::Total,
        4 => Kind::Amount,
        5 => Kind::Count,
        6 => Kind::Plain(Simple::Text70),
        7 => Kind::Plain(Simple::Text140),
        8 => Kind::Plain(Simple::Date),
        9 => Kind::Plain(Simple::Time),
        10 => Kind::Plain(Simple::Bic),
        11 => Kind::Plain(Simple::Iban),
        12 => Kind::Plain(Simple::Identifier),
        13 => Kind::Code(Element::SttlmMtd),
        14 => Kind::Code(Element::SvcLvl),
        15 => Kind::Code(Element::LclInstrm),
        16 => Kind::Code(Element::SeqTp),
        17 => Kind::Code(Element::ChrgBr),
        18 => Kind::Code(Element::Prtry),
        19 => Kind::Plain(Simple::EndToEnd),
        20 => Kind::Plain(Simple::Bicfi),
        _ => Kind::Plain(Simple::Reference),
    }
}

// A field by its number. (By number, since the row is one number and the tables are written so.)
#[tactic(auto, unfolding(crate::specs::Table::field_of))]
pub fn field_of(n: u16) -> Field
    ensures { result ≡ field_of n }
{
    match n {
        1 => Field::CreDtTm,
        2 => Field::NbOfTxs,
        3 => Field::TtlIntrBkSttlmAmt,
        4 => Field::IntrBkSttlmDt,
        5 => Field::SttlmMtd,
        6 => Field::InstgBic,
        7 => Field::InstrId,
        8 => Field::EndToEndId,
        9 => Field::TxId,
        10 => Field::SvcLvl,
        11 => Field::LclInstrm,
        12 => Field::SeqTp,
        13 => Field::IntrBkSttlmAmt,
        14 => Field::ChrgBr,
        15 => Field::ReqdColltnDt,
        16 => Field::MndtId,
        17 => Field::DtOfSgntr,
        18 => Field::CdtrId,
        19 => Field::Prtry,
        20 => Field::CdtrNm,
        21 => Field::CdtrIban,
        22 => Field::CdtrBic,
        23 => Field::DbtrNm,
        24 => Field::DbtrIban,
        25 => Field::DbtrBic,
        26 => Field::Ustrd,
        _ => Field::MsgId,
    }
}

// What is due, by the numbers of its kind and its field.
pub fn what_of(kind: u16, field: u16) -> What
    ensures { result ≡ what_of kind field }
{
    match kind {
        0 => What::End,
        1 => What::Group,
        _ => What::Value(kind_of(kind), field_of(field)),
    }
}

// How often it may come, by its number.
fn occ_by(n: u16) -> Occ
    ensures { result ≡ occ_by n }
{
    match n {
        0 => Occ::Once,
        1 => Occ::Optional,
        2 => Occ::Many,
        _ => Occ::More,
    }
}

// A row from its number.
fn row_of(n: u64) -> Row
    ensures { result ≡ row_of n }
{
    let kind = digits(n, 0x1_0_00_00_0, 0x1_00);
    let field = digits(n, 0x1_0, 0x1_00);
    Row {
        tag: digits(n, 0x1_00_00_00_0_00_00_0, 0x1_0000),
        start: digits(n, 0x1_00_00_0_00_00_0, 0x1_00),
        finish: digits(n, 0x1_00_0_00_00_0, 0x1_00),
        what: what_of(kind, field),
        occ: occ_by(digits(n, 0x1_00_00_0, 0x1_0)),
        next: digits(n, 0x1_00_0, 0x1_00),
        typed: digits(n, 1, 0x1_0) != 0,
    }
}

// Row k of the lent rows.
pub fn row_at(rows: &[u64], k: usize) -> Row
    ensures { result ≡ row_in rows.now k }
{
    row_of(rows.get(k).copied().unwrap_or(0))
}

// Whether an amount is due.
pub fn is_amount(what: What) -> bool
    ensures { result ≡ amount_due what }
{
    match what {
        What::Value(kind, _) => profile::is_amount(kind),
        _ => false,
    }
}

// A part of the tags, as far as they go.
fn piece(tags: &[u8], from: usize, len: usize) -> &[u8]
    ensures { result.now ≡ part from len tags.now }
{
    let from = from.min(tags.len());
    let len = len.min(tags.len() - from);
    &tags[from..from + len]
}

// How a row's start tag lies at the beginning of s.
pub fn opening(tags: &[u8], r: Row, s: &[u8]) -> Look
    ensures { result ≡ look (opens_by tags.now r) s.now }
{
    let text = piece(tags, usize::from(r.tag), usize::from(r.start));
    let look = tags::text_at(text, s);
    let Look::Whole = look else {
        return look;
    };
    if is_amount(r.what) {
        tags::currency_at(&s[text.len()..])
    } else {
        look
    }
}

// How a row's end tag lies at the beginning of s.
pub fn closing(tags: &[u8], r: Row, s: &[u8]) -> Look
    ensures { result ≡ look (closes_by tags.now r) s.now }
{
    let from = usize::from(r.tag) + usize::from(r.start);
    tags::text_at(piece(tags, from, usize::from(r.finish)), s)
}

// How many bytes a row's start tag has.
pub fn width_of(r: Row) -> usize
    ensures { result ≡ width r }
{
    let start = usize::from(r.start);
    if is_amount(r.what) {
        start + tags::CURRENCY
    } else {
        start
    }
}
