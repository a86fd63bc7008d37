// The items of each profile by table: where an item stands, how its parts lie in octets, and the fields of each part (section 5.2 of each category
// document; Table 2 of category 017, 5.3.1; Table 9 of category 018, 5.3.1; Table 3 of category 061, 5.3). Profile 0 is category 017, edition
// 1.3; profile 1 is category 018, edition 1.6; profile 2 is category 061, edition 1.2. Rows stand in the order of the profiles, FRN by FRN; the contracts tie each table, whole, to the rules' profiles.
ghost use Rattle.std.specs.Prelude.{◌≡◌, ◌<◌, ◌≤◌, get_or, pos};
ghost use Rattle.tables.specs.Tables.{holds_digit, kind_by, field_count, range_count, group_count, layout_count, place_count, primary_count, subfield_count, range_rows, field_at, group_at, layout_at, place_row_at, primary_at, subfield_at};

// What a field holds: a number, a number in two's complement, or zero. By the digit that a row has for it.
#[derive(Clone, Copy, Debug, PartialEq, Eq)]
pub enum Holds {
    Unsigned = 0,
    Twos = 1,
    Spare = 2,
}

// A field: how many bits, what it holds, its least and its greatest value.
#[derive(Clone, Copy)]
pub struct FieldRow {
    pub bits: u64,
    pub holds: Holds,
    pub least: i64,
    pub greatest: i64,
}

// A group, the fields of a part: how many octets the part has; the place of its first field and the one past its last; how many values it has;
// whether it is free: every number of its octets is legal, so that its fields need no look.
#[derive(Drop)]
pub struct GroupRow {
    pub octets: usize,
    pub first: usize,
    pub end: usize,
    pub values: usize,
    pub free: bool,
}

// How the parts of an item lie: no item; one part; a count octet and parts; a length octet and contents; parts as far as FX bits say; primary octets
// and subfields, each of which has a layout of its own. By the digit that a row has for it.
#[derive(Clone, Copy, Debug, PartialEq, Eq)]
pub enum Kind {
    NoItem = 0,
    Fixed = 1,
    Repeated = 2,
    Led = 3,
    Extended = 4,
    Compound = 5,
}

// A layout: how its parts lie; the least and the greatest number of parts; the place of its first group and the one past its last.
// The parts of an extended item have a group each, those of any other item share one. A compound item has no parts of its own: the places are
// those of its first primary octet and past its last.
#[derive(Clone, Copy)]
pub struct LayoutRow {
    pub kind: Kind,
    pub least: usize,
    pub most: usize,
    pub first: usize,
    pub end: usize,
}

// What a profile has at an FRN: the place of the layout, 0 where there is no item, and the number after the slash of the item's reference.
#[derive(Drop)]
pub struct PlaceRow {
    pub layout: usize,
    pub reference: u16,
}

// How many profiles there are, and how many places each has here: FRN 0 to 35, of which 0 and those past a profile's end have no item.
// ---- made by model/make.py: PROFILES, FRNS
pub const PROFILES: usize = 3;

pub const FRNS: usize = 36;
// ---- end of what is made

// ---- the tables: a row is one number, its columns set apart by `_`, so that a table is small; of RANGES and PLACES it is a struct

// Fields: bits _ what it holds _ the place of its range.
// ---- made by model/make.py: FIELDS
static FIELDS: [u16; 275] = [
    8_0_00, //  I017/010  5.2.2   SAC
    8_0_00, //  I017/010  5.2.2   SIC
    8_0_00, //  I017/012  5.2.3   SAC
    8_0_00, //  I017/012  5.2.3   SIC
    8_0_00, //  I017/000  5.2.1   message type
    8_0_00, //  I017/350  5.2.14  SAC
    8_0_00, //  I017/350  5.2.14  SIC
    24_0_01, // I017/220  5.2.10  aircraft address
    16_0_02, // I017/221  5.2.11  DRN
    24_0_03, // I017/140  5.2.7   time of day
    24_1_04, // I017/045  5.2.4   latitude
    24_1_05, // I017/045  5.2.4   longitude
    1_0_06, //  I017/070  5.2.6   V
    1_0_06, //  I017/070  5.2.6   G
    1_0_06, //  I017/070  5.2.6   L
    1_2_07, //  I017/070  5.2.6   spare
    12_0_08, // I017/070  5.2.6   Mode 3/A code
    1_0_06, //  I017/050  5.2.5   V
    1_0_06, //  I017/050  5.2.5   G
    14_1_09, // I017/050  5.2.5   altitude
    16_0_02, // I017/200  5.2.8   speed
    16_0_02, // I017/200  5.2.8   heading
    3_0_10, //  I017/230  5.2.12  CA
    1_0_06, //  I017/230  5.2.12  SI
    4_2_07, //  I017/230  5.2.12  spare
    1_0_06, //  I017/240  5.2.13  CST
    1_0_06, //  I017/240  5.2.13  FLT
    6_2_07, //  I017/240  5.2.13  spare
    24_0_01, // I017/210  5.2.9   Mode S address
    8_0_00, //  I017/360  5.2.15  cluster controller command state
    8_0_00, //  I018/036  5.2.34  SAC
    8_0_00, //  I018/036  5.2.34  SIC
    8_0_00, //  I018/037  5.2.35  SAC
    8_0_00, //  I018/037  5.2.35  SIC
    8_0_00, //  I018/000  5.2.1   message type
    4_0_11, //  I018/001  5.2.2   CAUSE
    4_0_11, //  I018/001  5.2.2   DIAG
    24_0_01, // I018/005  5.2.5   Mode S address
    32_0_12, // I018/016  5.2.16  packet number
    32_0_12, // I018/017  5.2.17  packet number
    1_2_07, //  I018/018  5.2.18  spare
    5_0_13, //  I018/018  5.2.18  PR
    2_0_14, //  I018/018  5.2.18  PT
    8_0_00, //  I018/019  5.2.19  an octet of the contents
    16_0_02, // I018/028  5.2.26  periodicity
    5_0_13, //  I018/030  5.2.28  priority
    3_2_07, //  I018/030  5.2.28  spare
    1_0_06, //  I018/030  5.2.28  PC
    1_0_06, //  I018/030  5.2.28  AU
    1_0_06, //  I018/030  5.2.28  NE
    2_0_14, //  I018/030  5.2.28  RD
    3_2_07, //  I018/030  5.2.28  spare
    32_0_12, // I018/025  5.2.24  GICB number
    8_0_00, //  I018/027  5.2.25  BDS code
    56_0_15, // I018/029  5.2.27  GICB extracted
    24_0_03, // I018/002  5.2.3   time of day
    24_0_01, // I018/006  5.2.6   Mode S address
    1_0_06, //  I018/007  5.2.7   UM
    1_0_06, //  I018/007  5.2.7   DM
    1_0_06, //  I018/007  5.2.7   UC
    1_0_06, //  I018/007  5.2.7   DC
    4_2_07, //  I018/007  5.2.7   spare
    1_0_06, //  I018/008  5.2.8   UDS
    1_0_06, //  I018/008  5.2.8   DDS
    1_0_06, //  I018/008  5.2.8   UCS
    1_0_06, //  I018/008  5.2.8   DCS
    2_2_07, //  I018/008  5.2.8   spare
    1_0_06, //  I018/008  5.2.8   EI
    1_0_06, //  I018/008  5.2.8   IC
    6_2_07, //  I018/008  5.2.8   spare
    1_0_06, //  I018/009  5.2.9   SR
    1_0_06, //  I018/009  5.2.9   AR
    1_0_06, //  I018/009  5.2.9   ER
    1_0_06, //  I018/009  5.2.9   FR
    1_0_06, //  I018/009  5.2.9   MR
    1_0_06, //  I018/009  5.2.9   PR
    1_0_06, //  I018/009  5.2.9   CR
    1_0_06, //  I018/009  5.2.9   ID
    1_0_06, //  I018/009  5.2.9   MA
    1_0_06, //  I018/009  5.2.9   SP
    1_0_06, //  I018/009  5.2.9   HG
    1_0_06, //  I018/009  5.2.9   HD
    2_2_07, //  I018/009  5.2.9   spare
    5_2_07, //  I018/010  5.2.10  spare
    3_0_10, //  I018/010  5.2.10  COM
    56_0_15, // I018/011  5.2.11  capability report
    16_0_02, // I018/014  5.2.14  RHO
    16_0_02, // I018/014  5.2.14  THETA
    16_1_16, // I018/015  5.2.15  X
    16_1_16, // I018/015  5.2.15  Y
    32_0_12, // I018/020  5.2.20  broadcast number
    4_0_11, //  I018/021  5.2.21  priority
    4_0_11, //  I018/021  5.2.21  power
    8_0_00, //  I018/021  5.2.21  duration
    32_0_12, // I018/021  5.2.21  coverage
    5_2_07, //  I018/022  5.2.22  spare
    27_0_17, // I018/022  5.2.22  prefix
    56_0_15, // I018/023  5.2.23  broadcast
    4_0_11, //  I018/004  5.2.4   former
    4_0_11, //  I018/004  5.2.4   current
    48_0_18, // I018/031  5.2.29  aircraft identity
    1_0_06, //  I018/032  5.2.30  V
    1_0_06, //  I018/032  5.2.30  G
    1_0_06, //  I018/032  5.2.30  L
    1_2_07, //  I018/032  5.2.30  spare
    12_0_08, // I018/032  5.2.30  Mode A code
    1_0_06, //  I018/033  5.2.31  V
    1_0_06, //  I018/033  5.2.31  G
    14_1_09, // I018/033  5.2.31  flight level
    16_0_19, // I018/034  5.2.32  speed
    16_0_02, // I018/035  5.2.33  heading
    1_0_06, //  I018/012  5.2.12  FS
    7_0_20, //  I018/012  5.2.12  CQF
    8_0_00, //  I018/013  5.2.13  CQF calculation method
    8_0_00, //  I061/010  5.2.2   SAC
    8_0_00, //  I061/010  5.2.2   SIC
    4_0_11, //  I061/000  5.2.1   family
    4_0_11, //  I061/000  5.2.1   nature
    8_0_00, //  I061/012  5.2.3   user identification
    8_0_00, //  I061/015  5.2.4   service identification
    24_0_03, // I061/020  5.2.5   time of message
    8_0_00, //  I061/030  5.2.6   batch number
    8_0_00, //  I061/045  5.2.7   application version number
    1_0_06, //  I061/050  5.2.8   DGA
    7_2_07, //  I061/050  5.2.8   spare
    32_1_21, // I061/060  5.2.9   latitude
    32_1_22, // I061/060  5.2.9   longitude
    16_1_23, // I061/070  5.2.10  lower limit
    16_1_23, // I061/080  5.2.11  upper limit
    8_0_00, //  I061/100  5.2.12  CODE
    1_2_07, //  I061/130  5.2.13  #1 spare
    15_0_24, // I061/130  5.2.13  #1 track number
    24_0_01, // I061/130  5.2.13  #2 aircraft address
    6_0_25, //  I061/130  5.2.13  #3 character 1
    6_0_25, //  I061/130  5.2.13  #3 character 2
    6_0_25, //  I061/130  5.2.13  #3 character 3
    6_0_25, //  I061/130  5.2.13  #3 character 4
    6_0_25, //  I061/130  5.2.13  #3 character 5
    6_0_25, //  I061/130  5.2.13  #3 character 6
    6_0_25, //  I061/130  5.2.13  #3 character 7
    6_0_25, //  I061/130  5.2.13  #3 character 8
    1_0_06, //  I061/130  5.2.13  #4 W1
    1_0_06, //  I061/130  5.2.13  #4 W2
    1_0_06, //  I061/130  5.2.13  #4 W3
    1_0_06, //  I061/130  5.2.13  #4 W4
    12_0_08, // I061/130  5.2.13  #4 Mode 3/A code
    8_0_00, //  I061/130  5.2.13  #5 character 1
    8_0_00, //  I061/130  5.2.13  #5 character 2
    8_0_00, //  I061/130  5.2.13  #5 character 3
    8_0_00, //  I061/130  5.2.13  #5 character 4
    8_0_00, //  I061/130  5.2.13  #6 character 1
    8_0_00, //  I061/130  5.2.13  #6 character 2
    8_0_00, //  I061/130  5.2.13  #6 character 3
    8_0_00, //  I061/130  5.2.13  #6 character 4
    8_0_00, //  I061/130  5.2.13  #7 character 1
    8_0_00, //  I061/130  5.2.13  #7 character 2
    8_0_00, //  I061/130  5.2.13  #7 character 3
    8_0_00, //  I061/130  5.2.13  #7 character 4
    8_0_00, //  I061/130  5.2.13  #8 centre
    8_0_00, //  I061/130  5.2.13  #8 position
    2_0_14, //  I061/130  5.2.13  #9 SIM
    1_0_06, //  I061/130  5.2.13  #9 CSR
    1_0_06, //  I061/130  5.2.13  #9 PSR
    1_0_06, //  I061/130  5.2.13  #9 SSR
    1_0_06, //  I061/130  5.2.13  #9 MDS
    1_0_06, //  I061/130  5.2.13  #9 ADS
    2_0_14, //  I061/130  5.2.13  #9 VALT
    2_0_14, //  I061/130  5.2.13  #9 FPC
    1_0_06, //  I061/130  5.2.13  #9 CNF
    1_0_06, //  I061/130  5.2.13  #9 SPI
    1_2_07, //  I061/130  5.2.13  #9 spare
    2_0_14, //  I061/130  5.2.13  #9 GAT/OAT
    1_0_06, //  I061/130  5.2.13  #9 IFR
    1_0_06, //  I061/130  5.2.13  #9 VFR
    1_0_06, //  I061/130  5.2.13  #9 CFR
    2_0_14, //  I061/130  5.2.13  #9 RVSM
    2_0_14, //  I061/130  5.2.13  #9 FRI/FOE
    1_0_06, //  I061/130  5.2.13  #9 ME
    1_0_06, //  I061/130  5.2.13  #9 MI
    7_2_07, //  I061/130  5.2.13  #9 spare
    1_0_06, //  I061/210  5.2.14  N1
    1_0_06, //  I061/210  5.2.14  N2
    1_0_06, //  I061/210  5.2.14  N3
    1_0_06, //  I061/210  5.2.14  N4
    1_0_06, //  I061/210  5.2.14  N5
    1_0_06, //  I061/210  5.2.14  N6
    1_0_06, //  I061/210  5.2.14  N7
    1_0_06, //  I061/210  5.2.14  N8
    1_0_06, //  I061/210  5.2.14  N9
    1_0_06, //  I061/210  5.2.14  N10
    1_0_06, //  I061/210  5.2.14  N11
    1_0_06, //  I061/210  5.2.14  N12
    1_0_06, //  I061/210  5.2.14  N13
    1_0_06, //  I061/210  5.2.14  N14
    1_0_06, //  I061/210  5.2.14  N15
    1_0_06, //  I061/210  5.2.14  N16
    1_0_06, //  I061/210  5.2.14  N17
    1_0_06, //  I061/210  5.2.14  N18
    1_0_06, //  I061/210  5.2.14  N19
    1_0_06, //  I061/210  5.2.14  N20
    1_0_06, //  I061/210  5.2.14  N21
    1_0_06, //  I061/210  5.2.14  N22
    1_0_06, //  I061/210  5.2.14  N23
    1_0_06, //  I061/210  5.2.14  N24
    1_0_06, //  I061/210  5.2.14  N25
    1_0_06, //  I061/210  5.2.14  N26
    1_0_06, //  I061/210  5.2.14  N27
    1_0_06, //  I061/210  5.2.14  N28
    2_0_14, //  I061/220  5.2.15  SD
    6_0_25, //  I061/220  5.2.15  scanning period
    4_0_11, //  I061/220  5.2.15  batch period
    12_0_08, // I061/220  5.2.15  update period
    2_2_07, //  I061/220  5.2.15  spare
    6_0_25, //  I061/220  5.2.15  extra delay
    8_0_00, //  I061/220  5.2.15  MAXFLOW
    8_0_00, //  I061/230  5.2.16  MSAC
    8_0_00, //  I061/230  5.2.16  MSIC
    1_0_06, //  I061/230  5.2.16  NOP
    6_2_07, //  I061/230  5.2.16  spare
    8_0_00, //  I061/230  5.2.16  BSAC
    8_0_00, //  I061/230  5.2.16  BSIC
    7_2_07, //  I061/230  5.2.16  spare
    1_0_06, //  I061/240  5.2.17  #1 TLF
    1_0_06, //  I061/240  5.2.17  #1 TNB
    1_2_07, //  I061/240  5.2.17  #1 spare
    1_0_06, //  I061/240  5.2.17  #1 PLN
    1_0_06, //  I061/240  5.2.17  #1 M3A
    1_0_06, //  I061/240  5.2.17  #1 COR
    1_0_06, //  I061/240  5.2.17  #1 SPE
    1_0_06, //  I061/240  5.2.17  #1 MOF
    8_0_00, //  I061/240  5.2.17  #3 RCT
    8_0_00, //  I061/240  5.2.17  #4 PT
    8_0_00, //  I061/240  5.2.17  #5 RTT
    8_0_00, //  I061/240  5.2.17  #6 TAT
    8_0_00, //  I061/240  5.2.17  #7 GST
    8_0_00, //  I061/240  5.2.17  #8 LAT
    8_0_00, //  I061/240  5.2.17  #9 AT
    8_0_00, //  I061/240  5.2.17  #10 FK
    8_0_00, //  I061/240  5.2.17  #11 RP
    8_0_00, //  I061/240  5.2.17  #12 MNP
    16_0_02, // I061/330  5.2.18  CODE
    8_0_00, //  I061/350  5.2.19  SAC
    8_0_00, //  I061/350  5.2.19  SIC
    1_0_06, //  I061/360  5.2.20  N1
    1_0_06, //  I061/360  5.2.20  N2
    1_0_06, //  I061/360  5.2.20  N3
    1_0_06, //  I061/360  5.2.20  N4
    1_0_06, //  I061/360  5.2.20  N5
    1_0_06, //  I061/360  5.2.20  N6
    1_0_06, //  I061/360  5.2.20  N7
    1_0_06, //  I061/360  5.2.20  N8
    1_0_06, //  I061/360  5.2.20  N9
    1_0_06, //  I061/360  5.2.20  N10
    1_0_06, //  I061/360  5.2.20  N11
    1_0_06, //  I061/360  5.2.20  N12
    1_0_06, //  I061/360  5.2.20  N13
    1_0_06, //  I061/360  5.2.20  N14
    1_0_06, //  I061/360  5.2.20  N15
    1_0_06, //  I061/360  5.2.20  N16
    1_0_06, //  I061/360  5.2.20  N17
    1_0_06, //  I061/360  5.2.20  N18
    1_0_06, //  I061/360  5.2.20  N19
    1_0_06, //  I061/360  5.2.20  N20
    1_0_06, //  I061/360  5.2.20  N21
    16_0_02, // I061/370  5.2.21  update period
    16_0_26, // I061/380  5.2.22  #1 refresh period
    1_0_06, //  I061/380  5.2.22  #2 SSC
    7_2_07, //  I061/380  5.2.22  #2 spare
    16_0_02, // I061/380  5.2.22  #3 TSB
    16_0_02, // I061/380  5.2.22  #4 SRB
    16_0_02, // I061/380  5.2.22  #5 SGB
    16_0_02, // I061/380  5.2.22  #6 SAB
    16_0_02, // I061/380  5.2.22  #7 PRB
    16_0_02, // I061/380  5.2.22  #8 PGB
    16_0_02, // I061/380  5.2.22  #9 PAB
];
// ---- end of what is made

// Ranges: the least value, and the greatest.
#[derive(Clone, Copy)]
struct Range(i64, i64);

// ---- made by model/make.py: RANGES
static RANGES: [Range; 27] = [
    Range(0, 255), //               8 bits
    Range(0, 16777215), //          24 bits
    Range(0, 65535), //             16 bits
    Range(0, 11059199), //          I017/140  5.2.7   time of day
    Range(-4194304, 4194303), //    two's complement in 24 bits, I017/045  5.2.4   latitude
    Range(-8388608, 8388607), //    two's complement in 24 bits
    Range(0, 1), //                 1 bits
    Range(0, 0), //                 spare
    Range(0, 4095), //              12 bits
    Range(-8192, 8191), //          two's complement in 14 bits
    Range(0, 7), //                 3 bits
    Range(0, 15), //                4 bits
    Range(0, 4294967295), //        32 bits
    Range(0, 31), //                5 bits
    Range(0, 3), //                 2 bits
    Range(0, 72057594037927935), // 56 bits
    Range(-32768, 32767), //        two's complement in 16 bits
    Range(0, 134217727), //         27 bits
    Range(0, 281474976710655), //   48 bits
    Range(0, 32768), //             I018/034  5.2.32  speed
    Range(0, 127), //               7 bits
    Range(-16777216, 16777216), //  two's complement in 32 bits, I061/060  5.2.9   latitude
    Range(-33554432, 33554432), //  two's complement in 32 bits, I061/060  5.2.9   longitude
    Range(-60, 6000), //            two's complement in 16 bits, I061/070  5.2.10  lower limit
    Range(0, 32767), //             15 bits
    Range(0, 63), //                6 bits
    Range(4, 3600), //              I061/380  5.2.22  #1 refresh period
];
// ---- end of what is made

// Groups: octets _ place of the first field _ how many fields _ how many values _ whether it is free.
// ---- made by model/make.py: GROUPS
static GROUPS: [u32; 106] = [
    2_000_02_02_1, // I017/010  5.2.2   Data Source Identifier
    2_002_02_02_1, // I017/012  5.2.3   Data Destination Identifier
    1_004_01_01_1, // I017/000  5.2.1   Message Type
    2_005_02_02_1, // I017/350  5.2.14  Cluster Station/Node List
    3_007_01_01_1, // I017/220  5.2.10  Aircraft Address
    2_008_01_01_1, // I017/221  5.2.11  Duplicate Address Reference Number
    3_009_01_01_0, // I017/140  5.2.7   Time of Day
    6_010_02_02_0, // I017/045  5.2.4   Calculated Position in WGS-84 Coordinates
    2_012_05_04_0, // I017/070  5.2.6   Mode 3/A Code in Octal Representation
    2_017_03_03_1, // I017/050  5.2.5   Flight Level in Binary Representation
    4_020_02_02_1, // I017/200  5.2.8   Track Velocity in Polar Co-ordinates
    1_022_03_02_0, // I017/230  5.2.12  Transponder Capability
    1_025_03_02_0, // I017/240  5.2.13  Track Status
    3_028_01_01_1, // I017/210  5.2.9   Mode S Address List
    1_029_01_01_1, // I017/360  5.2.15  Cluster Controller Command State
    2_030_02_02_1, // I018/036  5.2.34  Data Source Identifier
    2_032_02_02_1, // I018/037  5.2.35  Data Destination Identifier
    1_034_01_01_1, // I018/000  5.2.1   Message Type
    1_035_02_02_1, // I018/001  5.2.2   Result
    3_037_01_01_1, // I018/005  5.2.5   Mode S Address
    4_038_01_01_1, // I018/016  5.2.16  Packet Number
    4_039_01_01_1, // I018/017  5.2.17  Packet Number List
    1_040_03_02_0, // I018/018  5.2.18  Mode S Packet Properties
    1_043_01_01_1, // I018/019  5.2.19  Mode S Packet
    2_044_01_01_1, // I018/028  5.2.26  GICB Extraction Periodicity
    2_045_07_05_0, // I018/030  5.2.28  GICB Properties
    4_052_01_01_1, // I018/025  5.2.24  GICB Number
    1_053_01_01_1, // I018/027  5.2.25  BDS Code
    7_054_01_01_1, // I018/029  5.2.27  GICB Extracted
    3_055_01_01_0, // I018/002  5.2.3   Time of Day
    3_056_01_01_1, // I018/006  5.2.6   Mode S Address List
    1_057_05_04_0, // I018/007  5.2.7   Aircraft Data Link Command
    1_062_06_05_0, // I018/008  5.2.8   Aircraft Data Link Status, first part
    1_068_02_01_0, // I018/008  5.2.8   Aircraft Data Link Status, extent 1
    1_070_07_07_1, // I018/009  5.2.9   Aircraft Data Link Report Request, first part
    1_077_06_05_0, // I018/009  5.2.9   Aircraft Data Link Report Request, extent 1
    1_083_02_01_0, // I018/010  5.2.10  Transponder Communications Capability
    7_085_01_01_1, // I018/011  5.2.11  Capability Report
    4_086_02_02_1, // I018/014  5.2.14  Aircraft Position in Polar Co-ordinates
    4_088_02_02_1, // I018/015  5.2.15  Aircraft Position in Cartesian Co-ordinates
    4_090_01_01_1, // I018/020  5.2.20  Broadcast Number
    6_091_04_04_1, // I018/021  5.2.21  Broadcast Properties
    4_095_02_01_0, // I018/022  5.2.22  Broadcast Prefix
    7_097_01_01_1, // I018/023  5.2.23  Uplink or Downlink Broadcast
    1_098_02_02_1, // I018/004  5.2.4   II Code
    6_100_01_01_1, // I018/031  5.2.29  Aircraft Identity
    2_101_05_04_0, // I018/032  5.2.30  Aircraft Mode A
    2_106_03_03_1, // I018/033  5.2.31  Aircraft Height
    2_109_01_01_0, // I018/034  5.2.32  Aircraft Speed
    2_110_01_01_1, // I018/035  5.2.33  Aircraft Heading
    1_111_02_02_1, // I018/012  5.2.12  Aircraft Coverage Quality Factor
    1_113_01_01_1, // I018/013  5.2.13  Aircraft CQF Calculation Method
    2_114_02_02_1, // I061/010  5.2.2   SDPS Identification
    1_116_02_02_1, // I061/000  5.2.1   Message Type
    1_118_01_01_1, // I061/012  5.2.3   User Identification
    1_119_01_01_1, // I061/015  5.2.4   Service Identification
    3_120_01_01_0, // I061/020  5.2.5   Time of Message
    1_121_01_01_1, // I061/030  5.2.6   Batch Number
    1_122_01_01_1, // I061/045  5.2.7   Application Version Number
    1_123_02_01_0, // I061/050  5.2.8   Default Geographical Volume
    8_125_02_02_0, // I061/060  5.2.9   Geographical Area
    2_127_01_01_0, // I061/070  5.2.10  Lower Limit
    2_128_01_01_0, // I061/080  5.2.11  Upper Limit
    1_129_01_01_1, // I061/100  5.2.12  Connection Related Report
    2_130_02_01_0, // I061/130  5.2.13  #1 Track Number Selector
    3_132_01_01_1, // I061/130  5.2.13  #2 Aircraft Address Selector
    6_133_08_08_1, // I061/130  5.2.13  #3 Aircraft Identification Selector
    2_141_05_05_1, // I061/130  5.2.13  #4 Code Family Selector
    4_146_04_04_1, // I061/130  5.2.13  #5 Departure Airport Selector
    4_150_04_04_1, // I061/130  5.2.13  #6 Destination Airport Selector
    4_154_04_04_1, // I061/130  5.2.13  #7 Aircraft Type Selector
    2_158_02_02_1, // I061/130  5.2.13  #8 Current Control Position Selector
    4_160_20_18_0, // I061/130  5.2.13  #9 Track/Flight Categories Selector
    1_180_07_07_1, // I061/210  5.2.14  Item Selector, first part
    1_187_07_07_1, // I061/210  5.2.14  Item Selector, extent 1
    1_194_07_07_1, // I061/210  5.2.14  Item Selector, extent 2
    1_201_07_07_1, // I061/210  5.2.14  Item Selector, extent 3
    5_208_07_06_0, // I061/220  5.2.15  Cyclical Update Characteristics
    3_215_04_03_0, // I061/230  5.2.16  Radar Synchronisation Characteristics, first part
    3_219_03_02_0, // I061/230  5.2.16  Radar Synchronisation Characteristics, extent 1
    1_222_08_07_0, // I061/240  5.2.17  #1 Discrete Parameters Flags
    1_230_01_01_1, // I061/240  5.2.17  #3 Rate of Climb/Descent Threshold
    1_231_01_01_1, // I061/240  5.2.17  #4 Position Threshold
    1_232_01_01_1, // I061/240  5.2.17  #5 Rate of Turn Threshold
    1_233_01_01_1, // I061/240  5.2.17  #6 Track Angle Threshold
    1_234_01_01_1, // I061/240  5.2.17  #7 Ground Speed Threshold
    1_235_01_01_1, // I061/240  5.2.17  #8 Longitudinal Acceleration Threshold
    1_236_01_01_1, // I061/240  5.2.17  #9 Altitude Threshold
    1_237_01_01_1, // I061/240  5.2.17  #10 Factor K
    1_238_01_01_1, // I061/240  5.2.17  #11 Refreshment Period
    1_239_01_01_1, // I061/240  5.2.17  #12 Minimal Period
    2_240_01_01_1, // I061/330  5.2.18  Service Related Report
    2_241_02_02_1, // I061/350  5.2.19  Sensor Selector
    1_243_07_07_1, // I061/360  5.2.20  Sensor Item Selector, first part
    1_250_07_07_1, // I061/360  5.2.20  Sensor Item Selector, extent 1
    1_257_07_07_1, // I061/360  5.2.20  Sensor Item Selector, extent 2
    2_264_01_01_1, // I061/370  5.2.21  Periodical Characteristics of Sensor Information Service
    2_265_01_01_0, // I061/380  5.2.22  #1 Refresh Period
    1_266_02_01_0, // I061/380  5.2.22  #2 Discrete Parameters
    2_268_01_01_1, // I061/380  5.2.22  #3 Time Stamping Bias Change Threshold
    2_269_01_01_1, // I061/380  5.2.22  #4 SSR Range Bias Change Threshold
    2_270_01_01_1, // I061/380  5.2.22  #5 SSR Range Gain Change Threshold
    2_271_01_01_1, // I061/380  5.2.22  #6 SSR Azimuth Bias Change Threshold
    2_272_01_01_1, // I061/380  5.2.22  #7 PSR Range Bias Change Threshold
    2_273_01_01_1, // I061/380  5.2.22  #8 PSR Range Gain Change Threshold
    2_274_01_01_1, // I061/380  5.2.22  #9 PSR Azimuth Bias Change Threshold
];
// ---- end of what is made

// Layouts: how the parts lie _ the least _ and the greatest number of parts _ place of the first group _ how many groups.
// ---- made by model/make.py: LAYOUTS
static LAYOUTS: [u32; 102] = [
    0, //             no item
    1_1_001_000_1, // I017/010  5.2.2   Data Source Identifier
    1_1_001_001_1, // I017/012  5.2.3   Data Destination Identifier
    1_1_001_002_1, // I017/000  5.2.1   Message Type
    2_1_255_003_1, // I017/350  5.2.14  Cluster Station/Node List
    1_1_001_004_1, // I017/220  5.2.10  Aircraft Address
    1_1_001_005_1, // I017/221  5.2.11  Duplicate Address Reference Number
    1_1_001_006_1, // I017/140  5.2.7   Time of Day
    1_1_001_007_1, // I017/045  5.2.4   Calculated Position in WGS-84 Coordinates
    1_1_001_008_1, // I017/070  5.2.6   Mode 3/A Code in Octal Representation
    1_1_001_009_1, // I017/050  5.2.5   Flight Level in Binary Representation
    1_1_001_010_1, // I017/200  5.2.8   Track Velocity in Polar Co-ordinates
    1_1_001_011_1, // I017/230  5.2.12  Transponder Capability
    1_1_001_012_1, // I017/240  5.2.13  Track Status
    2_0_255_013_1, // I017/210  5.2.9   Mode S Address List
    1_1_001_014_1, // I017/360  5.2.15  Cluster Controller Command State
    1_1_001_015_1, // I018/036  5.2.34  Data Source Identifier
    1_1_001_016_1, // I018/037  5.2.35  Data Destination Identifier
    1_1_001_017_1, // I018/000  5.2.1   Message Type
    1_1_001_018_1, // I018/001  5.2.2   Result
    1_1_001_019_1, // I018/005  5.2.5   Mode S Address
    1_1_001_020_1, // I018/016  5.2.16  Packet Number
    2_1_255_021_1, // I018/017  5.2.17  Packet Number List
    1_1_001_022_1, // I018/018  5.2.18  Mode S Packet Properties
    3_2_254_023_1, // I018/019  5.2.19  Mode S Packet
    1_1_001_024_1, // I018/028  5.2.26  GICB Extraction Periodicity
    1_1_001_025_1, // I018/030  5.2.28  GICB Properties
    1_1_001_026_1, // I018/025  5.2.24  GICB Number
    1_1_001_027_1, // I018/027  5.2.25  BDS Code
    1_1_001_028_1, // I018/029  5.2.27  GICB Extracted
    1_1_001_029_1, // I018/002  5.2.3   Time of Day
    2_1_255_030_1, // I018/006  5.2.6   Mode S Address List
    1_1_001_031_1, // I018/007  5.2.7   Aircraft Data Link Command
    4_1_002_032_2, // I018/008  5.2.8   Aircraft Data Link Status
    4_1_002_034_2, // I018/009  5.2.9   Aircraft Data Link Report Request
    1_1_001_036_1, // I018/010  5.2.10  Transponder Communications Capability
    1_1_001_037_1, // I018/011  5.2.11  Capability Report
    1_1_001_038_1, // I018/014  5.2.14  Aircraft Position in Polar Co-ordinates
    1_1_001_039_1, // I018/015  5.2.15  Aircraft Position in Cartesian Co-ordinates
    1_1_001_040_1, // I018/020  5.2.20  Broadcast Number
    1_1_001_041_1, // I018/021  5.2.21  Broadcast Properties
    1_1_001_042_1, // I018/022  5.2.22  Broadcast Prefix
    1_1_001_043_1, // I018/023  5.2.23  Uplink or Downlink Broadcast
    1_1_001_044_1, // I018/004  5.2.4   II Code
    1_1_001_045_1, // I018/031  5.2.29  Aircraft Identity
    1_1_001_046_1, // I018/032  5.2.30  Aircraft Mode A
    1_1_001_047_1, // I018/033  5.2.31  Aircraft Height
    1_1_001_048_1, // I018/034  5.2.32  Aircraft Speed
    1_1_001_049_1, // I018/035  5.2.33  Aircraft Heading
    1_1_001_050_1, // I018/012  5.2.12  Aircraft Coverage Quality Factor
    1_1_001_051_1, // I018/013  5.2.13  Aircraft CQF Calculation Method
    1_1_001_052_1, // I061/010  5.2.2   SDPS Identification
    1_1_001_053_1, // I061/000  5.2.1   Message Type
    1_1_001_054_1, // I061/012  5.2.3   User Identification
    1_1_001_055_1, // I061/015  5.2.4   Service Identification
    1_1_001_056_1, // I061/020  5.2.5   Time of Message
    1_1_001_057_1, // I061/030  5.2.6   Batch Number
    1_1_001_058_1, // I061/045  5.2.7   Application Version Number
    1_1_001_059_1, // I061/050  5.2.8   Default Geographical Volume
    2_3_255_060_1, // I061/060  5.2.9   Geographical Area
    1_1_001_061_1, // I061/070  5.2.10  Lower Limit
    1_1_001_062_1, // I061/080  5.2.11  Upper Limit
    2_1_255_063_1, // I061/100  5.2.12  Connection Related Report
    5_0_000_000_2, // I061/130  5.2.13  Track Selector
    2_0_255_064_1, // I061/130  5.2.13  #1 Track Number Selector
    2_0_255_065_1, // I061/130  5.2.13  #2 Aircraft Address Selector
    2_0_255_066_1, // I061/130  5.2.13  #3 Aircraft Identification Selector
    2_0_255_067_1, // I061/130  5.2.13  #4 Code Family Selector
    2_0_255_068_1, // I061/130  5.2.13  #5 Departure Airport Selector
    2_0_255_069_1, // I061/130  5.2.13  #6 Destination Airport Selector
    2_0_255_070_1, // I061/130  5.2.13  #7 Aircraft Type Selector
    2_0_255_071_1, // I061/130  5.2.13  #8 Current Control Position Selector
    1_1_001_072_1, // I061/130  5.2.13  #9 Track/Flight Categories Selector
    4_1_004_073_4, // I061/210  5.2.14  Item Selector
    1_1_001_077_1, // I061/220  5.2.15  Cyclical Update Characteristics
    4_1_002_078_2, // I061/230  5.2.16  Radar Synchronisation Characteristics
    5_0_000_002_2, // I061/240  5.2.17  Triggering Criteria for Aperiodical Services
    1_1_001_080_1, // I061/240  5.2.17  #1 Discrete Parameters Flags
    1_1_001_081_1, // I061/240  5.2.17  #3 Rate of Climb/Descent Threshold
    1_1_001_082_1, // I061/240  5.2.17  #4 Position Threshold
    1_1_001_083_1, // I061/240  5.2.17  #5 Rate of Turn Threshold
    1_1_001_084_1, // I061/240  5.2.17  #6 Track Angle Threshold
    1_1_001_085_1, // I061/240  5.2.17  #7 Ground Speed Threshold
    1_1_001_086_1, // I061/240  5.2.17  #8 Longitudinal Acceleration Threshold
    1_1_001_087_1, // I061/240  5.2.17  #9 Altitude Threshold
    1_1_001_088_1, // I061/240  5.2.17  #10 Factor K
    1_1_001_089_1, // I061/240  5.2.17  #11 Refreshment Period
    1_1_001_090_1, // I061/240  5.2.17  #12 Minimal Period
    2_0_255_091_1, // I061/330  5.2.18  Service Related Report
    2_0_030_092_1, // I061/350  5.2.19  Sensor Selector
    4_1_003_093_3, // I061/360  5.2.20  Sensor Item Selector
    1_1_001_096_1, // I061/370  5.2.21  Periodical Characteristics of Sensor Information Service
    5_0_000_004_2, // I061/380  5.2.22  Aperiodical Characteristics of Sensor Information Service
    1_1_001_097_1, // I061/380  5.2.22  #1 Refresh Period
    1_1_001_098_1, // I061/380  5.2.22  #2 Discrete Parameters
    1_1_001_099_1, // I061/380  5.2.22  #3 Time Stamping Bias Change Threshold
    1_1_001_100_1, // I061/380  5.2.22  #4 SSR Range Bias Change Threshold
    1_1_001_101_1, // I061/380  5.2.22  #5 SSR Range Gain Change Threshold
    1_1_001_102_1, // I061/380  5.2.22  #6 SSR Azimuth Bias Change Threshold
    1_1_001_103_1, // I061/380  5.2.22  #7 PSR Range Bias Change Threshold
    1_1_001_104_1, // I061/380  5.2.22  #8 PSR Range Gain Change Threshold
    1_1_001_105_1, // I061/380  5.2.22  #9 PSR Azimuth Bias Change Threshold
];
// ---- end of what is made

// Places: the place of the layout, and the number after the slash of the reference.
#[derive(Clone, Copy)]
struct Place(u8, u16);

// ---- made by model/make.py: PLACES
static PLACES: [Place; 108] = [
    Place(0, 0), //    FRN 0   no item
    Place(1, 10), //   FRN 1   I017/010  5.2.2   Data Source Identifier
    Place(2, 12), //   FRN 2   I017/012  5.2.3   Data Destination Identifier
    Place(3, 0), //    FRN 3   I017/000  5.2.1   Message Type
    Place(4, 350), //  FRN 4   I017/350  5.2.14  Cluster Station/Node List
    Place(5, 220), //  FRN 5   I017/220  5.2.10  Aircraft Address
    Place(6, 221), //  FRN 6   I017/221  5.2.11  Duplicate Address Reference Number
    Place(7, 140), //  FRN 7   I017/140  5.2.7   Time of Day
    Place(8, 45), //   FRN 8   I017/045  5.2.4   Calculated Position in WGS-84 Coordinates
    Place(9, 70), //   FRN 9   I017/070  5.2.6   Mode 3/A Code in Octal Representation
    Place(10, 50), //  FRN 10  I017/050  5.2.5   Flight Level in Binary Representation
    Place(11, 200), // FRN 11  I017/200  5.2.8   Track Velocity in Polar Co-ordinates
    Place(12, 230), // FRN 12  I017/230  5.2.12  Transponder Capability
    Place(13, 240), // FRN 13  I017/240  5.2.13  Track Status
    Place(14, 210), // FRN 14  I017/210  5.2.9   Mode S Address List
    Place(15, 360), // FRN 15  I017/360  5.2.15  Cluster Controller Command State
    Place(0, 0), //    FRN 16  spare
    Place(0, 0), //    FRN 17  spare
    Place(0, 0), //    FRN 18  spare
    Place(0, 0), //    FRN 19  spare
    Place(0, 0), //    FRN 20  spare
    Place(0, 0), //    FRN 21  reserved for Special Purpose Indicator
    Place(0, 0), //    FRN 22  past the end of the profile
    Place(0, 0), //    FRN 23  past the end of the profile
    Place(0, 0), //    FRN 24  past the end of the profile
    Place(0, 0), //    FRN 25  past the end of the profile
    Place(0, 0), //    FRN 26  past the end of the profile
    Place(0, 0), //    FRN 27  past the end of the profile
    Place(0, 0), //    FRN 28  past the end of the profile
    Place(0, 0), //    FRN 29  past the end of the profile
    Place(0, 0), //    FRN 30  past the end of the profile
    Place(0, 0), //    FRN 31  past the end of the profile
    Place(0, 0), //    FRN 32  past the end of the profile
    Place(0, 0), //    FRN 33  past the end of the profile
    Place(0, 0), //    FRN 34  past the end of the profile
    Place(0, 0), //    FRN 35  past the end of the profile
    Place(0, 0), //    FRN 0   no item
    Place(16, 36), //  FRN 1   I018/036  5.2.34  Data Source Identifier
    Place(17, 37), //  FRN 2   I018/037  5.2.35  Data Destination Identifier
    Place(18, 0), //   FRN 3   I018/000  5.2.1   Message Type
    Place(19, 1), //   FRN 4   I018/001  5.2.2   Result
    Place(20, 5), //   FRN 5   I018/005  5.2.5   Mode S Address
    Place(21, 16), //  FRN 6   I018/016  5.2.16  Packet Number
    Place(22, 17), //  FRN 7   I018/017  5.2.17  Packet Number List
    Place(23, 18), //  FRN 8   I018/018  5.2.18  Mode S Packet Properties
    Place(24, 19), //  FRN 9   I018/019  5.2.19  Mode S Packet
    Place(25, 28), //  FRN 10  I018/028  5.2.26  GICB Extraction Periodicity
    Place(26, 30), //  FRN 11  I018/030  5.2.28  GICB Properties
    Place(27, 25), //  FRN 12  I018/025  5.2.24  GICB Number
    Place(28, 27), //  FRN 13  I018/027  5.2.25  BDS Code
    Place(29, 29), //  FRN 14  I018/029  5.2.27  GICB Extracted
    Place(30, 2), //   FRN 15  I018/002  5.2.3   Time of Day
    Place(31, 6), //   FRN 16  I018/006  5.2.6   Mode S Address List
    Place(32, 7), //   FRN 17  I018/007  5.2.7   Aircraft Data Link Command
    Place(33, 8), //   FRN 18  I018/008  5.2.8   Aircraft Data Link Status
    Place(34, 9), //   FRN 19  I018/009  5.2.9   Aircraft Data Link Report Request
    Place(35, 10), //  FRN 20  I018/010  5.2.10  Transponder Communications Capability
    Place(36, 11), //  FRN 21  I018/011  5.2.11  Capability Report
    Place(37, 14), //  FRN 22  I018/014  5.2.14  Aircraft Position in Polar Co-ordinates
    Place(38, 15), //  FRN 23  I018/015  5.2.15  Aircraft Position in Cartesian Co-ordinates
    Place(39, 20), //  FRN 24  I018/020  5.2.20  Broadcast Number
    Place(40, 21), //  FRN 25  I018/021  5.2.21  Broadcast Properties
    Place(41, 22), //  FRN 26  I018/022  5.2.22  Broadcast Prefix
    Place(42, 23), //  FRN 27  I018/023  5.2.23  Uplink or Downlink Broadcast
    Place(43, 4), //   FRN 28  I018/004  5.2.4   II Code
    Place(44, 31), //  FRN 29  I018/031  5.2.29  Aircraft Identity
    Place(45, 32), //  FRN 30  I018/032  5.2.30  Aircraft Mode A
    Place(46, 33), //  FRN 31  I018/033  5.2.31  Aircraft Height
    Place(47, 34), //  FRN 32  I018/034  5.2.32  Aircraft Speed
    Place(48, 35), //  FRN 33  I018/035  5.2.33  Aircraft Heading
    Place(49, 12), //  FRN 34  I018/012  5.2.12  Aircraft Coverage Quality Factor
    Place(50, 13), //  FRN 35  I018/013  5.2.13  Aircraft CQF Calculation Method
    Place(0, 0), //    FRN 0   no item
    Place(51, 10), //  FRN 1   I061/010  5.2.2   SDPS Identification
    Place(52, 0), //   FRN 2   I061/000  5.2.1   Message Type
    Place(53, 12), //  FRN 3   I061/012  5.2.3   User Identification
    Place(54, 15), //  FRN 4   I061/015  5.2.4   Service Identification
    Place(55, 20), //  FRN 5   I061/020  5.2.5   Time of Message
    Place(56, 30), //  FRN 6   I061/030  5.2.6   Batch Number
    Place(57, 45), //  FRN 7   I061/045  5.2.7   Application Version Number
    Place(58, 50), //  FRN 8   I061/050  5.2.8   Default Geographical Volume
    Place(59, 60), //  FRN 9   I061/060  5.2.9   Geographical Area
    Place(60, 70), //  FRN 10  I061/070  5.2.10  Lower Limit
    Place(61, 80), //  FRN 11  I061/080  5.2.11  Upper Limit
    Place(62, 100), // FRN 12  I061/100  5.2.12  Connection Related Report
    Place(63, 130), // FRN 13  I061/130  5.2.13  Track Selector
    Place(73, 210), // FRN 14  I061/210  5.2.14  Item Selector
    Place(74, 220), // FRN 15  I061/220  5.2.15  Cyclical Update Characteristics
    Place(75, 230), // FRN 16  I061/230  5.2.16  Radar Synchronisation Characteristics
    Place(76, 240), // FRN 17  I061/240  5.2.17  Triggering Criteria for Aperiodical Services
    Place(88, 330), // FRN 18  I061/330  5.2.18  Service Related Report
    Place(89, 350), // FRN 19  I061/350  5.2.19  Sensor Selector
    Place(90, 360), // FRN 20  I061/360  5.2.20  Sensor Item Selector
    Place(91, 370), // FRN 21  I061/370  5.2.21  Periodical Characteristics of Sensor Information Service
    Place(92, 380), // FRN 22  I061/380  5.2.22  Aperiodical Characteristics of Sensor Information Service
    Place(0, 0), //    FRN 23  no item is printed
    Place(0, 0), //    FRN 24  no item is printed
    Place(0, 0), //    FRN 25  no item is printed
    Place(0, 0), //    FRN 26  no item is printed
    Place(0, 0), //    FRN 27  Reserved Expansion Field
    Place(0, 0), //    FRN 28  Special Purpose Field
    Place(0, 0), //    FRN 29  past the end of the profile
    Place(0, 0), //    FRN 30  past the end of the profile
    Place(0, 0), //    FRN 31  past the end of the profile
    Place(0, 0), //    FRN 32  past the end of the profile
    Place(0, 0), //    FRN 33  past the end of the profile
    Place(0, 0), //    FRN 34  past the end of the profile
    Place(0, 0), //    FRN 35  past the end of the profile
];
// ---- end of what is made

// Primary octets of compound items: the bits that have a subfield, FX apart.
// ---- made by model/make.py: PRIMARIES
static PRIMARIES: [u8; 6] = [
    0xFE, // I061/130  5.2.13  octet 1: #1, #2, #3, #4, #5, #6, #7
    0xC0, // I061/130  5.2.13  octet 2: #8, #9
    0xBE, // I061/240  5.2.17  octet 1: #1, #3, #4, #5, #6, #7
    0xF8, // I061/240  5.2.17  octet 2: #8, #9, #10, #11, #12
    0xFE, // I061/380  5.2.22  octet 1: #1, #2, #3, #4, #5, #6, #7
    0xC0, // I061/380  5.2.22  octet 2: #8, #9
];
// ---- end of what is made

// Subfields: for each bit of each primary octet, from the highest down, the place of the layout, 0 where it has none.
// ---- made by model/make.py: SUBFIELDS
static SUBFIELDS: [u8; 42] = [
    64, //  I061/130  5.2.13  octet 1, bit 8  #1 Track Number Selector
    65, //  I061/130  5.2.13  octet 1, bit 7  #2 Aircraft Address Selector
    66, //  I061/130  5.2.13  octet 1, bit 6  #3 Aircraft Identification Selector
    67, //  I061/130  5.2.13  octet 1, bit 5  #4 Code Family Selector
    68, //  I061/130  5.2.13  octet 1, bit 4  #5 Departure Airport Selector
    69, //  I061/130  5.2.13  octet 1, bit 3  #6 Destination Airport Selector
    70, //  I061/130  5.2.13  octet 1, bit 2  #7 Aircraft Type Selector
    71, //  I061/130  5.2.13  octet 2, bit 8  #8 Current Control Position Selector
    72, //  I061/130  5.2.13  octet 2, bit 7  #9 Track/Flight Categories Selector
    0, //   I061/130  5.2.13  octet 2, bit 6  none
    0, //   I061/130  5.2.13  octet 2, bit 5  none
    0, //   I061/130  5.2.13  octet 2, bit 4  none
    0, //   I061/130  5.2.13  octet 2, bit 3  none
    0, //   I061/130  5.2.13  octet 2, bit 2  none
    77, //  I061/240  5.2.17  octet 1, bit 8  #1 Discrete Parameters Flags
    0, //   I061/240  5.2.17  octet 1, bit 7  none
    78, //  I061/240  5.2.17  octet 1, bit 6  #3 Rate of Climb/Descent Threshold
    79, //  I061/240  5.2.17  octet 1, bit 5  #4 Position Threshold
    80, //  I061/240  5.2.17  octet 1, bit 4  #5 Rate of Turn Threshold
    81, //  I061/240  5.2.17  octet 1, bit 3  #6 Track Angle Threshold
    82, //  I061/240  5.2.17  octet 1, bit 2  #7 Ground Speed Threshold
    83, //  I061/240  5.2.17  octet 2, bit 8  #8 Longitudinal Acceleration Threshold
    84, //  I061/240  5.2.17  octet 2, bit 7  #9 Altitude Threshold
    85, //  I061/240  5.2.17  octet 2, bit 6  #10 Factor K
    86, //  I061/240  5.2.17  octet 2, bit 5  #11 Refreshment Period
    87, //  I061/240  5.2.17  octet 2, bit 4  #12 Minimal Period
    0, //   I061/240  5.2.17  octet 2, bit 3  none
    0, //   I061/240  5.2.17  octet 2, bit 2  none
    93, //  I061/380  5.2.22  octet 1, bit 8  #1 Refresh Period
    94, //  I061/380  5.2.22  octet 1, bit 7  #2 Discrete Parameters
    95, //  I061/380  5.2.22  octet 1, bit 6  #3 Time Stamping Bias Change Threshold
    96, //  I061/380  5.2.22  octet 1, bit 5  #4 SSR Range Bias Change Threshold
    97, //  I061/380  5.2.22  octet 1, bit 4  #5 SSR Range Gain Change Threshold
    98, //  I061/380  5.2.22  octet 1, bit 3  #6 SSR Azimuth Bias Change Threshold
    99, //  I061/380  5.2.22  octet 1, bit 2  #7 PSR Range Bias Change Threshold
    100, // I061/380  5.2.22  octet 2, bit 8  #8 PSR Range Gain Change Threshold
    101, // I061/380  5.2.22  octet 2, bit 7  #9 PSR Azimuth Bias Change Threshold
    0, //   I061/380  5.2.22  octet 2, bit 6  none
    0, //   I061/380  5.2.22  octet 2, bit 5  none
    0, //   I061/380  5.2.22  octet 2, bit 4  none
    0, //   I061/380  5.2.22  octet 2, bit 3  none
    0, //   I061/380  5.2.22  octet 2, bit 2  none
];
// ---- end of what is made

// ---- the digits that say a kind

fn holds_of(digit: u16) -> Holds
    requires { digit ≤ 2 }
    ensures { holds_digit result ≡ digit }
{
    match digit {
        0 => Holds::Unsigned,
        1 => Holds::Twos,
        _ => Holds::Spare,
    }
}

// Of any number: one that no kind has is no item's.
pub fn kind_of(number: u32) -> Kind
    ensures { result ≡ kind_by number }
{
    match number {
        0 => Kind::NoItem,
        1 => Kind::Fixed,
        2 => Kind::Repeated,
        3 => Kind::Led,
        4 => Kind::Extended,
        5 => Kind::Compound,
        _ => Kind::NoItem,
    }
}

// ---- the rows

fn range_at(place: usize) -> Range
    requires { place < range_count }
    ensures { result ≡ get_or range_rows place (pos 0, pos 0) }
{
    RANGES[place]
}

pub fn field_at(place: usize) -> FieldRow
    requires { place < field_count }
    ensures { result ≡ field_at place }
{
    let w = FIELDS[place];
    let Range(least, greatest) = range_at((w % 100) as usize);
    FieldRow {
        bits: (w / 1000) as u64,
        holds: holds_of(w / 100 % 10),
        least,
        greatest,
    }
}

pub fn group_at(place: usize) -> GroupRow
    requires { place < group_count }
    ensures { result ≡ group_at place }
{
    let w = GROUPS[place];
    let first = (w / 100_000 % 1_000) as usize;
    GroupRow {
        octets: (w / 100_000_000) as usize,
        first,
        end: first + (w / 1_000 % 100) as usize,
        values: (w / 10 % 100) as usize,
        free: w % 10 == 1,
    }
}

pub fn layout_at(place: usize) -> LayoutRow
    requires { place < layout_count }
    ensures { result ≡ layout_at place }
{
    let w = LAYOUTS[place];
    let first = (w / 10 % 1_000) as usize;
    LayoutRow {
        kind: kind_of(w / 100_000_000),
        least: (w / 10_000_000 % 10) as usize,
        most: (w / 10_000 % 1_000) as usize,
        first,
        end: first + (w % 10) as usize,
    }
}

// The place of the layout alone.
pub fn layout_row(place: usize) -> usize
    requires { place < place_count }
    ensures { result ≡ (place_row_at place).layout }
{
    PLACES[place].0 as usize
}

// The bits of a primary octet that have a subfield, FX apart.
pub fn primary_at(place: usize) -> u8
    requires { place < primary_count }
    ensures { result ≡ primary_at place }
{
    PRIMARIES[place]
}

// The place of the layout of a subfield, 0 where a bit has none.
// 0 and no `None`: the statement's number is the table's, and 0 is the place of the layout of no item.
pub fn subfield_at(place: usize) -> usize
    requires { place < subfield_count }
    ensures { (result ≡ subfield_at place) × (result < layout_count) }
{
    SUBFIELDS[place] as usize
}

pub fn place_at(place: usize) -> PlaceRow
    requires { place < place_count }
    ensures { result ≡ place_row_at place }
{
    let row = PLACES[place];
    PlaceRow {
        layout: row.0 as usize,
        reference: row.1,
    }
}
