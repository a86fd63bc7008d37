// The fields that have a rule, spare or with a range, by small tables: what the check of an item looks at. It reads octets, and leaves a field that has no
// rule alone. The contracts tie each table, whole, to the rules' profiles.
ghost use Rattle.std.specs.Prelude.{◌≡◌, ◌≤◌, ◌<◌, ◌^◌, get_or};
ghost use Rattle.std.proofs.Math.Seq.{slice};
ghost use Rattle.tables.specs.Tables.{group_count, place_count, group_at};
ghost use Rattle.tables.specs.FieldRules.{rule_count, obeys, all_obeyed, rules, rule_at, rule_row, first_rule, singles};

// A rule: how many bits stand below the field; how many it has; what is added to its code, so that what is legal starts at 0; the greatest sum, in the bits
// of the field, that is legal.
#[derive(Clone, Copy)]
struct RuleRow(u8, u8, u32, u32);

// Rules, group after group.
// ---- made by model/make.py: RULES
static RULES: [RuleRow; 32] = [
    RuleRow(0, 24, 0, 11059199), //         I017/140  5.2.7   time of day
    RuleRow(24, 24, 4194304, 8388607), //   I017/045  5.2.4   latitude
    RuleRow(12, 1, 0, 0), //                I017/070  5.2.6   spare
    RuleRow(0, 4, 0, 0), //                 I017/230  5.2.12  spare
    RuleRow(0, 6, 0, 0), //                 I017/240  5.2.13  spare
    RuleRow(7, 1, 0, 0), //                 I018/018  5.2.18  spare
    RuleRow(8, 3, 0, 0), //                 I018/030  5.2.28  spare
    RuleRow(0, 3, 0, 0), //                 I018/030  5.2.28  spare
    RuleRow(0, 24, 0, 11059199), //         I018/002  5.2.3   time of day
    RuleRow(0, 4, 0, 0), //                 I018/007  5.2.7   spare
    RuleRow(1, 2, 0, 0), //                 I018/008  5.2.8   spare
    RuleRow(0, 6, 0, 0), //                 I018/008  5.2.8   spare
    RuleRow(0, 2, 0, 0), //                 I018/009  5.2.9   spare
    RuleRow(3, 5, 0, 0), //                 I018/010  5.2.10  spare
    RuleRow(27, 5, 0, 0), //                I018/022  5.2.22  spare
    RuleRow(12, 1, 0, 0), //                I018/032  5.2.30  spare
    RuleRow(0, 16, 0, 32768), //            I018/034  5.2.32  speed
    RuleRow(0, 24, 0, 11059199), //         I061/020  5.2.5   time of message
    RuleRow(0, 7, 0, 0), //                 I061/050  5.2.8   spare
    RuleRow(32, 32, 16777216, 33554432), // I061/060  5.2.9   latitude
    RuleRow(0, 32, 33554432, 67108864), //  I061/060  5.2.9   longitude
    RuleRow(0, 16, 60, 6060), //            I061/070  5.2.10  lower limit
    RuleRow(0, 16, 60, 6060), //            I061/080  5.2.11  upper limit
    RuleRow(15, 1, 0, 0), //                I061/130  5.2.13  #1 spare
    RuleRow(18, 1, 0, 0), //                I061/130  5.2.13  #9 spare
    RuleRow(0, 7, 0, 0), //                 I061/130  5.2.13  #9 spare
    RuleRow(14, 2, 0, 0), //                I061/220  5.2.15  spare
    RuleRow(0, 6, 0, 0), //                 I061/230  5.2.16  spare
    RuleRow(0, 7, 0, 0), //                 I061/230  5.2.16  spare
    RuleRow(5, 1, 0, 0), //                 I061/240  5.2.17  #1 spare
    RuleRow(0, 16, 65532, 3596), //         I061/380  5.2.22  #1 refresh period
    RuleRow(0, 7, 0, 0), //                 I061/380  5.2.22  #2 spare
];
// ---- end of what is made

// Groups: how many octets.
// ---- made by model/make.py: SIZES
static SIZES: [u8; 106] = [
    2, // I017/010  5.2.2   Data Source Identifier
    2, // I017/012  5.2.3   Data Destination Identifier
    1, // I017/000  5.2.1   Message Type
    2, // I017/350  5.2.14  Cluster Station/Node List
    3, // I017/220  5.2.10  Aircraft Address
    2, // I017/221  5.2.11  Duplicate Address Reference Number
    3, // I017/140  5.2.7   Time of Day
    6, // I017/045  5.2.4   Calculated Position in WGS-84 Coordinates
    2, // I017/070  5.2.6   Mode 3/A Code in Octal Representation
    2, // I017/050  5.2.5   Flight Level in Binary Representation
    4, // I017/200  5.2.8   Track Velocity in Polar Co-ordinates
    1, // I017/230  5.2.12  Transponder Capability
    1, // I017/240  5.2.13  Track Status
    3, // I017/210  5.2.9   Mode S Address List
    1, // I017/360  5.2.15  Cluster Controller Command State
    2, // I018/036  5.2.34  Data Source Identifier
    2, // I018/037  5.2.35  Data Destination Identifier
    1, // I018/000  5.2.1   Message Type
    1, // I018/001  5.2.2   Result
    3, // I018/005  5.2.5   Mode S Address
    4, // I018/016  5.2.16  Packet Number
    4, // I018/017  5.2.17  Packet Number List
    1, // I018/018  5.2.18  Mode S Packet Properties
    1, // I018/019  5.2.19  Mode S Packet
    2, // I018/028  5.2.26  GICB Extraction Periodicity
    2, // I018/030  5.2.28  GICB Properties
    4, // I018/025  5.2.24  GICB Number
    1, // I018/027  5.2.25  BDS Code
    7, // I018/029  5.2.27  GICB Extracted
    3, // I018/002  5.2.3   Time of Day
    3, // I018/006  5.2.6   Mode S Address List
    1, // I018/007  5.2.7   Aircraft Data Link Command
    1, // I018/008  5.2.8   Aircraft Data Link Status, first part
    1, // I018/008  5.2.8   Aircraft Data Link Status, extent 1
    1, // I018/009  5.2.9   Aircraft Data Link Report Request, first part
    1, // I018/009  5.2.9   Aircraft Data Link Report Request, extent 1
    1, // I018/010  5.2.10  Transponder Communications Capability
    7, // I018/011  5.2.11  Capability Report
    4, // I018/014  5.2.14  Aircraft Position in Polar Co-ordinates
    4, // I018/015  5.2.15  Aircraft Position in Cartesian Co-ordinates
    4, // I018/020  5.2.20  Broadcast Number
    6, // I018/021  5.2.21  Broadcast Properties
    4, // I018/022  5.2.22  Broadcast Prefix
    7, // I018/023  5.2.23  Uplink or Downlink Broadcast
    1, // I018/004  5.2.4   II Code
    6, // I018/031  5.2.29  Aircraft Identity
    2, // I018/032  5.2.30  Aircraft Mode A
    2, // I018/033  5.2.31  Aircraft Height
    2, // I018/034  5.2.32  Aircraft Speed
    2, // I018/035  5.2.33  Aircraft Heading
    1, // I018/012  5.2.12  Aircraft Coverage Quality Factor
    1, // I018/013  5.2.13  Aircraft CQF Calculation Method
    2, // I061/010  5.2.2   SDPS Identification
    1, // I061/000  5.2.1   Message Type
    1, // I061/012  5.2.3   User Identification
    1, // I061/015  5.2.4   Service Identification
    3, // I061/020  5.2.5   Time of Message
    1, // I061/030  5.2.6   Batch Number
    1, // I061/045  5.2.7   Application Version Number
    1, // I061/050  5.2.8   Default Geographical Volume
    8, // I061/060  5.2.9   Geographical Area
    2, // I061/070  5.2.10  Lower Limit
    2, // I061/080  5.2.11  Upper Limit
    1, // I061/100  5.2.12  Connection Related Report
    2, // I061/130  5.2.13  #1 Track Number Selector
    3, // I061/130  5.2.13  #2 Aircraft Address Selector
    6, // I061/130  5.2.13  #3 Aircraft Identification Selector
    2, // I061/130  5.2.13  #4 Code Family Selector
    4, // I061/130  5.2.13  #5 Departure Airport Selector
    4, // I061/130  5.2.13  #6 Destination Airport Selector
    4, // I061/130  5.2.13  #7 Aircraft Type Selector
    2, // I061/130  5.2.13  #8 Current Control Position Selector
    4, // I061/130  5.2.13  #9 Track/Flight Categories Selector
    1, // I061/210  5.2.14  Item Selector, first part
    1, // I061/210  5.2.14  Item Selector, extent 1
    1, // I061/210  5.2.14  Item Selector, extent 2
    1, // I061/210  5.2.14  Item Selector, extent 3
    5, // I061/220  5.2.15  Cyclical Update Characteristics
    3, // I061/230  5.2.16  Radar Synchronisation Characteristics, first part
    3, // I061/230  5.2.16  Radar Synchronisation Characteristics, extent 1
    1, // I061/240  5.2.17  #1 Discrete Parameters Flags
    1, // I061/240  5.2.17  #3 Rate of Climb/Descent Threshold
    1, // I061/240  5.2.17  #4 Position Threshold
    1, // I061/240  5.2.17  #5 Rate of Turn Threshold
    1, // I061/240  5.2.17  #6 Track Angle Threshold
    1, // I061/240  5.2.17  #7 Ground Speed Threshold
    1, // I061/240  5.2.17  #8 Longitudinal Acceleration Threshold
    1, // I061/240  5.2.17  #9 Altitude Threshold
    1, // I061/240  5.2.17  #10 Factor K
    1, // I061/240  5.2.17  #11 Refreshment Period
    1, // I061/240  5.2.17  #12 Minimal Period
    2, // I061/330  5.2.18  Service Related Report
    2, // I061/350  5.2.19  Sensor Selector
    1, // I061/360  5.2.20  Sensor Item Selector, first part
    1, // I061/360  5.2.20  Sensor Item Selector, extent 1
    1, // I061/360  5.2.20  Sensor Item Selector, extent 2
    2, // I061/370  5.2.21  Periodical Characteristics of Sensor Information Service
    2, // I061/380  5.2.22  #1 Refresh Period
    1, // I061/380  5.2.22  #2 Discrete Parameters
    2, // I061/380  5.2.22  #3 Time Stamping Bias Change Threshold
    2, // I061/380  5.2.22  #4 SSR Range Bias Change Threshold
    2, // I061/380  5.2.22  #5 SSR Range Gain Change Threshold
    2, // I061/380  5.2.22  #6 SSR Azimuth Bias Change Threshold
    2, // I061/380  5.2.22  #7 PSR Range Bias Change Threshold
    2, // I061/380  5.2.22  #8 PSR Range Gain Change Threshold
    2, // I061/380  5.2.22  #9 PSR Azimuth Bias Change Threshold
];
// ---- end of what is made

// Groups: the place of the first rule; the next row has the one past the last. (So there is a row more than in `SIZES`, and it stands apart.)
// ---- made by model/make.py: FIRST_RULES
static FIRST_RULES: [u8; 107] = [
    0, //  I017/010  5.2.2   Data Source Identifier
    0, //  I017/012  5.2.3   Data Destination Identifier
    0, //  I017/000  5.2.1   Message Type
    0, //  I017/350  5.2.14  Cluster Station/Node List
    0, //  I017/220  5.2.10  Aircraft Address
    0, //  I017/221  5.2.11  Duplicate Address Reference Number
    0, //  I017/140  5.2.7   Time of Day
    1, //  I017/045  5.2.4   Calculated Position in WGS-84 Coordinates
    2, //  I017/070  5.2.6   Mode 3/A Code in Octal Representation
    3, //  I017/050  5.2.5   Flight Level in Binary Representation
    3, //  I017/200  5.2.8   Track Velocity in Polar Co-ordinates
    3, //  I017/230  5.2.12  Transponder Capability
    4, //  I017/240  5.2.13  Track Status
    5, //  I017/210  5.2.9   Mode S Address List
    5, //  I017/360  5.2.15  Cluster Controller Command State
    5, //  I018/036  5.2.34  Data Source Identifier
    5, //  I018/037  5.2.35  Data Destination Identifier
    5, //  I018/000  5.2.1   Message Type
    5, //  I018/001  5.2.2   Result
    5, //  I018/005  5.2.5   Mode S Address
    5, //  I018/016  5.2.16  Packet Number
    5, //  I018/017  5.2.17  Packet Number List
    5, //  I018/018  5.2.18  Mode S Packet Properties
    6, //  I018/019  5.2.19  Mode S Packet
    6, //  I018/028  5.2.26  GICB Extraction Periodicity
    6, //  I018/030  5.2.28  GICB Properties
    8, //  I018/025  5.2.24  GICB Number
    8, //  I018/027  5.2.25  BDS Code
    8, //  I018/029  5.2.27  GICB Extracted
    8, //  I018/002  5.2.3   Time of Day
    9, //  I018/006  5.2.6   Mode S Address List
    9, //  I018/007  5.2.7   Aircraft Data Link Command
    10, // I018/008  5.2.8   Aircraft Data Link Status, first part
    11, // I018/008  5.2.8   Aircraft Data Link Status, extent 1
    12, // I018/009  5.2.9   Aircraft Data Link Report Request, first part
    12, // I018/009  5.2.9   Aircraft Data Link Report Request, extent 1
    13, // I018/010  5.2.10  Transponder Communications Capability
    14, // I018/011  5.2.11  Capability Report
    14, // I018/014  5.2.14  Aircraft Position in Polar Co-ordinates
    14, // I018/015  5.2.15  Aircraft Position in Cartesian Co-ordinates
    14, // I018/020  5.2.20  Broadcast Number
    14, // I018/021  5.2.21  Broadcast Properties
    14, // I018/022  5.2.22  Broadcast Prefix
    15, // I018/023  5.2.23  Uplink or Downlink Broadcast
    15, // I018/004  5.2.4   II Code
    15, // I018/031  5.2.29  Aircraft Identity
    15, // I018/032  5.2.30  Aircraft Mode A
    16, // I018/033  5.2.31  Aircraft Height
    16, // I018/034  5.2.32  Aircraft Speed
    17, // I018/035  5.2.33  Aircraft Heading
    17, // I018/012  5.2.12  Aircraft Coverage Quality Factor
    17, // I018/013  5.2.13  Aircraft CQF Calculation Method
    17, // I061/010  5.2.2   SDPS Identification
    17, // I061/000  5.2.1   Message Type
    17, // I061/012  5.2.3   User Identification
    17, // I061/015  5.2.4   Service Identification
    17, // I061/020  5.2.5   Time of Message
    18, // I061/030  5.2.6   Batch Number
    18, // I061/045  5.2.7   Application Version Number
    18, // I061/050  5.2.8   Default Geographical Volume
    19, // I061/060  5.2.9   Geographical Area
    21, // I061/070  5.2.10  Lower Limit
    22, // I061/080  5.2.11  Upper Limit
    23, // I061/100  5.2.12  Connection Related Report
    23, // I061/130  5.2.13  #1 Track Number Selector
    24, // I061/130  5.2.13  #2 Aircraft Address Selector
    24, // I061/130  5.2.13  #3 Aircraft Identification Selector
    24, // I061/130  5.2.13  #4 Code Family Selector
    24, // I061/130  5.2.13  #5 Departure Airport Selector
    24, // I061/130  5.2.13  #6 Destination Airport Selector
    24, // I061/130  5.2.13  #7 Aircraft Type Selector
    24, // I061/130  5.2.13  #8 Current Control Position Selector
    24, // I061/130  5.2.13  #9 Track/Flight Categories Selector
    26, // I061/210  5.2.14  Item Selector, first part
    26, // I061/210  5.2.14  Item Selector, extent 1
    26, // I061/210  5.2.14  Item Selector, extent 2
    26, // I061/210  5.2.14  Item Selector, extent 3
    26, // I061/220  5.2.15  Cyclical Update Characteristics
    27, // I061/230  5.2.16  Radar Synchronisation Characteristics, first part
    28, // I061/230  5.2.16  Radar Synchronisation Characteristics, extent 1
    29, // I061/240  5.2.17  #1 Discrete Parameters Flags
    30, // I061/240  5.2.17  #3 Rate of Climb/Descent Threshold
    30, // I061/240  5.2.17  #4 Position Threshold
    30, // I061/240  5.2.17  #5 Rate of Turn Threshold
    30, // I061/240  5.2.17  #6 Track Angle Threshold
    30, // I061/240  5.2.17  #7 Ground Speed Threshold
    30, // I061/240  5.2.17  #8 Longitudinal Acceleration Threshold
    30, // I061/240  5.2.17  #9 Altitude Threshold
    30, // I061/240  5.2.17  #10 Factor K
    30, // I061/240  5.2.17  #11 Refreshment Period
    30, // I061/240  5.2.17  #12 Minimal Period
    30, // I061/330  5.2.18  Service Related Report
    30, // I061/350  5.2.19  Sensor Selector
    30, // I061/360  5.2.20  Sensor Item Selector, first part
    30, // I061/360  5.2.20  Sensor Item Selector, extent 1
    30, // I061/360  5.2.20  Sensor Item Selector, extent 2
    30, // I061/370  5.2.21  Periodical Characteristics of Sensor Information Service
    30, // I061/380  5.2.22  #1 Refresh Period
    31, // I061/380  5.2.22  #2 Discrete Parameters
    32, // I061/380  5.2.22  #3 Time Stamping Bias Change Threshold
    32, // I061/380  5.2.22  #4 SSR Range Bias Change Threshold
    32, // I061/380  5.2.22  #5 SSR Range Gain Change Threshold
    32, // I061/380  5.2.22  #6 SSR Azimuth Bias Change Threshold
    32, // I061/380  5.2.22  #7 PSR Range Bias Change Threshold
    32, // I061/380  5.2.22  #8 PSR Range Gain Change Threshold
    32, // I061/380  5.2.22  #9 PSR Azimuth Bias Change Threshold
    32, // the end
];
// ---- end of what is made

// Places, of an item with one part: how many octets it has, where it is free; 8 more than the place of its group, where it has a rule. Else 0.
// ---- made by model/make.py: SINGLE
static SINGLE: [u8; 108] = [
    0, //  FRN 0   no item
    2, //  FRN 1   I017/010  5.2.2   Data Source Identifier
    2, //  FRN 2   I017/012  5.2.3   Data Destination Identifier
    1, //  FRN 3   I017/000  5.2.1   Message Type
    0, //  FRN 4   I017/350  5.2.14  Cluster Station/Node List
    3, //  FRN 5   I017/220  5.2.10  Aircraft Address
    2, //  FRN 6   I017/221  5.2.11  Duplicate Address Reference Number
    14, // FRN 7   I017/140  5.2.7   Time of Day
    15, // FRN 8   I017/045  5.2.4   Calculated Position in WGS-84 Coordinates
    16, // FRN 9   I017/070  5.2.6   Mode 3/A Code in Octal Representation
    2, //  FRN 10  I017/050  5.2.5   Flight Level in Binary Representation
    4, //  FRN 11  I017/200  5.2.8   Track Velocity in Polar Co-ordinates
    19, // FRN 12  I017/230  5.2.12  Transponder Capability
    20, // FRN 13  I017/240  5.2.13  Track Status
    0, //  FRN 14  I017/210  5.2.9   Mode S Address List
    1, //  FRN 15  I017/360  5.2.15  Cluster Controller Command State
    0, //  FRN 16  spare
    0, //  FRN 17  spare
    0, //  FRN 18  spare
    0, //  FRN 19  spare
    0, //  FRN 20  spare
    0, //  FRN 21  reserved for Special Purpose Indicator
    0, //  FRN 22  past the end of the profile
    0, //  FRN 23  past the end of the profile
    0, //  FRN 24  past the end of the profile
    0, //  FRN 25  past the end of the profile
    0, //  FRN 26  past the end of the profile
    0, //  FRN 27  past the end of the profile
    0, //  FRN 28  past the end of the profile
    0, //  FRN 29  past the end of the profile
    0, //  FRN 30  past the end of the profile
    0, //  FRN 31  past the end of the profile
    0, //  FRN 32  past the end of the profile
    0, //  FRN 33  past the end of the profile
    0, //  FRN 34  past the end of the profile
    0, //  FRN 35  past the end of the profile
    0, //  FRN 0   no item
    2, //  FRN 1   I018/036  5.2.34  Data Source Identifier
    2, //  FRN 2   I018/037  5.2.35  Data Destination Identifier
    1, //  FRN 3   I018/000  5.2.1   Message Type
    1, //  FRN 4   I018/001  5.2.2   Result
    3, //  FRN 5   I018/005  5.2.5   Mode S Address
    4, //  FRN 6   I018/016  5.2.16  Packet Number
    0, //  FRN 7   I018/017  5.2.17  Packet Number List
    30, // FRN 8   I018/018  5.2.18  Mode S Packet Properties
    0, //  FRN 9   I018/019  5.2.19  Mode S Packet
    2, //  FRN 10  I018/028  5.2.26  GICB Extraction Periodicity
    33, // FRN 11  I018/030  5.2.28  GICB Properties
    4, //  FRN 12  I018/025  5.2.24  GICB Number
    1, //  FRN 13  I018/027  5.2.25  BDS Code
    7, //  FRN 14  I018/029  5.2.27  GICB Extracted
    37, // FRN 15  I018/002  5.2.3   Time of Day
    0, //  FRN 16  I018/006  5.2.6   Mode S Address List
    39, // FRN 17  I018/007  5.2.7   Aircraft Data Link Command
    0, //  FRN 18  I018/008  5.2.8   Aircraft Data Link Status
    0, //  FRN 19  I018/009  5.2.9   Aircraft Data Link Report Request
    44, // FRN 20  I018/010  5.2.10  Transponder Communications Capability
    7, //  FRN 21  I018/011  5.2.11  Capability Report
    4, //  FRN 22  I018/014  5.2.14  Aircraft Position in Polar Co-ordinates
    4, //  FRN 23  I018/015  5.2.15  Aircraft Position in Cartesian Co-ordinates
    4, //  FRN 24  I018/020  5.2.20  Broadcast Number
    6, //  FRN 25  I018/021  5.2.21  Broadcast Properties
    50, // FRN 26  I018/022  5.2.22  Broadcast Prefix
    7, //  FRN 27  I018/023  5.2.23  Uplink or Downlink Broadcast
    1, //  FRN 28  I018/004  5.2.4   II Code
    6, //  FRN 29  I018/031  5.2.29  Aircraft Identity
    54, // FRN 30  I018/032  5.2.30  Aircraft Mode A
    2, //  FRN 31  I018/033  5.2.31  Aircraft Height
    56, // FRN 32  I018/034  5.2.32  Aircraft Speed
    2, //  FRN 33  I018/035  5.2.33  Aircraft Heading
    1, //  FRN 34  I018/012  5.2.12  Aircraft Coverage Quality Factor
    1, //  FRN 35  I018/013  5.2.13  Aircraft CQF Calculation Method
    0, //  FRN 0   no item
    2, //  FRN 1   I061/010  5.2.2   SDPS Identification
    1, //  FRN 2   I061/000  5.2.1   Message Type
    1, //  FRN 3   I061/012  5.2.3   User Identification
    1, //  FRN 4   I061/015  5.2.4   Service Identification
    64, // FRN 5   I061/020  5.2.5   Time of Message
    1, //  FRN 6   I061/030  5.2.6   Batch Number
    1, //  FRN 7   I061/045  5.2.7   Application Version Number
    67, // FRN 8   I061/050  5.2.8   Default Geographical Volume
    0, //  FRN 9   I061/060  5.2.9   Geographical Area
    69, // FRN 10  I061/070  5.2.10  Lower Limit
    70, // FRN 11  I061/080  5.2.11  Upper Limit
    0, //  FRN 12  I061/100  5.2.12  Connection Related Report
    0, //  FRN 13  I061/130  5.2.13  Track Selector
    0, //  FRN 14  I061/210  5.2.14  Item Selector
    85, // FRN 15  I061/220  5.2.15  Cyclical Update Characteristics
    0, //  FRN 16  I061/230  5.2.16  Radar Synchronisation Characteristics
    0, //  FRN 17  I061/240  5.2.17  Triggering Criteria for Aperiodical Services
    0, //  FRN 18  I061/330  5.2.18  Service Related Report
    0, //  FRN 19  I061/350  5.2.19  Sensor Selector
    0, //  FRN 20  I061/360  5.2.20  Sensor Item Selector
    2, //  FRN 21  I061/370  5.2.21  Periodical Characteristics of Sensor Information Service
    0, //  FRN 22  I061/380  5.2.22  Aperiodical Characteristics of Sensor Information Service
    0, //  FRN 23  no item is printed
    0, //  FRN 24  no item is printed
    0, //  FRN 25  no item is printed
    0, //  FRN 26  no item is printed
    0, //  FRN 27  Reserved Expansion Field
    0, //  FRN 28  Special Purpose Field
    0, //  FRN 29  past the end of the profile
    0, //  FRN 30  past the end of the profile
    0, //  FRN 31  past the end of the profile
    0, //  FRN 32  past the end of the profile
    0, //  FRN 33  past the end of the profile
    0, //  FRN 34  past the end of the profile
    0, //  FRN 35  past the end of the profile
];
// ---- end of what is made

// How many octets a part of a group has.
pub fn size_at(group: usize) -> usize
    requires { group < group_count }
    ensures { result ≡ (group_at group).octets }
{
    SIZES[group] as usize
}

// The place of a group's first rule; of the last group's next, the end.
pub fn first_rule(group: usize) -> usize
    requires { group ≤ group_count }
    ensures { result ≡ first_rule group }
{
    FIRST_RULES[group] as usize
}

// Whether a group is free: it has no rule.
pub fn is_free(group: usize) -> bool
    requires { group < group_count }
    ensures { result ≡ (group_at group).free }
{
    first_rule(group + 1) <= first_rule(group)
}

// Of an item with one part, its octets, at most 7, where it is free, or 8 more than its group; else 0.
pub fn single_at(place: usize) -> usize
    requires { place < place_count }
    ensures { result ≡ get_or singles place 0 }
{
    SINGLE[place] as usize
}

// The power of two.
pub fn pow2(k: u64) -> u64
    requires { k < 64 }
    ensures { result ≡ 2 ^ k }
{
    1u64 << k
}

fn rule_row(place: usize) -> RuleRow
    requires { place < rule_count }
    ensures { result ≡ rule_row (rule_at place) }
{
    RULES[place]
}

// Whether a number obeys a rule.
fn is_obeyed(rule: usize, n: u64) -> bool
    requires { rule < rule_count }
    ensures { result ≡ obeys (rule_at rule) n }
{
    let RuleRow(shift, width, added, limit) = rule_row(rule);
    let codes = pow2(width as u64);
    let code = (n >> (shift as u64)) % codes + added as u64;
    code % codes <= limit as u64
}

// Whether a number obeys each rule from a place to before a place.
pub fn are_obeyed(n: u64, first: usize, end: usize) -> bool
    requires { end ≤ rule_count }
    ensures { result ≡ all_obeyed (slice first end rules) n }
{
    for i in first..end {
        if !is_obeyed(i, n) {
            return false;
        }
    }
    true
}
