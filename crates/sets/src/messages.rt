// The items that each message type must have, may have and does not send: Table 3 of category 017 (5.3.2), the table of 5.3.2 of category 018 and
// Table 2 of category 061 (5.2.1).
// Of a set of FRNs the table has the bits: FRN f is bit 63 - f.
ghost use Rattle.std.specs.Prelude.{◌≡◌};
ghost use Rattle.sets.specs.Steps.{row_at};
ghost use Rattle.sets.specs.Answers.{row_of};

use crate::ItemSet;
use tables::PROFILES;

// The row of a message type.
#[derive(Clone, Copy, Debug, PartialEq, Eq)]
pub struct MessageRow {
    // What it must have.
    pub must: ItemSet,
    // What it must or may have.
    pub may: ItemSet,
}

// The row of a message type, found by one number: the profile, and in its last two hexadecimal digits the type. None where the message type item's section
// does not name it.
pub fn row_of(profile: usize, kind: u8) -> Option<MessageRow>
    ensures { row_of result ≡ row_at profile kind }
{
    if PROFILES <= profile {
        return None;
    }
    // One `match`, an arm to a type: document 01's form, in which the message type's number decides its row (docs/DECISIONS.md).
    let (must, may) = match profile * 256 + kind as usize {
        // ---- made by model/make.py: the rows of message types
        // category 017
        0 => (0x7800_0000_0000_0000, 0x7800_0000_0000_0000), // Network information
        10 => (0x75F8_0000_0000_0000, 0x77FC_0000_0000_0000), // Track data
        20 => (0x7400_0000_0000_0000, 0x7400_0000_0000_0000), // Track data request
        21 => (0x7400_0000_0000_0000, 0x7400_0000_0000_0000), // Track data stop
        22 => (0x7400_0000_0000_0000, 0x7600_0000_0000_0000), // Cancel track data request ("Cancellation of Track Data")
        23 => (0x7400_0000_0000_0000, 0x7400_0000_0000_0000), // Track data stop acknowledgement
        30 => (0x7002_0000_0000_0000, 0x7002_0000_0000_0000), // New Node / Change-over, initial or intermediate message segment
        31 => (0x7002_0000_0000_0000, 0x7002_0000_0000_0000), // New Node / Change-over, final or only message segment
        32 => (0x7002_0000_0000_0000, 0x7002_0000_0000_0000), // New Node / Change-over, initial or intermediate message segment reply
        33 => (0x7002_0000_0000_0000, 0x7002_0000_0000_0000), // New Node / Change-over, final or only message segment reply
        110 => (0x7001_0000_0000_0000, 0x7001_0000_0000_0000), // Move node to new cluster state
        111 => (0x7001_0000_0000_0000, 0x7001_0000_0000_0000), // Move node to new cluster state acknowledgement
        // category 018
        0x1_00 => (0x7000_0000_0000_0000, 0x7000_0008_0000_0000), // Associate_req
        0x1_01 => (0x7800_0000_0000_0000, 0x7800_0008_0000_0000), // Associate_resp
        0x1_02 => (0x7000_0000_0000_0000, 0x7000_0000_0000_0000), // Release_req
        0x1_03 => (0x7800_0000_0000_0000, 0x7800_0000_0000_0000), // Release_resp
        0x1_04 => (0x7000_0000_0000_0000, 0x7800_0000_0000_0000), // Abort_req
        0x1_05 => (0x7000_0000_0000_0000, 0x7000_0000_0000_0000), // Keep_alive
        0x1_10 => (0x7400_2000_0000_0000, 0x7400_2F07_F000_0000), // Aircraft_report
        0x1_11 => (0x7400_5000_0000_0000, 0x7400_5000_1000_0000), // Aircraft_command
        0x1_12 => (0x7000_0008_0000_0000, 0x7000_0008_0000_0000), // II_code_change
        0x1_20 => (0x76C0_0000_0000_0000, 0x76C0_0000_0000_0000), // Uplink_packet
        0x1_21 => (0x7400_0000_0000_0000, 0x7600_0000_0000_0000), // Cancel_uplink_packet
        0x1_22 => (0x7C00_0000_0000_0000, 0x7D00_0000_0000_0000), // Uplink_packet_ack
        0x1_23 => (0x7440_0000_0000_0000, 0x7C40_0000_0000_0000), // Downlink_packet
        0x1_26 => (0x7000_8000_0000_0000, 0x7000_8000_0000_0000), // Data_XON
        0x1_27 => (0x7000_8000_0000_0000, 0x7000_8000_0000_0000), // Data_XOFF
        0x1_30 => (0x7000_00B0_0000_0000, 0x7000_00F0_0000_0000), // Uplink_broadcast
        0x1_31 => (0x7000_0000_0000_0000, 0x7000_0080_0000_0000), // Cancel_uplink_broadcast
        0x1_32 => (0x7800_0000_0000_0000, 0x7800_0080_0000_0000), // Uplink_broadcast_ack
        0x1_34 => (0x7401_0010_0000_0000, 0x7401_0010_0000_0000), // Downlink_broadcast
        0x1_40 => (0x740C_0000_0000_0000, 0x743D_0000_0000_0000), // GICB_extraction
        0x1_41 => (0x7400_0000_0000_0000, 0x7408_0000_0000_0000), // Cancel_GICB_extraction
        0x1_42 => (0x7C00_0000_0000_0000, 0x7C08_0000_0000_0000), // GICB_extraction_ack
        0x1_43 => (0x7C0D_0000_0000_0000, 0x7C0F_0000_0000_0000), // GICB_response
        // category 061
        0x2_11 => (0x7400_0000_0000_0000, 0x7600_0000_0000_0000), // Request for Connection
        0x2_12 => (0x7400_0000_0000_0000, 0x7608_0000_0000_0000), // Request for Disconnection
        0x2_13 => (0x7500_0000_0000_0000, 0x7700_0000_0000_0000), // Connection Acknowledgement
        0x2_14 => (0x7400_0000_0000_0000, 0x7608_0000_0000_0000), // Connection Rejection
        0x2_15 => (0x7400_0000_0000_0000, 0x7608_0000_0000_0000), // Disconnection Acknowledgement
        0x2_16 => (0x7400_0000_0000_0000, 0x7608_0000_0000_0000), // Disconnection Rejection
        0x2_21 => (0x7400_0000_0000_0000, 0x7EF7_DE00_0000_0000), // Service Definition Request
        0x2_22 => (0x7C00_0000_0000_0000, 0x7EF7_DE00_0000_0000), // Service Modification Request
        0x2_23 => (0x7C00_0000_0000_0000, 0x7E00_2000_0000_0000), // Service Suspension Request
        0x2_24 => (0x7C00_0000_0000_0000, 0x7E00_2000_0000_0000), // Service Resumption Request
        0x2_25 => (0x7C00_0000_0000_0000, 0x7E00_2000_0000_0000), // Service Termination Request
        0x2_26 => (0x7C00_0000_0000_0000, 0x7E00_2000_0000_0000), // Service Acknowledgement
        0x2_27 => (0x7400_0000_0000_0000, 0x7E00_2000_0000_0000), // Service Rejection
        0x2_28 => (0x7C00_0000_0000_0000, 0x7E00_2000_0000_0000), // Service Report
        0x2_2F => (0x7C00_2000_0000_0000, 0x7E00_2000_0000_0000), // End of Batch
        // ---- end of what is made
        _ => return None,
    };
    Some(MessageRow {
        must: ItemSet { bits: must },
        may: ItemSet { bits: may },
    })
}
