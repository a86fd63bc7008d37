// A recording that is fed block by block, and what is then known of it. The three blocks and their answers are those of tests/vectors/base, lines 41, 938 and 1325:
// two with a record each, and one that is refused 9 at 8.
use super::*;

const RECORDING: [u8; 31] = [
    0x12, 0x00, 0x0D, 0xE1, 0x01, 0x01, 0x02, 0x00, 0x2F, 0x00, 0x6B, 0x00, 0x01, 0x12, 0x00, 0x09,
    0xE0, 0xDF, 0x34, 0xFF, 0xCC, 0x31, 0x12, 0x00, 0x08, 0xE0, 0xFF, 0x00, 0x00, 0x1D, 0x04,
];

#[test]
fn is_fed(rt: HostRuntime) {
    // Blocks and records, or a number and a place.
    let told = |state: RecordingState| match state.finish() {
        Ok(counts) => Ok((counts.blocks, counts.records)),
        Err(refusal) => Err((refusal.fault.number(), refusal.place)),
    };
    let begun = RecordingState::start();
    assert_eq!(rt; told(begun), Ok((0, 0)));
    let two = begun.feed(&RECORDING[..13]).feed(&RECORDING[13..22]);
    assert_eq!(rt; told(two), Ok((2, 2)));
    let three = two.feed(&RECORDING[22..]);
    assert_eq!(rt; told(three), Err((9, 30)));
    assert_eq!(rt;
        told(three.feed(&RECORDING[..13])),
        Err((9, 30)),
        "the first fault stays"
    );
}

#[test]
fn is_kept(rt: HostRuntime) {
    let told = |state: KeptState| match state.finish() {
        Ok(counts) => Ok((counts.blocks, counts.records)),
        Err(refused) => Err((refused.number, refused.place)),
    };
    let begun = KeptState::start();
    assert_eq!(rt; told(begun), Ok((0, 0)));
    let two = begun.feed(&RECORDING[..13]).feed(&RECORDING[13..22]);
    assert_eq!(rt; told(two), Ok((2, 2)));
    assert_eq!(rt; told(two.feed(&RECORDING[22..])), Err((9, 30)));
    let any = KeptState {
        so_far: Err(Refused {
            number: 200,
            place: 5,
        }),
    };
    assert_eq!(rt;
        told(any.feed(&RECORDING)),
        Err((200, 5)),
        "any number is had back"
    );
}
