//! Which opcodes are numeric.

use crate::outcome_text::outcome_text;
use crate::running::Setting;
use jx_base::Value::{Int, Long, Null};
use std::test::Fail;

// The first and the last opcode of each run of numeric ones (JVMS 6.5).
static NUMERIC: [(u8, u8); 20] = [
    (0x00, 0x0a),
    (0x10, 0x11),
    (0x14, 0x16),
    (0x19, 0x21),
    (0x2a, 0x2d),
    (0x36, 0x37),
    (0x3a, 0x42),
    (0x4b, 0x4e),
    (0x57, 0x61),
    (0x64, 0x65),
    (0x68, 0x69),
    (0x6c, 0x6d),
    (0x70, 0x71),
    (0x74, 0x75),
    (0x78, 0x85),
    (0x88, 0x88),
    (0x91, 0x94),
    (0x99, 0xa7),
    (0xaa, 0xab),
    (0xc6, 0xc8),
];

#[test]
fn other_opcodes_leave_the_frame_as_it_was(rt: HostRuntime) -> Result<(), Fail> {
    for opcode in 0..=255u8 {
        let setting = Setting {
            opcode,
            operands: &[1],
            locals: &[Some(Int(7)), Some(Long(8)), None],
            values: &[Null, Long(5), Int(0), Int(6)],
            most: 5,
        };
        let text = outcome_text(rt.alloc(), setting)?;
        let is_other = text.as_str() == "other: [ 7 8L _ ] null 5L 0 6";
        let is_numeric = NUMERIC
            .iter()
            .any(|(first, last)| *first <= opcode && opcode <= *last);
        assert_eq!(rt; is_other, !is_numeric, "opcode {opcode}");
    }
    Ok(())
}
