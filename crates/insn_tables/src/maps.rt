//! The row of an opcode byte.
ghost use Rattle.std.specs.Prelude.{◌≡◌, ◌≤◌};
ghost use Rattle.insn_tables.specs.Rows.{row_of};

use crate::table_row::TableRow;
use crate::tables::{BYTE_3A, BYTE_38, ONE_BYTE, TWO_BYTE, VEX_1, VEX_2, VEX_3};

/// The row of a byte in an opcode map: 0 the one-byte opcodes, 1 those after `0F`, 2 after `0F 38`, 3 after
/// `0F 3A`, and 4, 5 and 6 the VEX maps 1, 2 and 3. That `8F` of map 0 is an instruction only where its ModRM
/// byte's reg is 0 is no matter of the row.
#[inline]
pub fn row<const MAP: u8>(byte: u8) -> TableRow
    requires { MAP ≤ 6 }
    ensures { result ≡ row_of MAP byte }
{
    let place = usize::from(byte);
    match MAP {
        0 => ONE_BYTE[place],
        1 => TWO_BYTE[place],
        2 => BYTE_38[place],
        3 => BYTE_3A[place],
        4 => VEX_1[place],
        5 => VEX_2[place],
        6 => VEX_3[place],
        _ => TableRow::UNDEFINED,
    }
}
