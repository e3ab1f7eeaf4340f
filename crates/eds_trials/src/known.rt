//! Checks that are known from outside.

use crate::slow::{bits_of, check_of};
use eds_base::Memory;
use eds_bits::CheckKind;
use std::alloc::Global;

/// Whether the checks of the digits from 1 to 9 in ASCII are those that are published for them.
pub(crate) fn checks_are_known(alloc: Global) -> Result<bool, Memory> {
    let bits = bits_of(alloc, b"123456789")?;
    Ok(
        check_of(CheckKind::Checksum, bits.as_slice()) == 0xDD
            && check_of(CheckKind::Longitudinal, bits.as_slice()) == 0x31
            && check_of(CheckKind::Crc8, bits.as_slice()) == 0xF4
            && check_of(CheckKind::Crc16Ccitt, bits.as_slice()) == 0x29B1,
    )
}
