//! Names of network devices, which the kernel's tables and an operator's topology write alike.

ghost use Rattle.std.specs.Prelude.{◌≡◌};
ghost use Rattle.std.specs.List.{list_all};
ghost use Rattle.mc_text.specs.Names.{is_device_name_byte, is_device_name};

/// The longest name of a device, in bytes (`IFNAMSIZ` of linux/if.h less the zero at its end).
const MAX_DEVICE_NAME: usize = 15;

/// Whether the bytes are a device's name: 1 to 15 bytes, none of 0x09 to 0x0D, space, `/` and `:`.
///
/// The rule is that of `dev_valid_name` in net/core/dev.c, without its ban of `.`, `..` and the byte 0xA0,
/// which the kernel counts as a space.
pub fn is_device_name(name: &[u8]) -> bool
    ensures { result ≡ is_device_name name.now }
{
    !name.is_empty() && name.len() <= MAX_DEVICE_NAME && are_device_name_bytes(name)
}

/// Whether a device's name may have each of the bytes.
fn are_device_name_bytes(bytes: &[u8]) -> bool
    ensures { result ≡ list_all is_device_name_byte bytes.now }
{
    bytes.iter().all(|byte| is_device_name_byte(*byte))
}

/// Whether a device's name may have the byte.
fn is_device_name_byte(byte: u8) -> bool
    ensures { result ≡ is_device_name_byte byte }
{
    !matches!(byte, 0x09..=0x0D | b' ' | b'/' | b':')
}
