//! The fields of which sections are made.
ghost use Rattle.std.specs.Prelude.{◌≡◌, ◌≤◌, ◌++◌, IfOk, OnOk};
ghost use Rattle.std.specs.List.{flat_map};
ghost use Rattle.image_file.specs.Fields.{four_bytes, two_bytes};
ghost use Rattle.symbol_image.specs.Fields.{groups, negative_leb, sized, text_bytes, unsigned_leb};

use image_file::{put_u16, put_u32};
use sloth_base::Result;
use std::alloc::Global;

/// How many numbers four bytes hold.
const FOUR_BYTES: usize = 4294967296;

/// How many numbers two bytes hold.
const TWO_BYTES: u32 = 65536;

/// How many numbers five groups of seven bits hold.
const FIVE_GROUPS: u64 = 34359738368;

/// Appends bytes.
pub fn put_bytes(section: &mut Vec<u8>, bytes: &[u8]) -> Result<()>
    ensures { OnOk result (section.new.items ≡ section.old.items ++ bytes.now) }
{
    section.extend_from_slice(bytes)?;
    Ok(())
}

/// Appends a text, and a zero behind it.
pub fn put_text(section: &mut Vec<u8>, text: &[u8]) -> Result<()>
    ensures { OnOk result (section.new.items ≡ section.old.items ++ text_bytes text.now) }
{
    section.extend_from_slice(text)?;
    section.extend_from_slice(&[0])?;
    Ok(())
}

/// Appends a length, or a place in a section, in four bytes.
pub fn put_length(section: &mut Vec<u8>, length: usize) -> Result<()>
    ensures { OnOk result (section.new.items ≡ section.old.items ++ four_bytes length) }
{
    put_u32(section, (length % FOUR_BYTES) as u32)
}

/// Appends lengths and places, each in four bytes.
pub fn put_lengths(section: &mut Vec<u8>, lengths: &[usize]) -> Result<()>
    ensures { OnOk result (section.new.items ≡ section.old.items ++ flat_map four_bytes lengths.now) }
{
    for length in lengths {
        put_length(section, *length)?;
    }
    Ok(())
}

/// Appends a number in two bytes, of which only the lowest 16 bits are written.
pub fn put_half(section: &mut Vec<u8>, number: u32) -> Result<()>
    ensures { OnOk result (section.new.items ≡ section.old.items ++ two_bytes number) }
{
    put_u16(section, (number % TWO_BYTES) as u16)
}

/// Appends a number in groups of seven bits, the last of which is below a limit of 16 to 128.
pub fn put_groups(section: &mut Vec<u8>, limit: u32, number: u32) -> Result<()>
    requires { (16 ≤ limit) × (limit ≤ 128) }
    ensures { OnOk result (section.new.items ≡ section.old.items ++ groups limit 4 number) }
{
    let mut rest = number;
    while rest >= limit {
        section.extend_from_slice(&[(rest % 128) as u8 + 128])?;
        rest /= 128;
    }
    section.extend_from_slice(&[rest as u8])?;
    Ok(())
}

/// Appends a number as an unsigned LEB128.
#[tactic(auto, unfolding(crate::specs::Fields::unsigned_leb))]
pub fn put_unsigned(section: &mut Vec<u8>, number: u32) -> Result<()>
    ensures { OnOk result (section.new.items ≡ section.old.items ++ unsigned_leb number) }
{
    put_groups(section, 128, number)
}

/// Appends a number that is so much below zero as a signed LEB128 of five groups.
#[tactic(auto, unfolding(crate::specs::Fields::negative_leb))]
pub fn put_negative(section: &mut Vec<u8>, less: u32) -> Result<()>
    ensures { OnOk result (section.new.items ≡ section.old.items ++ negative_leb less) }
{
    let number = FIVE_GROUPS - u64::from(less);
    put_bytes(
        section,
        &[
            (number % 128) as u8 + 128,
            (number / 128 % 128) as u8 + 128,
            (number / 16384 % 128) as u8 + 128,
            (number / 2097152 % 128) as u8 + 128,
            (number / 268435456) as u8,
        ],
    )
}

/// Bytes behind their length.
pub fn sized(alloc: Global, bytes: &[u8]) -> Result<Vec<u8>>
    ensures { IfOk result (λ section. section.items ≡ sized bytes.now) }
{
    let mut section = Vec::new(alloc);
    put_length(&mut section, bytes.len())?;
    section.extend_from_slice(bytes)?;
    Ok(section)
}
