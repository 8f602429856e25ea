//! Operands by their forms. Names of registers. Numbers of task source.
ghost use Rattle.std.specs.Prelude.{◌≡◌, IfOk, ◌<◌, IfSome, ◌≤◌};
ghost use Rattle.asm_lines.specs.Operands.{small_of, direct_operand, in_brackets, place, read_operand};
ghost use Rattle.asm_lines.specs.Registers.{small_number, register};
ghost use Rattle.std.specs.List.{list_all};
ghost use Rattle.std.specs.Char.{is_ascii_digit, is_ascii_hexdigit};
ghost use Rattle.asm_lines.specs.Numbers.{is_hexadecimal, magnitude, signed_number, number, is_within};

use crate::Form;
use crate::source_line::trim;
use hex::{FromHexError, decode};
use sloth_base::{List, Name, NoMemory, OPERAND_LIMIT, Reg, Result};
use std::alloc::Global;
use text_pieces::{after, before, behind, front, has, is_name, same, value};

/// What an operand is.
#[derive(Drop)]
pub enum Operand {
    /// It has another form.
    Wrong,
    /// A number in it is out of its range.
    Outside,
    Register(Reg),
    Number(i64),
    Name(Name),
    /// A word of the frame.
    Frame(u32),
    /// A byte of a symbol.
    Direct { name: Name, offset: u32 },
    /// The byte of a symbol that a register names, under a mask.
    Indexed { name: Name, index: Reg, mask: u32 },
    /// Bytes in hexadecimal digits.
    Bytes(List<u8>),
}

// A number from 0 to the limit of operands.
#[derive(Clone, Copy)]
pub enum Small {
    NoNumber,
    TooFar,
    Is(u32),
}

fn limited(number: Option<i64>) -> Small
    ensures { result ≡ small_of number }
{
    match number {
        None => Small::NoNumber,
        Some(n) if n >= 0 && n <= OPERAND_LIMIT => Small::Is(n as u32),
        Some(_) => Small::TooFar,
    }
}

fn direct(alloc: Global, name: &[u8], offset: Small) -> Result<Operand>
    ensures { IfOk result (λ o. o ≡ direct_operand name.now offset) }
{
    if !is_name(name) {
        return Ok(Operand::Wrong);
    }
    match offset {
        Small::NoNumber => Ok(Operand::Wrong),
        Small::TooFar => Ok(Operand::Outside),
        Small::Is(offset) => {
            let name = Name::new(alloc, name)?;
            Ok(Operand::Direct { name, offset })
        },
    }
}

#[tactic(auto, unfolding(crate::specs::Operands::in_brackets))]
fn in_brackets(alloc: Global, in_frame: bool, name: &[u8], inside: &[u8]) -> Result<Operand>
    ensures { IfOk result (λ o. o ≡ in_brackets in_frame name.now inside.now) }
{
    if has(inside, b'&') {
        let index = register(trim(before(inside, b'&')));
        let mask = limited(number(trim(behind(inside, b'&'))));
        if !is_name(name) {
            return Ok(Operand::Wrong);
        }
        return match (index, mask) {
            (None, _) | (_, Small::NoNumber) => Ok(Operand::Wrong),
            (_, Small::TooFar) => Ok(Operand::Outside),
            (Some(index), Small::Is(mask)) => {
                let name = Name::new(alloc, name)?;
                Ok(Operand::Indexed { name, index, mask })
            },
        };
    }
    if in_frame && same(name, b"frame") {
        return Ok(match limited(number(inside)) {
            Small::NoNumber => Operand::Wrong,
            Small::TooFar => Operand::Outside,
            Small::Is(k) => Operand::Frame(k),
        });
    }
    Ok(Operand::Wrong)
}

#[tactic(auto, unfolding(crate::specs::Operands::place, crate::specs::Operands::bracketed_operand))]
fn place(alloc: Global, in_frame: bool, text: &[u8]) -> Result<Operand>
    ensures { IfOk result (λ o. o ≡ place in_frame text.now) }
{
    if has(text, b'[') {
        let rest = behind(text, b'[');
        if rest.is_empty() || rest[rest.len() - 1] != b']' {
            return Ok(Operand::Wrong);
        }
        let inside = trim(front(rest, rest.len() - 1));
        return in_brackets(alloc, in_frame, before(text, b'['), inside);
    }
    if has(text, b'+') {
        let offset = limited(number(trim(behind(text, b'+'))));
        return direct(alloc, trim(before(text, b'+')), offset);
    }
    direct(alloc, text, Small::Is(0))
}

/// The operand that a text is, where one of this form is wanted.
pub fn read_operand(alloc: Global, form: Form, text: &[u8]) -> Result<Operand>
    ensures { IfOk result (λ o. o ≡ read_operand form text.now) }
{
    match form {
        Form::Register => match register(text) {
            None => Ok(Operand::Wrong),
            Some(register) => Ok(Operand::Register(register)),
        },
        Form::Number { low, high } => match number(text) {
            None => Ok(Operand::Wrong),
            Some(n) if is_within(low, high, n) => Ok(Operand::Number(n)),
            Some(_) => Ok(Operand::Outside),
        },
        Form::Name if !is_name(text) => Ok(Operand::Wrong),
        Form::Name => Ok(Operand::Name(Name::new(alloc, text)?)),
        Form::Place => place(alloc, false, text),
        Form::WordPlace => place(alloc, true, text),
        Form::Bytes => match decode(alloc, text) {
            Ok(bytes) => Ok(Operand::Bytes(List::from_vec(bytes))),
            Err(FromHexError::OutOfMemory) => Err(NoMemory),
            Err(_) => Ok(Operand::Wrong),
        },
    }
}

// The number of one or two digits, as it is printed.
#[tactic(auto, unfolding(crate::specs::Registers::small_number))]
fn small_number(text: &[u8]) -> Option<u8>
    ensures value { result ≡ small_number text.now }
    ensures small { IfSome result (λ n. n < 100) }
{
    if text.len() == 1 && text[0].is_ascii_digit() {
        return Some(text[0] - b'0');
    }
    if text.len() == 2 && text[0].is_ascii_digit() && text[0] != b'0' && text[1].is_ascii_digit() {
        return Some((text[0] - b'0') * 10 + (text[1] - b'0'));
    }
    None
}

/// The register of this name, where task code may use it: x0, or x5 to x29.
#[tactic(auto, unfolding(crate::specs::Registers::register))]
pub fn register(name: &[u8]) -> Option<Reg>
    ensures { result ≡ register name.now }
{
    if same(name, b"zero") {
        return Some(Reg(0));
    }
    if same(name, b"fp") {
        return Some(Reg(8));
    }
    if name.is_empty() {
        return None;
    }
    let Some(n) = small_number(after(name, 1)) else {
        return None;
    };
    match name[0] {
        b'x' if n == 0 || (n >= 5 && n <= 29) => Some(Reg(n)),
        b't' if n <= 2 => Some(Reg(5 + n)),
        b't' if n <= 4 => Some(Reg(25 + n)),
        b's' if n <= 1 => Some(Reg(8 + n)),
        b's' if n <= 11 => Some(Reg(16 + n)),
        b'a' if n <= 7 => Some(Reg(10 + n)),
        _ => None,
    }
}

fn are_digits(text: &[u8]) -> bool
    ensures { result ≡ list_all is_ascii_digit text.now }
{
    text.iter().all(|byte| byte.is_ascii_digit())
}

fn are_hex_digits(text: &[u8]) -> bool
    ensures { result ≡ list_all is_ascii_hexdigit text.now }
{
    text.iter().all(|byte| byte.is_ascii_hexdigit())
}

// Whether `0x` stands in front.
fn is_hexadecimal(text: &[u8]) -> bool
    ensures { result ≡ is_hexadecimal text.now }
{
    text.len() > 1 && text[0] == b'0' && text[1] == b'x'
}

// The number of the digits, in the base that stands in front.
#[tactic(auto, unfolding(crate::specs::Numbers::magnitude))]
fn magnitude(text: &[u8]) -> Option<u64>
    ensures value { result ≡ magnitude text.now }
    ensures small { IfSome result (λ n. n ≤ 4294967296) }
{
    if is_hexadecimal(text) {
        let digits = after(text, 2);
        if digits.is_empty() || !are_hex_digits(digits) {
            return None;
        }
        return Some(value(digits, 16));
    }
    if text.is_empty() || !are_digits(text) {
        return None;
    }
    Some(value(text, 10))
}

fn signed(is_negative: bool, magnitude: Option<u64>) -> Option<i64>
    requires { IfSome magnitude (λ n. n ≤ 4294967296) }
    ensures { result ≡ signed_number is_negative magnitude }
{
    match magnitude {
        None => None,
        Some(n) => Some(if is_negative { -(n as i64) } else { n as i64 }),
    }
}

/// The number that this text is.
#[tactic(auto, unfolding(crate::specs::Numbers::number))]
pub fn number(text: &[u8]) -> Option<i64>
    ensures { result ≡ number text.now }
{
    if !text.is_empty() && text[0] == b'-' {
        signed(true, magnitude(after(text, 1)))
    } else {
        signed(false, magnitude(text))
    }
}

pub fn is_within(low: i64, high: i64, n: i64) -> bool
    ensures { result ≡ is_within low high n }
{
    n >= low && n <= high
}
