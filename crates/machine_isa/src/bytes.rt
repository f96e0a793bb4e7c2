//! An instruction as bytes.

ghost use Rattle.std.specs.Prelude.{◌≡◌, ◌≤◌, ◌+◌, length, IfSome};
ghost use Rattle.machine_isa.specs.declared.instr.Instr.{Instr};
ghost use Rattle.machine_isa.specs.Bytes.{HasWords, arity as arity_of, instr_bytes, number as number_of, operands};
ghost use Rattle.machine_isa.specs.Numbered.{named_by, numbered, word_at as word};

use crate::instr::Instr;
use byteorder::{BigEndian, ByteOrder};

/// The number of an instruction, and its operands, with zeros for those that it does not name.
fn fields_of(instr: &Instr) -> (u8, [i32; 3])
    ensures number { result.0 ≡ number_of instr.now }
    ensures operands { result.1 ≡ operands instr.now }
{
    match *instr {
        Instr::Push { value } => (1, [value, 0, 0]),
        Instr::LoadLocal { word } => (2, [word, 0, 0]),
        Instr::StoreLocal { word } => (3, [word, 0, 0]),
        Instr::LoadOwn { word } => (4, [word, 0, 0]),
        Instr::StoreOwn { word } => (5, [word, 0, 0]),
        Instr::LoadMon { word } => (6, [word, 0, 0]),
        Instr::StoreMon { word } => (7, [word, 0, 0]),
        Instr::LoadLocalAt { word, low, len } => (8, [word, low, len]),
        Instr::StoreLocalAt { word, low, len } => (9, [word, low, len]),
        Instr::LoadOwnAt { word, low, len } => (10, [word, low, len]),
        Instr::StoreOwnAt { word, low, len } => (11, [word, low, len]),
        Instr::LoadMonAt { word, low, len } => (12, [word, low, len]),
        Instr::StoreMonAt { word, low, len } => (13, [word, low, len]),
        Instr::Neg => (14, [0, 0, 0]),
        Instr::Not => (15, [0, 0, 0]),
        Instr::And => (16, [0, 0, 0]),
        Instr::Or => (17, [0, 0, 0]),
        Instr::Add => (18, [0, 0, 0]),
        Instr::Sub => (19, [0, 0, 0]),
        Instr::Eq => (20, [0, 0, 0]),
        Instr::Ne => (21, [0, 0, 0]),
        Instr::Lt => (22, [0, 0, 0]),
        Instr::Le => (23, [0, 0, 0]),
        Instr::Gt => (24, [0, 0, 0]),
        Instr::Ge => (25, [0, 0, 0]),
        Instr::Mul => (26, [0, 0, 0]),
        Instr::Div => (27, [0, 0, 0]),
        Instr::Mod => (28, [0, 0, 0]),
        Instr::Range { low, high } => (29, [low, high, 0]),
        Instr::JumpZero { to } => (30, [to, 0, 0]),
        Instr::Jump { to } => (31, [to, 0, 0]),
        Instr::Repeats { turns } => (32, [turns, 0, 0]),
        Instr::Repeat { to } => (33, [to, 0, 0]),
        Instr::Exit { to } => (34, [to, 0, 0]),
        Instr::Call { routine } => (35, [routine, 0, 0]),
        Instr::Return => (36, [0, 0, 0]),
        Instr::ReturnValue => (37, [0, 0, 0]),
        Instr::Enter { monitor } => (38, [monitor, 0, 0]),
        Instr::Leave { monitor } => (39, [monitor, 0, 0]),
        Instr::Wait {
            condition,
            limit,
            number,
        } => (40, [condition, limit, number]),
        Instr::Reenter { monitor } => (41, [monitor, 0, 0]),
        Instr::Signal { condition } => (42, [condition, 0, 0]),
        Instr::Broadcast { condition } => (43, [condition, 0, 0]),
        Instr::Empty { condition } => (44, [condition, 0, 0]),
        Instr::In { device } => (45, [device, 0, 0]),
        Instr::Out { device } => (46, [device, 0, 0]),
        Instr::Raise { number } => (47, [number, 0, 0]),
        Instr::End => (48, [0, 0, 0]),
    }
}

/// How many operands the instruction of a number names.
pub fn arity(number: u8) -> u8
    ensures { result ≡ arity_of number }
{
    match number {
        14..=28 | 36 | 37 | 48 => 0,
        8..=13 | 40 => 3,
        29 => 2,
        _ => 1,
    }
}

/// The instruction of a number from 1 to 48, with those of the operands that it names.
pub fn instr_of(number: u8, a: i32, b: i32, c: i32) -> Option<Instr>
    ensures { result ≡ numbered number a b c }
{
    match number {
        0 => None,
        1 => Some(Instr::Push { value: a }),
        2 => Some(Instr::LoadLocal { word: a }),
        3 => Some(Instr::StoreLocal { word: a }),
        4 => Some(Instr::LoadOwn { word: a }),
        5 => Some(Instr::StoreOwn { word: a }),
        6 => Some(Instr::LoadMon { word: a }),
        7 => Some(Instr::StoreMon { word: a }),
        8 => Some(Instr::LoadLocalAt {
            word: a,
            low: b,
            len: c,
        }),
        9 => Some(Instr::StoreLocalAt {
            word: a,
            low: b,
            len: c,
        }),
        10 => Some(Instr::LoadOwnAt {
            word: a,
            low: b,
            len: c,
        }),
        11 => Some(Instr::StoreOwnAt {
            word: a,
            low: b,
            len: c,
        }),
        12 => Some(Instr::LoadMonAt {
            word: a,
            low: b,
            len: c,
        }),
        13 => Some(Instr::StoreMonAt {
            word: a,
            low: b,
            len: c,
        }),
        14 => Some(Instr::Neg),
        15 => Some(Instr::Not),
        16 => Some(Instr::And),
        17 => Some(Instr::Or),
        18 => Some(Instr::Add),
        19 => Some(Instr::Sub),
        20 => Some(Instr::Eq),
        21 => Some(Instr::Ne),
        22 => Some(Instr::Lt),
        23 => Some(Instr::Le),
        24 => Some(Instr::Gt),
        25 => Some(Instr::Ge),
        26 => Some(Instr::Mul),
        27 => Some(Instr::Div),
        28 => Some(Instr::Mod),
        29 => Some(Instr::Range { low: a, high: b }),
        30 => Some(Instr::JumpZero { to: a }),
        31 => Some(Instr::Jump { to: a }),
        32 => Some(Instr::Repeats { turns: a }),
        33 => Some(Instr::Repeat { to: a }),
        34 => Some(Instr::Exit { to: a }),
        35 => Some(Instr::Call { routine: a }),
        36 => Some(Instr::Return),
        37 => Some(Instr::ReturnValue),
        38 => Some(Instr::Enter { monitor: a }),
        39 => Some(Instr::Leave { monitor: a }),
        40 => Some(Instr::Wait {
            condition: a,
            limit: b,
            number: c,
        }),
        41 => Some(Instr::Reenter { monitor: a }),
        42 => Some(Instr::Signal { condition: a }),
        43 => Some(Instr::Broadcast { condition: a }),
        44 => Some(Instr::Empty { condition: a }),
        45 => Some(Instr::In { device: a }),
        46 => Some(Instr::Out { device: a }),
        47 => Some(Instr::Raise { number: a }),
        48 => Some(Instr::End),
        49..=255 => None,
    }
}

/// The 13 bytes of an instruction: its number, and its three operands with the highest byte first.
/// Operands that it does not name are 0.
pub fn write_instr(instr: &Instr) -> [u8; 13]
    ensures { result ≡ instr_bytes instr.now }
{
    let (number, operands) = fields_of(instr);
    let mut bytes = [0; 13];
    bytes[0] = number;
    BigEndian::write_i32_into(&operands, &mut bytes[1..]);
    bytes
}

/// The four bytes from a place on as a signed number, the highest byte first.
fn word_at(bytes: &[u8], at: usize) -> i32
    requires { at + 4 ≤ length bytes.now }
    ensures { result ≡ word bytes.now at }
{
    i32::from_be_bytes([bytes[at], bytes[at + 1], bytes[at + 2], bytes[at + 3]])
}

/// The instruction of the number that comes first, with those of the next three operands that it
/// names.
fn instr_at(bytes: &[u8]) -> Option<Instr>
    requires { 13 ≤ length bytes.now }
    ensures { result ≡ named_by bytes.now }
{
    let first = word_at(bytes, 1);
    let second = word_at(bytes, 5);
    let third = word_at(bytes, 9);
    instr_of(bytes[0], first, second, third)
}

/// The instruction that has these bytes: None where they are not the 13 bytes of one, as where
/// their first is no number of an instruction or an operand that it does not name is not 0.
pub fn read_instr(bytes: &[u8]) -> Option<Instr>
    ensures found { IfSome result (λ instr. bytes.now ≡ instr_bytes instr) }
    ensures only { (instr : Instr) → HasWords instr → bytes.now ≡ instr_bytes instr → result ≡
        Some instr }
{
    if bytes.len() != 13 {
        return None;
    }
    let instr = instr_at(bytes)?;
    if bytes == write_instr(&instr).as_slice() {
        Some(instr)
    } else {
        None
    }
}
