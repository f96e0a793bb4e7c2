//! The lines of instructions.

ghost use Rattle.std.specs.Prelude.{◌≡◌, ◌++◌, ◌∷◌, [], OnOk};
ghost use Rattle.machine_isa.specs.Bytes.{number};
ghost use Rattle.asm_format.specs.Mnemonics.{instr_line, mnemonic, named, operands_text};
ghost use Rattle.asm_format.specs.Operands.{listed};

use crate::numbers::put_signed;
use machine_isa::Instr;
use out_of_memory::OutOfMemory;
use syntax_tree::Text;

/// The operands that an instruction names.
#[derive(Clone, Copy)]
enum Operands {
    Nothing,
    One(i32),
    Two(i32, i32),
    Three(i32, i32, i32),
}

/// The name of an instruction.
fn mnemonic_of(instr: &Instr) -> &'static [u8]
    ensures { result.now ≡ mnemonic (number instr.now) }
{
    match *instr {
        Instr::Push { .. } => b"PUSH",
        Instr::LoadLocal { .. } => b"LDL",
        Instr::StoreLocal { .. } => b"STL",
        Instr::LoadOwn { .. } => b"LDG",
        Instr::StoreOwn { .. } => b"STG",
        Instr::LoadMon { .. } => b"LDM",
        Instr::StoreMon { .. } => b"STM",
        Instr::LoadLocalAt { .. } => b"LDLX",
        Instr::StoreLocalAt { .. } => b"STLX",
        Instr::LoadOwnAt { .. } => b"LDGX",
        Instr::StoreOwnAt { .. } => b"STGX",
        Instr::LoadMonAt { .. } => b"LDMX",
        Instr::StoreMonAt { .. } => b"STMX",
        Instr::Neg => b"NEG",
        Instr::Not => b"NOT",
        Instr::And => b"AND",
        Instr::Or => b"OR",
        Instr::Add => b"ADD",
        Instr::Sub => b"SUB",
        Instr::Eq => b"EQ",
        Instr::Ne => b"NE",
        Instr::Lt => b"LT",
        Instr::Le => b"LE",
        Instr::Gt => b"GT",
        Instr::Ge => b"GE",
        Instr::Mul => b"MUL",
        Instr::Div => b"DIV",
        Instr::Mod => b"MOD",
        Instr::Range { .. } => b"RNG",
        Instr::JumpZero { .. } => b"JZ",
        Instr::Jump { .. } => b"JMP",
        Instr::Repeats { .. } => b"REPS",
        Instr::Repeat { .. } => b"REP",
        Instr::Exit { .. } => b"EXIT",
        Instr::Call { .. } => b"CALL",
        Instr::Return => b"RET",
        Instr::ReturnValue => b"RETV",
        Instr::Enter { .. } => b"ENTER",
        Instr::Leave { .. } => b"LEAVE",
        Instr::Wait { .. } => b"WAIT",
        Instr::Reenter { .. } => b"REENT",
        Instr::Signal { .. } => b"SIG",
        Instr::Broadcast { .. } => b"BCAST",
        Instr::Empty { .. } => b"EMPTY",
        Instr::In { .. } => b"IN",
        Instr::Out { .. } => b"OUT",
        Instr::Raise { .. } => b"RAISE",
        Instr::End => b"END",
    }
}

/// The operands that an instruction names, in the order of its line.
fn operands_of(instr: &Instr) -> Operands
    ensures { listed result ≡ named instr.now }
{
    match *instr {
        Instr::Push { value } => Operands::One(value),
        Instr::LoadLocal { word } => Operands::One(word),
        Instr::StoreLocal { word } => Operands::One(word),
        Instr::LoadOwn { word } => Operands::One(word),
        Instr::StoreOwn { word } => Operands::One(word),
        Instr::LoadMon { word } => Operands::One(word),
        Instr::StoreMon { word } => Operands::One(word),
        Instr::LoadLocalAt { word, low, len } => Operands::Three(word, low, len),
        Instr::StoreLocalAt { word, low, len } => Operands::Three(word, low, len),
        Instr::LoadOwnAt { word, low, len } => Operands::Three(word, low, len),
        Instr::StoreOwnAt { word, low, len } => Operands::Three(word, low, len),
        Instr::LoadMonAt { word, low, len } => Operands::Three(word, low, len),
        Instr::StoreMonAt { word, low, len } => Operands::Three(word, low, len),
        Instr::Neg => Operands::Nothing,
        Instr::Not => Operands::Nothing,
        Instr::And => Operands::Nothing,
        Instr::Or => Operands::Nothing,
        Instr::Add => Operands::Nothing,
        Instr::Sub => Operands::Nothing,
        Instr::Eq => Operands::Nothing,
        Instr::Ne => Operands::Nothing,
        Instr::Lt => Operands::Nothing,
        Instr::Le => Operands::Nothing,
        Instr::Gt => Operands::Nothing,
        Instr::Ge => Operands::Nothing,
        Instr::Mul => Operands::Nothing,
        Instr::Div => Operands::Nothing,
        Instr::Mod => Operands::Nothing,
        Instr::Range { low, high } => Operands::Two(low, high),
        Instr::JumpZero { to } => Operands::One(to),
        Instr::Jump { to } => Operands::One(to),
        Instr::Repeats { turns } => Operands::One(turns),
        Instr::Repeat { to } => Operands::One(to),
        Instr::Exit { to } => Operands::One(to),
        Instr::Call { routine } => Operands::One(routine),
        Instr::Return => Operands::Nothing,
        Instr::ReturnValue => Operands::Nothing,
        Instr::Enter { monitor } => Operands::One(monitor),
        Instr::Leave { monitor } => Operands::One(monitor),
        Instr::Wait {
            condition,
            limit,
            number,
        } => Operands::Three(condition, limit, number),
        Instr::Reenter { monitor } => Operands::One(monitor),
        Instr::Signal { condition } => Operands::One(condition),
        Instr::Broadcast { condition } => Operands::One(condition),
        Instr::Empty { condition } => Operands::One(condition),
        Instr::In { device } => Operands::One(device),
        Instr::Out { device } => Operands::One(device),
        Instr::Raise { number } => Operands::One(number),
        Instr::End => Operands::Nothing,
    }
}

/// Puts an operand after a space, and ends the line.
fn put_one(text: &mut Text, last: i32) -> Result<(), OutOfMemory>
    ensures { OnOk result (text.new ≡ text.old ++ operands_text (last ∷ [])) }
{
    put_signed(text, b" ", last)?;
    text.extend(b"\n")?;
    Ok(())
}

/// Puts two operands, each after a space, and ends the line.
fn put_two(text: &mut Text, first: i32, last: i32) -> Result<(), OutOfMemory>
    ensures { OnOk result (text.new ≡ text.old ++ operands_text (first ∷ last ∷ [])) }
{
    put_signed(text, b" ", first)?;
    put_one(text, last)?;
    Ok(())
}

/// Puts three operands, each after a space, and ends the line.
fn put_three(text: &mut Text, first: i32, second: i32, last: i32) -> Result<(), OutOfMemory>
    ensures { OnOk result (text.new ≡ text.old ++ operands_text (first ∷ second ∷ last ∷ [])) }
{
    put_signed(text, b" ", first)?;
    put_two(text, second, last)?;
    Ok(())
}

/// Puts operands, each after a space, and ends the line.
fn put_operands(text: &mut Text, operands: Operands) -> Result<(), OutOfMemory>
    ensures { OnOk result (text.new ≡ text.old ++ operands_text (listed operands)) }
{
    match operands {
        Operands::Nothing => text.extend(b"\n"),
        Operands::One(last) => put_one(text, last),
        Operands::Two(first, last) => put_two(text, first, last),
        Operands::Three(first, second, last) => put_three(text, first, second, last),
    }
}

/// Puts the line of an instruction.
pub fn put_instr(text: &mut Text, instr: &Instr) -> Result<(), OutOfMemory>
    ensures { OnOk result (text.new ≡ text.old ++ instr_line instr.now) }
{
    text.extend(mnemonic_of(instr))?;
    put_operands(text, operands_of(instr))?;
    Ok(())
}
