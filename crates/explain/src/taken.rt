//! What instructions take from the stack and from locals (JVM Specification SE 8, 6.5).
use crate::frames::kind_word;
use crate::lines::Lines;
use crate::references::{descriptor_of, reference_at};
use class_model::opcodes::{
    AALOAD, AASTORE, BALOAD, BASTORE, CALOAD, CASTORE, D2F, D2I, DALOAD, DASTORE, DCMPG, DCMPL,
    DNEG, DREM, DUP, DUP_X1, DUP2, F2D, F2I, FALOAD, FASTORE, FCMPG, FCMPL, I2L, I2S, IADD, IALOAD,
    IAND, IASTORE, INEG, ISHL, L2D, L2I, LALOAD, LASTORE, LCMP, LUSHR, LXOR, POP, POP2, SWAP,
};
use class_model::{ClassFile, Instr};

/// Writes what an instruction takes, if it takes something.
pub(crate) fn put_taken(lines: &mut Lines, file: &ClassFile, instr: &Instr) {
    match instr {
        Instr::Load(kind, at) => put_local(lines, *at, kind_word(*kind)),
        Instr::Iinc(at, _) => put_local(lines, *at, "int"),
        Instr::Store(kind, _) => put_words(lines, kind_word(*kind)),
        Instr::PutStatic(index)
        | Instr::GetField(index)
        | Instr::PutField(index)
        | Instr::Invoke(_, index, _) => put_member(lines, file, *index),
        Instr::Dynamic(index) => put_dynamic(lines, file, *index),
        Instr::Return(_) => lines.put("  it must return what the method's descriptor says\n"),
        _ => {
            let words = plain(instr);
            if !words.is_empty() {
                put_words(lines, words);
            }
        }
    }
}

fn put_local(lines: &mut Lines, at: u16, words: &str) {
    lines.put("  local ");
    lines.number(u64::from(at));
    lines.put(" must be ");
    lines.put(words);
    lines.put("\n");
}

fn put_words(lines: &mut Lines, words: &str) {
    lines.put("  it takes ");
    lines.put(words);
    lines.put(" from the stack, the last from the top\n");
}

// Of a field or a call the descriptor says what is taken.
fn put_member(lines: &mut Lines, file: &ClassFile, index: u16) {
    if let Some(reference) = reference_at(&file.pool, index) {
        lines.put("  it names ");
        lines.member(
            reference.class.bytes(),
            reference.name.bytes(),
            reference.desc.bytes(),
        );
        lines.put(", and takes the object unless that is static, and the value or the arguments\n");
    }
}

fn put_dynamic(lines: &mut Lines, file: &ClassFile, index: u16) {
    if let Some(constant) = file.pool.get(index) {
        if let Some(desc) = descriptor_of(&file.pool, constant) {
            lines.put("  it takes the arguments of ");
            lines.name(desc.bytes());
            lines.put("\n");
        }
    }
}

// What instructions take that is the same of each of their operands.
fn plain(instr: &Instr) -> &'static str {
    match instr {
        Instr::Pure(opcode) | Instr::Divide(opcode) | Instr::FloatAsk(opcode) => {
            arithmetic(*opcode)
        }
        Instr::ArrayLoad(opcode) => array_load(*opcode),
        Instr::ArrayStore(opcode) => array_store(*opcode),
        Instr::Shuffle(opcode) => shuffle(*opcode),
        Instr::If2(..) => "int and int",
        Instr::IfSame(..) => "two references",
        Instr::IfNull(..) => "a reference",
        _ => plain_one(instr),
    }
}

fn plain_one(instr: &Instr) -> &'static str {
    match instr {
        Instr::If(..) | Instr::Table { .. } | Instr::Lookup { .. } => "int",
        Instr::NewArray(_) | Instr::NewRefArray(_) => "int",
        Instr::NewMulti(..) => "an int for each dimension",
        Instr::Length => "an array",
        Instr::Throw => "a throwable",
        Instr::Cast(_) | Instr::InstanceOf(_) => "a reference",
        Instr::Enter | Instr::Leave => "a reference",
        _ => "",
    }
}

fn arithmetic(opcode: u8) -> &'static str {
    match opcode {
        IADD..=DREM => two(opcode % 4),
        INEG..=DNEG => one(opcode % 4),
        ISHL..=LUSHR => shifted(opcode % 2),
        IAND..=LXOR => two(opcode % 2),
        I2L..=I2S => converted(opcode),
        LCMP => two(1),
        FCMPL | FCMPG => two(2),
        DCMPL | DCMPG => two(3),
        _ => "",
    }
}

fn two(kind: u8) -> &'static str {
    match kind {
        0 => "int and int",
        1 => "long and long",
        2 => "float and float",
        _ => "double and double",
    }
}

fn one(kind: u8) -> &'static str {
    match kind {
        0 => "int",
        1 => "long",
        2 => "float",
        _ => "double",
    }
}

fn shifted(kind: u8) -> &'static str {
    match kind {
        0 => "int and int",
        _ => "long and int",
    }
}

fn converted(opcode: u8) -> &'static str {
    match opcode {
        L2I..=L2D => "long",
        F2I..=F2D => "float",
        D2I..=D2F => "double",
        _ => "int",
    }
}

fn array_load(opcode: u8) -> &'static str {
    match opcode {
        IALOAD => "an array of int and int",
        LALOAD => "an array of long and int",
        FALOAD => "an array of float and int",
        DALOAD => "an array of double and int",
        AALOAD => "an array of references and int",
        BALOAD => "an array of byte or boolean and int",
        CALOAD => "an array of char and int",
        _ => "an array of short and int",
    }
}

fn array_store(opcode: u8) -> &'static str {
    match opcode {
        IASTORE => "an array of int, int and int",
        LASTORE => "an array of long, int and long",
        FASTORE => "an array of float, int and float",
        DASTORE => "an array of double, int and double",
        AASTORE => "an array of references, int and a reference",
        BASTORE => "an array of byte or boolean, int and int",
        CASTORE => "an array of char, int and int",
        _ => "an array of short, int and int",
    }
}

fn shuffle(opcode: u8) -> &'static str {
    match opcode {
        POP | DUP => "one entry that is neither long nor double",
        POP2 | DUP2 => "one entry that is long or double, or two that are neither",
        DUP_X1 | SWAP => "two entries that are neither long nor double",
        _ => "entries that it does not cut in the middle of a long or double",
    }
}
