//! The numbers that an instruction is spelled by.

ghost use Rattle.std.specs.Prelude.{◌≡◌, ◌↔◌, ◌%◌, ◌^◌, IsTrue};
ghost use Rattle.cn_object.specs.Spelling.{cut, names_word, operator_number, parts_of, sign_number};
ghost use Rattle.cn_object.specs.Reading.{AreWhole, first_in, instr_in, operator_in, other_in};

use cat_machine::Instr;
use cat_program::{Operator, Sign};

/// The number of an instruction, and its operands.
#[derive(Clone, Copy)]
pub struct Parts {
    pub number: u8,
    pub a: u8,
    pub b: u16,
    pub c: u32,
}

fn operator_number(operator: Operator) -> u8
    ensures { result ≡ operator_number operator }
{
    match operator {
        Operator::Add => 5,
        Operator::Sub => 6,
        Operator::Mul => 7,
        Operator::Div => 8,
        Operator::Rem => 9,
        Operator::Eq => 10,
        Operator::Ne => 11,
        Operator::Lt => 12,
        Operator::Le => 13,
        Operator::Gt => 14,
        Operator::Ge => 15,
        Operator::And => 16,
        Operator::Or => 17,
    }
}

fn sign_number(sign: Sign) -> u8
    ensures { result ≡ sign_number sign }
{
    match sign {
        Sign::Neg => 3,
        Sign::Not => 4,
    }
}

/// What an instruction is spelled by.
pub(crate) fn parts_of(instr: Instr) -> Parts
    ensures { result ≡ parts_of instr }
{
    let (number, a, b, c) = match instr {
        Instr::Push(n) => (0, 0, 0, n.cast_unsigned()),
        Instr::Load(word) => (1, 0, 0, u32::from(word)),
        Instr::Payload => (2, 0, 0, 0),
        Instr::Signed(sign) => (sign_number(sign), 0, 0, 0),
        Instr::Operate(operator) => (operator_number(operator), 0, 0, 0),
        Instr::Jump(to) => (18, 0, 0, to),
        Instr::JumpZero(to) => (19, 0, 0, to),
        Instr::Turn(to) => (20, 0, 0, to),
        Instr::Begin(task) => (21, task, 0, 0),
        Instr::End => (22, 0, 0, 0),
        Instr::LoadAt { base, len } => (23, 0, len, u32::from(base)),
        Instr::Store(word) => (24, 0, 0, u32::from(word)),
        Instr::StoreAt { base, len } => (25, 0, len, u32::from(base)),
        Instr::Post(task) => (26, task, 0, 0),
        Instr::Out(channel) => (27, channel, 0, 0),
    };
    Parts { number, a, b, c }
}

fn operator_in(number: u8) -> Operator
    ensures { result ≡ operator_in number }
{
    match number {
        5 => Operator::Add,
        6 => Operator::Sub,
        7 => Operator::Mul,
        8 => Operator::Div,
        9 => Operator::Rem,
        10 => Operator::Eq,
        11 => Operator::Ne,
        12 => Operator::Lt,
        13 => Operator::Le,
        14 => Operator::Gt,
        15 => Operator::Ge,
        16 => Operator::And,
        _ => Operator::Or,
    }
}

// The number of a word or a base.
fn low(c: u32) -> u16
    ensures { result ≡ c % 2 ^ 16 }
{
    (c % 65536) as u16
}

fn first_in(p: Parts) -> Instr
    ensures { result ≡ first_in p }
{
    match p.number {
        0 => Instr::Push(p.c.cast_signed()),
        1 => Instr::Load(low(p.c)),
        2 => Instr::Payload,
        3 => Instr::Signed(Sign::Neg),
        _ => Instr::Signed(Sign::Not),
    }
}

fn other_in(p: Parts) -> Instr
    ensures { result ≡ other_in p }
{
    match p.number {
        18 => Instr::Jump(p.c),
        19 => Instr::JumpZero(p.c),
        20 => Instr::Turn(p.c),
        21 => Instr::Begin(p.a),
        23 => Instr::LoadAt {
            base: low(p.c),
            len: p.b,
        },
        24 => Instr::Store(low(p.c)),
        25 => Instr::StoreAt {
            base: low(p.c),
            len: p.b,
        },
        26 => Instr::Post(p.a),
        27 => Instr::Out(p.a),
        _ => Instr::End,
    }
}

/// The instruction of these numbers, if there is one. Others give some instruction, whose numbers differ from them.
pub(crate) fn instr_in(p: Parts) -> Instr
    ensures { result ≡ instr_in p }
{
    if p.number < 5 {
        first_in(p)
    } else if p.number < 18 {
        Instr::Operate(operator_in(p.number))
    } else {
        other_in(p)
    }
}

fn names_word(number: u8) -> bool
    ensures { result ≡ names_word number }
{
    number == 1 || number == 23 || number == 24 || number == 25
}

/// These numbers with no word beyond 65,535.
pub(crate) fn cut(p: Parts) -> Parts
    ensures { result ≡ cut p }
{
    if names_word(p.number) {
        Parts {
            number: p.number,
            a: p.a,
            b: p.b,
            c: p.c.min(65535),
        }
    } else {
        p
    }
}

fn are_same(p: Parts, q: Parts) -> bool
    ensures { IsTrue result ↔ (p ≡ q) }
{
    p.number == q.number && p.a == q.a && p.b == q.b && p.c == q.c
}

/// Whether these are the numbers of an instruction.
pub(crate) fn are_whole(p: Parts) -> bool
    ensures { IsTrue result ↔ AreWhole p }
{
    let cut = cut(p);
    let spelled = parts_of(instr_in(cut));
    are_same(spelled, cut)
}
