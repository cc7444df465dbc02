ghost use Rattle.std.specs.Prelude.{◌≡◌, ◌+◌, ◌*◌, ◌<◌, ◌≤◌, ◌++◌, length, slice_get, vec_capacity, vec_len, Some};
ghost use Rattle.nv_memory.specs.Board.{left_of};
ghost use Rattle.nv_memory.specs.Bytes.{bytes_at};
ghost use Rattle.board_core.specs.Sure.{write_of};
ghost use Rattle.board_core.specs.Records.{IsHeld, entries_by, is_silent, left_end, left_len, op_of, width};

use nv_memory::{Class, Entry, Line, Op, refilled};

/// What an operation was, where the bytes that it left stand aside: `len` of them from `from` on.
#[derive(Clone, Copy)]
pub enum What {
    Instr {
        class: Class,
        pc: u32,
    },
    Emit {
        pc: u32,
        at: u32,
        from: u32,
        len: u32,
    },
    Write {
        at: u32,
        from: u32,
        len: u32,
    },
    Wake,
    Sleep,
}

/// What a timeline has in memory: one operation, or some ticks of sleep with one harvest, each of which is an entry.
#[derive(Clone, Copy)]
pub enum Record {
    Did {
        tick: u32,
        stored: u32,
        drawn: u32,
        ticks: u32,
        lost: bool,
        what: What,
    },
    Slept {
        tick: u32,
        stored: u32,
        harvest: u32,
        ticks: u32,
    },
}

/// Appends bytes where there is room.
fn append(left: &mut Vec<u8>, bytes: &[u8])
    requires { vec_len left.old + length bytes.now ≤ vec_capacity left.old }
    ensures items { left.new.items ≡ left.old.items ++ bytes.now }
    ensures capacity { vec_capacity left.old ≤ vec_capacity left.new }
{
    let _ = left.extend_from_slice(bytes);
}

/// Lays the bytes of a write aside, by the instruction at a place of the code or by none.
pub(crate) fn laid_write(left: &mut Vec<u8>, pc: Option<u32>, at: u32, bytes: &[u8]) -> What
    requires room { vec_len left.old + 64 ≤ vec_capacity left.old }
    requires small { vec_len left.old < 2147483648 }
    requires few { length bytes.now ≤ 64 }
    ensures op { op_of left.new.items result ≡ write_of pc at bytes.now }
    ensures items { left.new.items ≡ left.old.items ++ bytes.now }
    ensures end { left_end result ≤ length left.new.items }
    ensures short { left_len result ≤ 64 }
    ensures capacity { vec_capacity left.old ≤ vec_capacity left.new }
{
    let from = left.len() as u32;
    let len = bytes.len() as u32;
    append(left, bytes);
    match pc {
        Some(pc) => What::Emit { pc, at, from, len },
        None => What::Write { at, from, len },
    }
}

/// Lays the bytes of an operation aside.
pub(crate) fn laid(left: &mut Vec<u8>, op: &Op) -> What
    requires room { vec_len left.old + 64 ≤ vec_capacity left.old }
    requires small { vec_len left.old < 2147483648 }
    ensures op { op_of left.new.items result ≡ op.now }
    ensures items { left.new.items ≡ left.old.items ++ left_of op.now }
    ensures few { length (left_of op.now) ≤ 64 }
    ensures end { left_end result ≤ length left.new.items }
    ensures short { left_len result ≤ 64 }
    ensures capacity { vec_capacity left.old ≤ vec_capacity left.new }
{
    match op {
        Op::Instr { class, pc } => What::Instr {
            class: *class,
            pc: *pc,
        },
        Op::Emit { pc, at, left: line } => laid_write(left, Some(*pc), *at, line.bytes()),
        Op::Write { at, left: line } => laid_write(left, None, *at, line.bytes()),
        Op::Wake => What::Wake,
        Op::Sleep => What::Sleep,
    }
}

// The bytes that were laid aside.
fn line_at(left: &[u8], from: u32, len: u32) -> Line
    requires within { from + len ≤ length left.now }
    requires short { len ≤ 64 }
    ensures { result ≡ bytes_at from len left.now }
{
    let from = from as usize;
    Line::of(&left[from..from + len as usize])
}

impl What {
    /// The operation, with its bytes.
    fn op(&self, left: &[u8]) -> Op
        requires end { left_end self.now ≤ length left.now }
        requires short { left_len self.now ≤ 64 }
        ensures { result ≡ op_of left.now self.now }
    {
        match self {
            What::Instr { class, pc } => Op::Instr {
                class: *class,
                pc: *pc,
            },
            What::Emit { pc, at, from, len } => Op::Emit {
                pc: *pc,
                at: *at,
                left: line_at(left, *from, *len),
            },
            What::Write { at, from, len } => Op::Write {
                at: *at,
                left: line_at(left, *from, *len),
            },
            What::Wake => Op::Wake,
            What::Sleep => Op::Sleep,
        }
    }
}

impl Record {
    /// For how many entries it stands.
    pub(crate) fn width(&self) -> u32
        ensures { result ≡ width self.now }
    {
        match self {
            Record::Did { .. } => 1,
            Record::Slept { ticks, .. } => *ticks,
        }
    }

    /// Whether all its entries are silent: ticks of sleep, or an instruction without an output that was done.
    pub(crate) fn is_silent(&self) -> bool
        ensures { result ≡ is_silent self.now }
    {
        match self {
            Record::Did {
                lost,
                what: What::Instr { .. },
                ..
            } => !*lost,
            Record::Did { .. } => false,
            Record::Slept { .. } => true,
        }
    }

    /// One of its entries.
    pub(crate) fn entry(&self, cap: u32, left: &[u8], nth: u32) -> Entry
        requires held { IsHeld cap (length left.now) self.now }
        requires nth { nth < width self.now }
        ensures { slice_get (entries_by cap left.now self.now) nth ≡ Some result }
    {
        match self {
            Record::Did {
                tick,
                stored,
                drawn,
                ticks,
                lost,
                what,
            } => Entry {
                tick: *tick,
                stored: *stored,
                drawn: *drawn,
                ticks: *ticks,
                op: what.op(left),
                lost: *lost,
            },
            Record::Slept {
                tick,
                stored,
                harvest,
                ..
            } => Entry {
                tick: *tick + nth,
                stored: refilled(cap, *stored, nth, *harvest),
                drawn: 0,
                ticks: 1,
                op: Op::Sleep,
                lost: false,
            },
        }
    }
}
