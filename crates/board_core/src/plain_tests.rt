// A plain board, one tick after the other over lists of ticks, beside the board that looks ahead.
use crate::ModelBoard;
use crate::tests::board;
use nv_memory::{Answer, Board, Class};
use std::alloc::{AllocError, Global};
use std::test::Fail;

const TICKS: u32 = 400;

const ROWS: [(u32, u32, u32); 9] = [
    (7, 0, 0),
    (1, 9, 2),
    (1, 0, 6),
    (3, 3, 0),
    (40, 1, 1),
    (2, 40, 0),
    (60, 0, 0),
    (86, 2, 0),
    (200, 1, 3),
];

const FAILS: [(u32, u8); 8] = [
    (6, 1),
    (9, 2),
    (10, 3),
    (30, 4),
    (31, 5),
    (90, 6),
    (150, 7),
    (260, 8),
];

#[derive(Drop)]
struct Plain {
    tick: u32,
    stored: u32,
    on: bool,
    losses: u32,
    cell: u8,
}

fn row_at(tick: u32) -> (u32, u32) {
    let mut end: u32 = 0;
    for (ticks, harvest, extra) in ROWS {
        end = end.saturating_add(ticks);
        if tick < end {
            return (harvest, extra);
        }
    }
    (0, 0)
}

fn failure_at(tick: u32) -> Option<u8> {
    for (at, fill) in FAILS {
        if at == tick {
            return Some(fill);
        }
    }
    None
}

impl Plain {
    fn pass(&mut self) {
        let harvest = row_at(self.tick).0;
        self.stored = self.stored.saturating_add(harvest).min(100);
        self.tick = self.tick.saturating_add(1);
    }

    fn lose(&mut self, writes: bool, fill: u8) -> Answer {
        self.on = false;
        self.losses = self.losses.saturating_add(1);
        if writes {
            self.cell = fill;
        }
        Answer::Lost
    }

    fn sleep(&mut self) -> Answer {
        if self.tick >= TICKS {
            return Answer::Over;
        }
        self.pass();
        self.on = false;
        Answer::Done
    }

    fn act(&mut self, ticks: u32, actual: u32, byte: Option<u8>) -> Answer {
        if self.tick.saturating_add(ticks) > TICKS {
            return Answer::Over;
        }
        let cost = actual.saturating_add(row_at(self.tick).1);
        if self.stored < cost {
            self.stored = 0;
            self.pass();
            return self.lose(byte.is_some(), 0);
        }
        self.stored = self.stored.saturating_sub(cost);
        for _ in 0..ticks {
            let failure = failure_at(self.tick);
            self.pass();
            if let Some(fill) = failure {
                return self.lose(byte.is_some(), fill);
            }
        }
        self.on = true;
        if let Some(byte) = byte {
            self.cell = byte;
        }
        Answer::Done
    }

    fn sleep_to(&mut self, upto: u32, enough: u32) -> Answer {
        for _ in 0..TICKS {
            if self.sleep() != Answer::Done {
                return Answer::Over;
            }
            if self.tick >= upto || self.stored >= enough {
                return Answer::Done;
            }
        }
        Answer::Over
    }
}

fn table(alloc: Global) -> Result<(String, String), AllocError> {
    let mut rows = String::from_str(alloc, "ticks,harvest,extra,sample\n")?;
    for (ticks, harvest, extra) in ROWS {
        let row = format!(in alloc; "{ticks},{harvest},{extra},0\n")?;
        rows.push_str(row.as_str())?;
    }
    let mut fails = String::from_str(alloc, "tick,fill\n")?;
    for (tick, fill) in FAILS {
        let row = format!(in alloc; "{tick},{fill:02x}\n")?;
        fails.push_str(row.as_str())?;
    }
    Ok((rows, fails))
}

// Asks both for the same operation.
fn both(board: &mut ModelBoard, plain: &mut Plain, choice: u32) -> (Answer, Answer) {
    let byte = (choice % 251) as u8;
    if choice % 7 == 0 {
        return (board.sleep(), plain.sleep());
    }
    if choice % 7 == 1 {
        let upto = board.tick() + choice % 23 + 1;
        let enough = choice % 119;
        return (board.sleep_to(upto, enough), plain.sleep_to(upto, enough));
    }
    if !board.on() {
        return (board.wake(), plain.act(2, 5, None));
    }
    match choice % 7 {
        2 if board.size() >= 1 => (board.write(0, &[byte]), plain.act(3, 3, Some(byte))),
        3 if board.size() >= 1 => (board.emit(5, 0, &[byte]), plain.act(1, 4, Some(byte))),
        4 => (board.run(Class::Memory, 7), plain.act(1, 2, None)),
        _ => (board.run(Class::Basic, 6), plain.act(1, 1, None)),
    }
}

// The ticks that the entries tell, each following the one before it, and how many of them are lost.
fn told_ticks(board: &ModelBoard) -> (u32, u32) {
    let mut tick: u32 = 0;
    let mut losses: u32 = 0;
    for place in 0..board.entries() {
        let entry = board.entry(place);
        if entry.tick != tick {
            return (tick, losses);
        }
        tick = tick.saturating_add(entry.ticks);
        if entry.lost {
            losses = losses.saturating_add(1);
        }
    }
    (tick, losses)
}

#[test]
fn a_board_does_what_a_plain_one_does(rt: HostRuntime) -> Result<(), Fail> {
    let alloc = rt.alloc();
    let (rows, fails) = table(alloc)?;
    let mut choice: u32 = 1;
    for script in 0..100u32 {
        let image = vec![in alloc; 9u8; 1]?;
        let Ok(mut board) = board(alloc, script, image, rows.as_bytes(), fails.as_bytes()) else {
            return Err("no memory".into());
        };
        let mut plain = Plain {
            tick: 0,
            stored: script,
            on: false,
            losses: 0,
            cell: 9,
        };
        for step in 0..250u32 {
            choice = choice.wrapping_mul(1_664_525).wrapping_add(1_013_904_223);
            let (told, want) = both(&mut board, &mut plain, choice >> 9);
            assert!(rt; told == want, "{script} {step}");
            assert_eq!(rt; board.tick(), plain.tick, "{script} {step}");
            assert_eq!(rt; board.stored(), plain.stored, "{script} {step}");
            assert!(rt; board.on() == plain.on, "{script} {step}");
            assert_eq!(rt; board.losses(), plain.losses, "{script} {step}");
            assert!(rt; board.size() == 1);
            assert_eq!(rt; board.read(0), plain.cell, "{script} {step}");
        }
        assert_eq!(rt;
            told_ticks(&board),
            (board.tick(), board.losses()),
            "{script}"
        );
    }
    Ok(())
}
