use crate::lines::{add_instr, add_task, add_version};
use cat_machine::Instr;
use cat_program::{Operator, Sign};
use cn_base::{MemSink, Page};
use std::test::Fail;

const LISTED: &[u8] = b"task t 0
0 begin 0
1 load 0
2 push -1
3 add
4 store 0
5 neg
6 payload
7 loadat 1 8
8 storeat 1 8
9 jumpzero 12
10 jump 1
11 turn 4
12 out 255
13 post 1
event e 1 14
14 end
";

#[test]
fn lines_of_a_listing(rt: HostRuntime) -> Result<(), Fail> {
    let instrs = [
        Instr::Begin(0),
        Instr::Load(0),
        Instr::Push(-1),
        Instr::Operate(Operator::Add),
        Instr::Store(0),
        Instr::Signed(Sign::Neg),
        Instr::Payload,
        Instr::LoadAt { base: 1, len: 8 },
        Instr::StoreAt { base: 1, len: 8 },
        Instr::JumpZero(12),
        Instr::Jump(1),
        Instr::Turn(4),
        Instr::Out(255),
        Instr::Post(1),
        Instr::End,
    ];
    let mut sink = MemSink::new(rt.alloc(), 300, 7)?;
    let mut page = Page::on(&mut sink);
    for (place, instr) in instrs.iter().enumerate() {
        let pc = place as u32;
        add_task(&mut page, "t", 0, pc)?;
        add_version(&mut page, "e", 1, 14, pc)?;
        add_instr(&mut page, pc, *instr)?;
    }
    page.close()?;
    assert_eq!(rt; sink.bytes(), LISTED);
    Ok(())
}
