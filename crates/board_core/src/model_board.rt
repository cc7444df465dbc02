ghost use Rattle.std.specs.Prelude.{◌≡◌, ◌≢◌, ◌⊎◌, ◌+◌, ◌-◌, ◌*◌, min, ◌<◌, ◌≤◌, length, true, false, IfOk, IfSome, ℕ, slice_index};
ghost use Rattle.std.specs.Option.{is_some};
ghost use Rattle.cn_base.specs.declared.TheConstants.{MOST_TICKS};
ghost use Rattle.nv_memory.specs.declared.board.Answer.TheVariants.{Done};
ghost use Rattle.nv_memory.specs.declared.entry.Op.TheVariants.{Sleep};
ghost use Rattle.nv_memory.specs.Board.{IsSound, IsIn, Sleeps, Steps, ticks_of};
ghost use Rattle.harvest_trace.specs.Timeline.{life_of};
ghost use Rattle.board_core.specs.Rules as spec;
ghost use Rattle.board_core.specs.Kept.{entries_of, room_of};
ghost use Rattle.board_core.specs.Outlook.{IsOutlook};
ghost use Rattle.board_core.specs.ModelState.{model_state};
ghost use Rattle.board_core.specs.Reached.{IsReached, model_start, slept};
ghost use Rattle.board_core.specs.Run.{IsRun};
ghost use Rattle.board_core.specs.Sure.{IsSure, write_class, write_of};
ghost use Rattle.nv_memory.specs.Bytes.{written};

use crate::ModelOrigin;
use crate::fate::Fate;
use crate::first_image::FirstImage;
use crate::outlook::Outlook;
use crate::sure::Sure;
use crate::timeline::Timeline;
use cn_base::{Fill, MOST_TICKS, NoMemory};
use harvest_trace::{Fails, Trace};
use nv_memory::{
    Answer, Board, Class, Device, Entry, Line, Op, answer_of, boards_stay_sound, is_on_after,
    losses_after, operations_are_bounded, put, refilled,
};
use std::alloc::Global;

/// A board that replays a trace. An operation costs what its class actually does and the extra of the tick it starts
/// in. One that doesn't fit in the trace is `Over`. One for which too little is stored is lost after one tick, with
/// all that is stored. One with a failure in its ticks is lost at the end of that tick; sleep feels no failure. Each
/// tick that passes adds its harvest.
#[derive(Drop)]
pub struct ModelBoard {
    origin: ModelOrigin,
    image: Vec<u8>,
    timeline: Timeline,
    tick: u32,
    stored: u32,
    losses: u32,
    on: bool,
    outlook: Outlook,
    ghost sound: { IsSound (model_start origin) (model_state origin image.items (entries_of timeline) tick stored losses on) },
    ghost reached: { IsReached origin (model_state origin image.items (entries_of timeline) tick stored losses on) },
    ghost ahead: { IsOutlook origin tick outlook },
    ghost cap: { timeline.cap ≡ origin.device.cap },
    ghost room: { life_of origin.trace ≤ room_of timeline },
}

// For how many ticks to sleep, at most `most`, before the store may hold enough.
fn ticks_to(cap: u32, stored: u32, harvest: u32, enough: u32, most: u32) -> u32
    requires { 1 ≤ most }
    ensures some { 1 ≤ result }
    ensures few { result ≤ most }
    ensures early { (result ≡ 1) ⊎ (min cap (stored + (result - 1) * harvest) < enough) }
{
    if enough <= stored {
        return 1;
    }
    if harvest == 0 || cap < enough {
        return most;
    }
    (enough - stored).div_ceil(harvest).min(most)
}

// Puts bytes into the image.
fn put_bytes(image: &mut Vec<u8>, at: usize, bytes: &[u8])
    requires { at + length bytes.now ≤ length image.old.items }
    ensures image { image.new.items ≡ written at bytes.now image.old.items }
    ensures bytes { (k : ℕ) → slice_index image.new.items k < 256 }
{
    image[at..at + bytes.len()].copy_from_slice(bytes);
}

// The operation, with the bytes of the fill over and over where it is lost.
fn left_by(torn: Option<Fill>, op: Op) -> Op
    ensures { result ≡ spec.left_by torn op }
{
    match torn {
        Some(fill) => op.torn(&fill),
        None => op,
    }
}

impl ModelBoard {
    ghost use Rattle.board_core.specs.ModelBoardState.{origin_of, state_of};
    ghost use Rattle.nv_memory.specs.Board.{State, filled};
    ghost use Rattle.nv_memory.specs.declared.board.Answer.{Answer as Reply};
    ghost use Rattle.board_core.specs.Onward.{Onward};
    ghost use Rattle.board_core.specs.Rules.{model_next, model_answer, model_after, fate_answer, fate_of, harvests};
    ghost use Rattle.board_core.specs.Reached.{first_state};
    ghost use Rattle.nv_memory.specs.declared.entry.Op.TheVariants as op;

    /// A board at tick 0 and off, with the device's first units stored, no entries and no losses, whose life is that of
    /// the trace. It takes all memory that it will ever need, a copy of the image included.
    pub fn new(
        alloc: Global,
        trace: Trace,
        fails: Fails,
        device: Device,
        image: Vec<u8>,
    ) -> Result<ModelBoard, NoMemory>
        requires { length image.items < 4294967296 }
        ensures origin { IfOk result (λ b. ((origin_of b).trace ≡ trace) × ((origin_of b).fails ≡ fails) × ((origin_of b).device ≡ device) × ((origin_of b).tick ≡ 0) × ((origin_of b).stored ≡ device.start) × ((origin_of b).image ≡ image.items)) }
        ensures state { IfOk result (λ b. state_of b ≡ first_state (origin_of b)) }
    {
        let stored = device.start;
        ModelBoard::resumed(alloc, trace, fails, device, 0, stored, image)
    }

    /// What the board is now is what the rules lead to, when they are asked for the operations of its timeline.
    pub fn keeps_the_rules(&self)
        ensures { IsReached (origin_of self.now) (state_of self.now) }
    {
        let _tick = self.tick;
    }

    /// A board as `new` makes it, but at this tick of the trace's life, and with this many units, at most the device's most.
    pub fn resumed(
        alloc: Global,
        trace: Trace,
        fails: Fails,
        device: Device,
        tick: u32,
        stored: u32,
        image: Vec<u8>,
    ) -> Result<ModelBoard, NoMemory>
        requires in_life { tick ≤ life_of trace }
        requires in_cap { stored ≤ device.cap }
        requires image { length image.items < 4294967296 }
        ensures origin { IfOk result (λ b. ((origin_of b).trace ≡ trace) × ((origin_of b).fails ≡ fails) × ((origin_of b).device ≡ device) × ((origin_of b).tick ≡ tick) × ((origin_of b).stored ≡ stored) × ((origin_of b).image ≡ image.items)) }
        ensures state { IfOk result (λ b. state_of b ≡ first_state (origin_of b)) }
    {
        operations_are_bounded();
        let first = FirstImage::of(alloc, image.as_slice())?;
        let timeline = Timeline::with_room(alloc, trace.life(), device.cap)?;
        Ok(ModelBoard {
            origin: ModelOrigin::of(trace, fails, device, tick, stored, first),
            image,
            timeline,
            tick,
            stored,
            losses: 0,
            on: false,
            outlook: Outlook::none(tick),
        })
    }

    // Looks ahead where that was not done for this tick.
    fn look_ahead(&mut self)
        requires { self.old.tick < life_of self.old.origin.trace }
        ensures state { state_of self.new ≡ state_of self.old }
        ensures origin { self.new.origin ≡ self.old.origin }
        ensures ahead { self.new.tick < self.new.outlook.until }
    {
        if self.outlook.until <= self.tick || self.outlook.failure <= self.tick {
            self.outlook = self.origin.outlook(self.tick);
        }
    }

    // Does or loses an operation that fits in the life, as was worked out, with the units that are stored after it.
    fn settle(&mut self, fate: Fate, stored: u32, op: Op) -> Answer
        requires fits { self.old.tick + ticks_of (state_of self.old).ticks op ≤ (state_of self.old).life }
        requires within { IsIn op self.old.image.items }
        requires fate { fate ≡ fate_of self.old.origin self.old.tick self.old.stored op }
        requires stored { stored ≡ filled self.old.origin.device.cap (self.old.stored - fate.drawn) (harvests self.old.origin.trace self.old.tick fate.ticks) }
        ensures state { state_of self.new ≡ model_after self.old.origin (state_of self.old) op }
        ensures answer { result ≡ fate_answer self.old.origin (state_of self.old) op }
        ensures origin { self.new.origin ≡ self.old.origin }
    {
        operations_are_bounded();
        boards_stay_sound();
        let lost = fate.torn.is_some();
        let losses = losses_after(lost, self.losses);
        let on = is_on_after(lost, &op, self.on);
        let op = left_by(fate.torn, op);
        put(&mut self.image, &op);
        let entry = Entry {
            tick: self.tick,
            stored: self.stored,
            drawn: fate.drawn,
            ticks: fate.ticks,
            op,
            lost,
        };
        self.timeline.push(entry);
        self.tick += fate.ticks;
        self.stored = stored;
        self.losses = losses;
        self.on = on;
        answer_of(lost)
    }

    // Sleeps for some ticks that the outlook covers.
    fn rest(&mut self, ticks: u32)
        requires some { 1 ≤ ticks }
        requires covered { self.old.tick + ticks ≤ self.old.outlook.until }
        ensures state { state_of self.new ≡ slept self.old.origin ticks (state_of self.old) }
        ensures origin { self.new.origin ≡ self.old.origin }
        ensures tick { self.new.tick ≡ self.old.tick + ticks }
        ensures stored { self.new.stored ≡ min self.old.origin.device.cap (self.old.stored + ticks * self.old.outlook.harvest) }
    {
        operations_are_bounded();
        boards_stay_sound();
        let harvest = self.outlook.harvest;
        self.timeline
            .push_sleeps(self.tick, self.stored, harvest, ticks);
        self.tick += ticks;
        self.stored = refilled(self.origin.device.cap, self.stored, ticks, harvest);
        self.on = false;
    }

    // Sleeps to the end of a row of the trace, to `upto`, or until enough is stored, whichever comes first.
    fn rest_on(&mut self, upto: u32, enough: u32)
        requires early { self.old.tick < upto }
        requires in_life { self.old.tick < life_of self.old.origin.trace }
        ensures onward { (answer : Reply) (t : State) → Onward upto enough (state_of self.new) answer t → Sleeps upto enough (state_of self.old) answer t }
        ensures state { (n : ℕ) × (state_of self.new ≡ slept self.old.origin n (state_of self.old)) }
        ensures origin { self.new.origin ≡ self.old.origin }
        ensures later { self.old.tick < self.new.tick }
    {
        self.look_ahead();
        let outlook = self.outlook;
        let most = upto.min(outlook.until) - self.tick;
        let ticks = ticks_to(
            self.origin.device.cap,
            self.stored,
            outlook.harvest,
            enough,
            most,
        );
        self.rest(ticks);
    }

    // Does an operation that fits in the life, or loses it. Mostly the outlook is enough to say what becomes of it.
    fn act(&mut self, op: Op) -> Answer
        requires fits { self.old.tick + ticks_of (state_of self.old).ticks op ≤ (state_of self.old).life }
        requires awake { op ≢ Sleep }
        requires within { IsIn op self.old.image.items }
        ensures state { state_of self.new ≡ model_after self.old.origin (state_of self.old) op }
        ensures answer { result ≡ fate_answer self.old.origin (state_of self.old) op }
        ensures origin { self.new.origin ≡ self.old.origin }
    {
        operations_are_bounded();
        if let Some((fate, stored)) = self
            .origin
            .foreseen(&self.outlook, self.tick, self.stored, &op)
        {
            return self.settle(fate, stored, op);
        }
        let fate = self.origin.fate(self.tick, self.stored, &op);
        let stored = self
            .origin
            .stored_after(self.tick, fate.ticks, self.stored - fate.drawn);
        self.settle(fate, stored, op)
    }

    // What an operation of a class does, where the outlook tells that it is done for certain.
    fn surely(&self, class: Class) -> Option<Sure>
        ensures { IfSome result (IsSure self.now.origin self.now.outlook self.now.tick self.now.stored class) }
    {
        let cost = self.origin.device.cost(class);
        let end = self.tick + cost.ticks;
        if self.outlook.until < end || self.outlook.failure < end {
            return None;
        }
        let drawn = cost.actual + self.outlook.extra;
        if self.stored < drawn {
            return None;
        }
        let left = refilled(
            self.origin.device.cap,
            self.stored - drawn,
            cost.ticks,
            self.outlook.harvest,
        );
        Some(Sure {
            drawn,
            ticks: cost.ticks,
            left,
        })
    }

    // Runs an instruction that is done for certain. No operation is made for it.
    fn run_surely(&mut self, sure: Sure, class: Class, pc: u32)
        requires { IsSure self.old.origin self.old.outlook self.old.tick self.old.stored class sure }
        ensures run { IsRun self.old.origin (state_of self.old) (state_of self.new) (op.Instr class pc) }
        ensures origin { self.new.origin ≡ self.old.origin }
    {
        operations_are_bounded();
        boards_stay_sound();
        self.timeline
            .push_instr(self.tick, self.stored, sure, class, pc);
        self.tick += sure.ticks;
        self.stored = sure.left;
    }

    // Does a write that is done for certain, by the instruction at a place of the code or by none. Its bytes go straight
    // to the image and to the timeline.
    fn write_surely(&mut self, sure: Sure, pc: Option<u32>, at: u32, bytes: &[u8])
        requires sure { IsSure self.old.origin self.old.outlook self.old.tick self.old.stored (write_class pc) sure }
        requires few { length bytes.now ≤ 64 }
        requires in_image { at + length bytes.now ≤ length self.old.image.items }
        ensures run { IsRun self.old.origin (state_of self.old) (state_of self.new) (write_of pc at bytes.now) }
        ensures origin { self.new.origin ≡ self.old.origin }
    {
        operations_are_bounded();
        boards_stay_sound();
        put_bytes(&mut self.image, at as usize, bytes);
        self.timeline
            .push_write(self.tick, self.stored, sure, pc, at, bytes);
        self.tick += sure.ticks;
        self.stored = sure.left;
    }

    // Any operation but sleep. `Over` is looked at first.
    fn perform(&mut self, op: Op) -> Answer
        requires awake { op ≢ Sleep }
        requires within { IsIn op self.old.image.items }
        ensures state { state_of self.new ≡ model_next self.old.origin (state_of self.old) op }
        ensures answer { result ≡ model_answer self.old.origin (state_of self.old) op }
        ensures step { Steps (state_of self.old) op result (state_of self.new) }
        ensures origin { self.new.origin ≡ self.old.origin }
    {
        operations_are_bounded();
        let ticks = self.origin.device.ticks(&op);
        if self.origin.trace.life() - self.tick < ticks {
            return Answer::Over;
        }
        self.look_ahead();
        self.act(op)
    }
}

impl Board for ModelBoard {
    ghost use Rattle.board_core.specs.ModelBoardState.{origin_of, state_of};
    ghost use Rattle.board_core.specs.Rules.{model_next, model_answer};
    ghost use Rattle.nv_memory.specs.declared.entry.Op.TheVariants as op;

    type Origin = ModelOrigin;

    ghost start = { model_start };

    ghost origin = { origin_of };

    ghost state = { state_of };

    fn tick(&self) -> u32 {
        self.tick
    }

    fn life(&self) -> u32 {
        self.origin.trace.life()
    }

    fn stored(&self) -> u32 {
        self.stored
    }

    fn cap(&self) -> u32 {
        self.origin.device.cap
    }

    fn ticks_of(&self, class: Class) -> u32 {
        self.origin.device.cost(class).ticks
    }

    fn on(&self) -> bool {
        self.on
    }

    fn losses(&self) -> u32 {
        self.losses
    }

    fn size(&self) -> u32 {
        self.image.len() as u32
    }

    fn read(&self, at: u32) -> u8 {
        self.image[at as usize]
    }

    fn entries(&self) -> u32 {
        self.timeline.len()
    }

    fn entry(&self, place: u32) -> Entry {
        self.timeline.entry(place)
    }

    fn silent(&self, place: u32) -> u32 {
        self.timeline.silent(place)
    }

    fn run(&mut self, class: Class, pc: u32) -> Answer
        requires { (state_of self.old).on ≡ true }
        ensures step { Steps (state_of self.old) (op.Instr class pc) result (state_of self.new) }
        ensures origin { origin_of self.new ≡ origin_of self.old }
        ensures sound { IsSound (model_start (origin_of self.new)) (state_of self.new) }
        ensures state { state_of self.new ≡ model_next (origin_of self.old) (state_of self.old) (op.Instr class pc) }
        ensures answer { result ≡ model_answer (origin_of self.old) (state_of self.old) (op.Instr class pc) }
    {
        if let Some(sure) = self.surely(class) {
            self.run_surely(sure, class, pc);
            return Answer::Done;
        }
        self.perform(Op::Instr { class, pc })
    }

    fn emit(&mut self, pc: u32, at: u32, bytes: &[u8]) -> Answer
        requires on { (state_of self.old).on ≡ true }
        requires some { 1 ≤ length bytes.now }
        requires few { length bytes.now ≤ 64 }
        requires in_image { at + length bytes.now ≤ length (state_of self.old).image }
        ensures step { Steps (state_of self.old) (op.Emit pc at bytes.now) result (state_of self.new) }
        ensures origin { origin_of self.new ≡ origin_of self.old }
        ensures sound { IsSound (model_start (origin_of self.new)) (state_of self.new) }
        ensures state { state_of self.new ≡ model_next (origin_of self.old) (state_of self.old) (op.Emit pc at bytes.now) }
        ensures answer { result ≡ model_answer (origin_of self.old) (state_of self.old) (op.Emit pc at bytes.now) }
    {
        if let Some(sure) = self.surely(Class::Out) {
            self.write_surely(sure, Some(pc), at, bytes);
            return Answer::Done;
        }
        let left = Line::of(bytes);
        self.perform(Op::Emit { pc, at, left })
    }

    fn write(&mut self, at: u32, bytes: &[u8]) -> Answer
        requires on { (state_of self.old).on ≡ true }
        requires some { 1 ≤ length bytes.now }
        requires few { length bytes.now ≤ 64 }
        requires in_image { at + length bytes.now ≤ length (state_of self.old).image }
        ensures step { Steps (state_of self.old) (op.Write at bytes.now) result (state_of self.new) }
        ensures origin { origin_of self.new ≡ origin_of self.old }
        ensures sound { IsSound (model_start (origin_of self.new)) (state_of self.new) }
        ensures state { state_of self.new ≡ model_next (origin_of self.old) (state_of self.old) (op.Write at bytes.now) }
        ensures answer { result ≡ model_answer (origin_of self.old) (state_of self.old) (op.Write at bytes.now) }
    {
        if let Some(sure) = self.surely(Class::Write) {
            self.write_surely(sure, None, at, bytes);
            return Answer::Done;
        }
        let left = Line::of(bytes);
        self.perform(Op::Write { at, left })
    }

    fn wake(&mut self) -> Answer
        requires { (state_of self.old).on ≡ false }
        ensures step { Steps (state_of self.old) op.Wake result (state_of self.new) }
        ensures origin { origin_of self.new ≡ origin_of self.old }
        ensures sound { IsSound (model_start (origin_of self.new)) (state_of self.new) }
        ensures state { state_of self.new ≡ model_next (origin_of self.old) (state_of self.old) op.Wake }
        ensures answer { result ≡ model_answer (origin_of self.old) (state_of self.old) op.Wake }
    {
        self.perform(Op::Wake)
    }

    fn sleep(&mut self) -> Answer
        ensures step { Steps (state_of self.old) op.Sleep result (state_of self.new) }
        ensures origin { origin_of self.new ≡ origin_of self.old }
        ensures sound { IsSound (model_start (origin_of self.new)) (state_of self.new) }
        ensures state { state_of self.new ≡ model_next (origin_of self.old) (state_of self.old) op.Sleep }
        ensures answer { result ≡ model_answer (origin_of self.old) (state_of self.old) op.Sleep }
    {
        if self.tick >= self.origin.trace.life() {
            return Answer::Over;
        }
        self.look_ahead();
        self.rest(1);
        Answer::Done
    }

    // Each turn passes the ticks of a row of the trace at once.
    fn sleep_to(&mut self, upto: u32, enough: u32) -> Answer
        requires { (state_of self.old).tick < upto }
        ensures steps { Sleeps upto enough (state_of self.old) result (state_of self.new) }
        ensures origin { origin_of self.new ≡ origin_of self.old }
        ensures sound { IsSound (model_start (origin_of self.new)) (state_of self.new) }
        ensures state { (n : ℕ) × (state_of self.new ≡ slept (origin_of self.old) n (state_of self.old)) }
    {
        'rows: loop {
            if self.tick >= self.origin.trace.life() {
                return Answer::Over;
            }
            self.rest_on(upto, enough);
            if self.tick >= upto || self.stored >= enough {
                return Answer::Done;
            }
        }
    }
}
