//! The sender and the host, and what each step does to them.

ghost use Rattle.std.specs.Prelude.{◌≡◌, ◌+◌, ◌≤◌, ◌<◌, ℕ, [], ◌∷◌, ◌++◌, length, IfOk, vec_len, vec_capacity, nat_le};
ghost use Rattle.std.specs.List.{filter};
ghost use Rattle.cn_uplink.specs.Link as spec;
ghost use Rattle.cn_uplink.specs.declared.link_step.LinkKind.TheVariants as kind;
ghost use Rattle.cn_uplink.specs.Faithful.{IsRun};
ghost use Rattle.cn_uplink.specs.Wire.{HasRoom, IsWire, link_of};

use crate::link_step::{LinkKind, LinkStep};
use crate::packet::Packet;
use cat_program::Outs;
use circular_buffer::HeapCircularBuffer;
use cn_base::NoMemory;
use std::alloc::Global;

/// The greatest number of packets in the window.
const MOST_WINDOW: usize = 8;

/// The log and how many of its records the sender sees, what it counts as acknowledged, the place of the packet that it sends
/// next, and the packets between these two; every packet and every acknowledgement that was ever sent; and what the host holds.
#[derive(Drop)]
pub(crate) struct Wire {
    pub(crate) log: Outs,
    pub(crate) visible: u32,
    pub(crate) base: u32,
    pub(crate) next: u32,
    pub(crate) window: HeapCircularBuffer<Packet>,
    pub(crate) sent: Vec<Packet>,
    pub(crate) acknowledgements: Vec<u32>,
    pub(crate) host: Outs,
}

// Appends an item for which there is room.
fn keep<T: Drop>(items: &mut Vec<T>, item: T)
    requires { vec_len items.old < vec_capacity items.old }
    ensures items { items.new.items ≡ items.old.items ++ item ∷ [] }
    ensures len { vec_len items.new ≡ vec_len items.old + 1 }
    ensures capacity { vec_capacity items.old ≤ vec_capacity items.new }
{
    match items.push(item) {
        Ok(()) => {}
        Err(_) => unreachable!(),
    }
}

// The host takes the record of a packet that comes next.
fn receive(host: &mut Outs, packet: Packet)
    requires { packet.place ≡ length host.old.entries → 0 < host.old.spare }
    ensures entries { host.new.entries ≡ spec.held_after host.old.entries packet }
    ensures room { length host.new.entries + host.new.spare ≡ length host.old.entries + host.old.spare }
{
    if packet.place as usize == host.entries().len() {
        host.push(packet.entry);
    }
}

// The packets of places below `place` leave the front of a window.
fn forget_below(window: &mut HeapCircularBuffer<Packet>, next: u32, base: u32, place: u32)
    requires { IsRun base next window.old.items }
    ensures items { window.new.items ≡ filter (λ p. nat_le place p.place) window.old.items }
    ensures capacity { window.new.capacity ≡ window.old.capacity }
{
    'packets: loop {
        match window.front() {
            Some(packet) if packet.place < place => {}
            _ => return,
        }
        let _ = window.pop_front();
    }
}

impl Wire {
    /// A link over this log, with room for so many packets and acknowledgements.
    pub(crate) fn start(alloc: Global, log: Outs, room: u32) -> Result<Wire, NoMemory>
        requires few { length log.entries ≤ 1000000 }
        requires room { room ≤ 1100000 }
        ensures link { IfOk result (λ w. link_of w ≡ spec.first log.entries) }
        ensures wire { IfOk result IsWire }
        ensures room { IfOk result (HasRoom room room) }
    {
        let len = log.entries().len() as u32;
        let window = HeapCircularBuffer::with_capacity(alloc, MOST_WINDOW)?;
        let sent = Vec::with_capacity(alloc, room as usize)?;
        let acknowledgements = Vec::with_capacity(alloc, room as usize)?;
        let host = Outs::with_room(alloc, len)?;
        Ok(Wire {
            log,
            visible: 0,
            base: 0,
            next: 0,
            window,
            sent,
            acknowledgements,
            host,
        })
    }

    /// How many records the log has, at most 1,000,000.
    pub(crate) fn log_len(&self) -> u32
        requires { IsWire self.now }
        ensures { result ≡ length self.now.log.entries }
    {
        self.log.entries().len() as u32
    }

    pub(crate) fn grow(&mut self, n: u32)
        requires { IsWire self.old }
        ensures link { link_of self.new ≡ spec.grow (link_of self.old) n }
        ensures wire { IsWire self.new }
        ensures room { (packets acks : ℕ) → HasRoom packets acks self.old → HasRoom packets acks self.new }
    {
        self.visible = self.visible.saturating_add(n).min(self.log_len());
    }

    pub(crate) fn send(&mut self)
        requires wire { IsWire self.old }
        requires room { HasRoom 1 0 self.old }
        ensures link { link_of self.new ≡ spec.send (link_of self.old) }
        ensures wire { IsWire self.new }
        ensures room { (packets acks : ℕ) → HasRoom (packets + 1) acks self.old → HasRoom packets acks self.new }
    {
        if self.next >= self.visible || self.window.len() >= MOST_WINDOW {
            return;
        }
        let packet = Packet {
            place: self.next,
            entry: self.log.entries()[self.next as usize],
        };
        let _ = self.window.push_back(packet);
        keep(&mut self.sent, packet);
        self.next += 1;
    }

    pub(crate) fn again(&mut self, n: u32)
        requires wire { IsWire self.old }
        requires room { HasRoom 1 0 self.old }
        ensures link { link_of self.new ≡ spec.step_by (link_of self.old) kind.Again n }
        ensures wire { IsWire self.new }
        ensures room { (packets acks : ℕ) → HasRoom (packets + 1) acks self.old → HasRoom packets acks self.new }
    {
        if let Some(packet) = self.window.get(n as usize) {
            let packet = *packet;
            keep(&mut self.sent, packet);
        }
    }

    pub(crate) fn deliver(&mut self, n: u32)
        requires wire { IsWire self.old }
        requires room { HasRoom 0 1 self.old }
        ensures link { link_of self.new ≡ spec.step_by (link_of self.old) kind.Deliver n }
        ensures wire { IsWire self.new }
        ensures room { (packets acks : ℕ) → HasRoom packets (acks + 1) self.old → HasRoom packets acks self.new }
    {
        let Some(packet) = self.sent.as_slice().get(n as usize) else {
            return;
        };
        let packet = *packet;
        receive(&mut self.host, packet);
        let held = self.host.entries().len() as u32;
        keep(&mut self.acknowledgements, held);
    }

    pub(crate) fn acknowledge(&mut self, n: u32)
        requires { IsWire self.old }
        ensures link { link_of self.new ≡ spec.step_by (link_of self.old) kind.Ack n }
        ensures wire { IsWire self.new }
        ensures room { (packets acks : ℕ) → HasRoom packets acks self.old → HasRoom packets acks self.new }
    {
        let Some(held) = self.acknowledgements.as_slice().get(n as usize) else {
            return;
        };
        let held = *held;
        if held > self.base {
            forget_below(&mut self.window, self.next, self.base, held);
            self.base = held;
            self.next = self.next.max(held);
        }
    }

    pub(crate) fn restart(&mut self)
        requires { IsWire self.old }
        ensures link { link_of self.new ≡ spec.restart (link_of self.old) }
        ensures wire { IsWire self.new }
        ensures room { (packets acks : ℕ) → HasRoom packets acks self.old → HasRoom packets acks self.new }
    {
        self.base = 0;
        self.next = 0;
        self.window.clear();
    }

    fn offer(&mut self)
        requires wire { IsWire self.old }
        requires room { HasRoom 1 0 self.old }
        ensures link { link_of self.new ≡ spec.offer (link_of self.old) }
        ensures wire { IsWire self.new }
        ensures room { (packets acks : ℕ) → HasRoom (packets + 1) acks self.old → HasRoom packets acks self.new }
    {
        if self.window.is_empty() {
            self.send();
        } else {
            self.again(0);
        }
    }

    /// One step of a table.
    pub(crate) fn step(&mut self, step: LinkStep)
        requires wire { IsWire self.old }
        requires room { HasRoom 1 1 self.old }
        ensures link { link_of self.new ≡ spec.after (link_of self.old) step }
        ensures wire { IsWire self.new }
        ensures room { (packets acks : ℕ) → HasRoom (packets + 1) (acks + 1) self.old → HasRoom packets acks self.new }
    {
        match step.kind {
            LinkKind::Grow => self.grow(step.n),
            LinkKind::Send => self.send(),
            LinkKind::Again => self.again(step.n),
            LinkKind::Deliver => self.deliver(step.n),
            LinkKind::Ack => self.acknowledge(step.n),
            LinkKind::Restart => self.restart(),
        }
    }

    /// All records are visible from here on.
    pub(crate) fn show(&mut self)
        requires { IsWire self.old }
        ensures link { link_of self.new ≡ spec.shown (link_of self.old) }
        ensures others { self.new ≡ record self.old { visible = self.new.visible } }
        ensures wire { IsWire self.new }
        ensures room { (packets acks : ℕ) → HasRoom packets acks self.old → HasRoom packets acks self.new }
    {
        self.visible = self.log_len();
    }

    /// A packet is offered, delivered and acknowledged.
    pub(crate) fn round(&mut self)
        requires wire { IsWire self.old }
        requires room { HasRoom 1 1 self.old }
        ensures link { link_of self.new ≡ spec.round (link_of self.old) }
        ensures wire { IsWire self.new }
        ensures room { (packets acks : ℕ) → HasRoom (packets + 1) (acks + 1) self.old → HasRoom packets acks self.new }
    {
        let packet = self.sent.len() as u32;
        let acknowledgement = self.acknowledgements.len() as u32;
        self.offer();
        self.deliver(packet);
        self.acknowledge(acknowledgement);
    }
}
