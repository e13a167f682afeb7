// The messages that lead from one event to another: the walk back from the later one, by recursion on its position, which falls.
ghost use Rattle.std.specs.Prelude.{◌≢◌, ◌≡◌, ℕ, ◌+◌, ◌-◌, ◌*◌, ◌≤◌, ◌<◌, length, get_or};
ghost use Rattle.std.proofs.lemmas.List.Edits.{sets};
ghost use Rattle.paper.specs.Chain as paper;
ghost use Rattle.clock.specs.Event.{process_at};
ghost use Rattle.clock.specs.Said.{stated};
ghost use Rattle.paper.specs.Machine.{accepted_of};
ghost use Rattle.paper.specs.Questions.{chain_slots};
ghost use Rattle.teaching.specs.Walk.{Standing, Reaches, path, knows, is_send_of, Sent};

use clock::event::{SEND, kind_at, message_at, process_at};
use clock::{Message, Position, Process, Terms};

// An accepted list, and the slots in which the clocks of its events stand.
#[derive(Clone, Copy)]
pub(crate) struct Course<'a> {
    pub(crate) terms: Terms,
    pub(crate) list: &'a [u8],
    pub(crate) clocks: &'a [u16],
}

impl Course<'_> {
    // The component for a process in the clock of the event at a.
    fn component(self, a: Position, p: Process) -> u16
        requires { (self.terms.processes * a.0 + p.0 < length self.clocks.now) × (a.0 < 512) × (self.terms.processes ≤ 32) }
        ensures { result ≡ get_or self.entry.clocks.now (self.entry.terms.processes * a.0 + p.0) 0 }
    {
        let at = self.terms.processes * a.0 + usize::from(p.0);
        self.clocks[at]
    }

    // Whether the event at c is on that process, and its component for the process p is at least that own number.
    fn has_learnt(self, c: Position, process: Process, p: Process, own: u16) -> bool
        requires { (self.terms.processes * c.0 + p.0 < length self.clocks.now) × (c.0 < 512) × (self.terms.processes ≤ 32) }
        ensures { result ≡ knows self.entry.terms.processes self.entry.list.now self.entry.clocks.now c.0 process.0 p.0 own }
    {
        let on = process_at(self.list, c);
        (on == process) & (own <= self.component(c, p))
    }

    // The first event on the second's process whose component for the first's process is at least the first's own number.
    fn learner(self, first: Position, second: Position) -> Position
        requires { Standing (stated self.terms) self.list.now self.clocks.now
            × Reaches (stated self.terms) self.list.now first.0 second.0
            × (process_at self.list.now second.0 ≢ process_at self.list.now first.0) }
        ensures { result.0 ≡ paper.learner (accepted_of (stated self.entry.terms) self.entry.list.now) first.0 second.0 }
    {
        let p = process_at(self.list, first);
        let process = process_at(self.list, second);
        let own = self.component(first, p);
        for c in 0..self.list.len() / 8 {
            if self.has_learnt(Position(c), process, p, own) {
                return Position(c);
            }
        }
        unreachable!()
    }

    // Whether the event at c is a send of that number.
    fn is_send_of(self, c: Position, message: Message) -> bool
        ensures { result ≡ is_send_of self.entry.list.now c.0 message.0 }
    {
        let m = message_at(self.list, c);
        (kind_at(self.list, c) == SEND) & (m == message)
    }

    // The event that sends a message. A search of its own: that it ends is another fact than in `learner`.
    fn sender(self, message: Message) -> Position
        requires { (s : ℕ) × Sent self.list.now message.0 s }
        ensures { Sent self.entry.list.now message.0 result.0 }
    {
        for c in 0..self.list.len() / 8 {
            if self.is_send_of(Position(c), message) {
                return Position(c);
            }
        }
        unreachable!()
    }

    // The positions of the chain's sends, in causal order, at the front of the output; and how many they are.
    pub(crate) fn walk(self, first: Position, second: Position, out: &mut [u16]) -> usize
        requires { Standing (stated self.terms) self.list.now self.clocks.now
            × Reaches (stated self.terms) self.list.now first.0 second.0
            × (chain_slots self.terms.processes ≤ length out.old) }
        ensures { (result ≡ length (path (stated self.entry.terms) self.entry.list.now first.0 second.0))
            × (out.new ≡ sets out.old 0 (path (stated self.entry.terms) self.entry.list.now first.0 second.0)) }
    {
        let p = process_at(self.list, first);
        let q = process_at(self.list, second);
        if q == p {
            return 0;
        }
        let r = self.learner(first, second);
        let s = self.sender(message_at(self.list, r));
        let k = self.walk(first, s, out);
        // `as`, since no From goes from usize to fewer bits.
        out[k] = s.0 as u16;
        k + 1
    }
}
