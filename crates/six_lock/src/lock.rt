ghost use Rattle.std.specs.Prelude.{ℕ, ◌≡◌, ◌≢◌, ◌<◌, ◌^◌, ◌↔◌, IfOk, IfSome, IfNone, IsTrue, true, false, length, slice_get};
ghost use Rattle.six_lock.specs.Locks.{Asks, Holds, HoldsSome, IsOther, IsCompatible, IsFree, Lowers, Releases, actors};
ghost use Rattle.six_lock.specs.Modes.{Mode};
ghost use Rattle.six_lock.specs.Modes.Mode.{Shared, Intent, Exclusive};

use std::alloc::{AllocError, Global};
use std::marker::Model;

/// The answer to a request for a mode.
#[derive(Clone, Copy, PartialEq, Eq)]
pub enum Ask {
    /// The actor holds the mode from now on.
    Granted,
    /// Nothing changed: this other actor holds a mode that doesn't go with the one that was asked for.
    Held(u8),
}

/// A lock with the modes shared, intent and exclusive, for a fixed number of actors.
#[derive(Drop)]
pub struct Six {
    // for each actor whether it holds shared
    shared: Vec<bool>,
    // who holds intent
    intent: Option<u8>,
    // whether the holder of intent holds exclusive too
    exclusive: bool,
    // rises by one as an exclusive use ends, and stands still at 2^64 - 1
    sequence: u64,
}

impl Model for Six {
    ghost use Rattle.six_lock.specs.Locks.{Lock, IsSound};

    ghost Value = { Lock };

    ghost view = { λ six. record { shared = six.shared.items; intent = six.intent; exclusive = six.exclusive; sequence = six.sequence } };

    ghost invariant = { λ six. IsSound (record { shared = six.shared.items; intent = six.intent; exclusive = six.exclusive; sequence = six.sequence }) };
}

impl Six {
    /// A lock that nobody holds, for the actors below a number. It takes a byte for each.
    pub fn new(alloc: Global, count: u8) -> Result<Self, AllocError>
        ensures { IfOk result (λ lock. IsFree lock × (actors lock ≡ count) × (lock.sequence ≡ 0)) }
    {
        Six::from_sequence(alloc, count, 0)
    }

    /// A lock as `new` makes it, whose sequence goes on from a number: for a node whose lock was forgotten while nobody
    /// held it.
    pub fn from_sequence(alloc: Global, count: u8, sequence: u64) -> Result<Self, AllocError>
        ensures { IfOk result (λ lock. IsFree lock × (actors lock ≡ count)
            × (lock.sequence ≡ sequence)) }
    {
        Ok(Six {
            shared: vec![in alloc; false; count as usize]?,
            intent: None,
            exclusive: false,
            sequence,
        })
    }

    /// Asks for shared. It is refused only by another that holds exclusive. The cost is constant.
    pub fn shared(&mut self, actor: u8) -> Ask
        requires { actor < actors self.old }
        ensures { Asks self.old actor Shared result self.new }
    {
        match self.other_owner(actor) {
            Some(holder) if self.exclusive => Ask::Held(holder),
            _ => {
                self.shared[actor as usize] = true;
                Ask::Granted
            }
        }
    }

    /// Asks for intent. It is refused only by another that holds intent or exclusive. The cost is constant.
    pub fn intent(&mut self, actor: u8) -> Ask
        requires { actor < actors self.old }
        ensures { Asks self.old actor Intent result self.new }
    {
        match self.other_owner(actor) {
            Some(holder) => Ask::Held(holder),
            None => {
                self.intent = Some(actor);
                Ask::Granted
            }
        }
    }

    /// Asks for exclusive, of the holder of intent. It is refused only by another that holds shared. The cost grows with
    /// the number of actors.
    pub fn exclusive(&mut self, actor: u8) -> Ask
        requires { Holds self.old actor Intent }
        ensures answer { Asks self.old actor Exclusive result self.new }
        ensures reader { (holder : ℕ) → result ≡ Ask.Held holder → IsOther self.old actor Shared
            holder }
    {
        match self.other_reader(actor) {
            Some(holder) => Ask::Held(holder),
            None => {
                self.exclusive = true;
                Ask::Granted
            }
        }
    }

    /// Ends an exclusive use: the actor holds intent from now on, and shared where it did, and the sequence rises.
    pub fn lower(&mut self, actor: u8)
        requires { Holds self.old actor Exclusive }
        ensures { Lowers self.old self.new }
    {
        self.exclusive = false;
        self.sequence = self.sequence.saturating_add(1);
    }

    /// The actor holds nothing from now on. Where it held exclusive, the sequence rises.
    pub fn release(&mut self, actor: u8)
        requires { actor < actors self.old }
        ensures { Releases self.old actor self.new }
    {
        self.shared[actor as usize] = false;
        if self.intent != Some(actor) {
            return;
        }
        self.intent = None;
        self.sequence = self.sequence.saturating_add(self.exclusive as u64);
        self.exclusive = false;
    }

    /// A number that rises as an exclusive use ends. Who finds it as it was before knows that what it read then still
    /// holds. At 2^64 - 1, which no volume lives to see, it stands still.
    pub fn seq(&self) -> u64
        ensures { result ≡ self.now.sequence }
    {
        self.sequence
    }

    /// For how many actors it is.
    pub fn count(&self) -> u8
        ensures { result ≡ actors self.now }
    {
        self.shared.len() as u8
    }

    /// Whether the actor holds any mode.
    pub fn is_held_by(&self, actor: u8) -> bool
        requires { actor < actors self.now }
        ensures { IsTrue result ↔ HoldsSome self.now actor }
    {
        self.intent == Some(actor) || self.shared[actor as usize]
    }

    /// Whether the actor holds intent.
    pub fn has_intent(&self, actor: u8) -> bool
        ensures { IsTrue result ↔ Holds self.now actor Intent }
    {
        self.intent == Some(actor)
    }

    /// Whether the actor holds exclusive.
    pub fn has_exclusive(&self, actor: u8) -> bool
        ensures { IsTrue result ↔ Holds self.now actor Exclusive }
    {
        self.exclusive && self.intent == Some(actor)
    }

    /// Whether nobody holds any mode. The cost grows with the number of actors.
    pub fn is_free(&self) -> bool
        ensures free { IsTrue result → IsFree self.now }
        ensures held { result ≡ false → (holder : ℕ) × HoldsSome self.now holder }
    {
        match self.intent {
            Some(_holder) => false,
            None => !any_flag(&self.shared),
        }
    }

    /// Another actor that holds shared, if there is one. The cost grows with the number of actors.
    pub fn other_reader(&self, actor: u8) -> Option<u8>
        ensures some { IfSome result (λ holder. IsOther self.now actor Shared holder) }
        ensures none { IfNone result ((holder : ℕ) → IsOther self.now actor Shared holder → ⊥) }
    {
        other_flag(&self.shared, actor)
    }

    /// Another actor that holds any mode, if there is one. The cost grows with the number of actors.
    pub fn other_holder(&self, actor: u8) -> Option<u8>
        ensures some { IfSome result (λ holder. (holder ≢ actor) × HoldsSome self.now holder) }
        ensures none { IfNone result ((holder : ℕ) (mode : Mode) → IsOther self.now actor mode
            holder → ⊥) }
    {
        match self.other_owner(actor) {
            Some(holder) => Some(holder),
            None => self.other_reader(actor),
        }
    }

    /// A law of every lock, whatever was called before: the modes that are granted are compatible.
    pub fn is_compatible(&self)
        ensures { IsCompatible self.now }
    {
        let _ = &self.shared;
    }

    // The other actor that holds intent.
    fn other_owner(&self, actor: u8) -> Option<u8>
        ensures some { IfSome result (λ holder. IsOther self.now actor Intent holder) }
        ensures none { IfNone result ((holder : ℕ) → IsOther self.now actor Intent holder → ⊥) }
    {
        match self.intent {
            Some(holder) if holder != actor => Some(holder),
            _ => None,
        }
    }
}

// Another place than the actor's whose flag is set.
fn other_flag(flags: &[bool], actor: u8) -> Option<u8>
    requires { length flags.now < 2 ^ 8 }
    ensures some { IfSome result (λ place. (place ≢ actor)
        × (slice_get flags.now place ≡ Some true)) }
    ensures none { IfNone result ((place : ℕ) → slice_get flags.now place ≡ Some true
        → place ≡ actor) }
{
    for (place, flag) in flags.iter().enumerate() {
        if *flag && place != actor as usize {
            return Some(place as u8);
        }
    }
    None
}

// Whether a flag is set.
fn any_flag(flags: &[bool]) -> bool
    ensures yes { IsTrue result → (place : ℕ) × (slice_get flags.now place ≡ Some true) }
    ensures no { result ≡ false → (place : ℕ) → slice_get flags.now place ≡ Some true → ⊥ }
{
    for flag in flags {
        if *flag {
            return true;
        }
    }
    false
}
