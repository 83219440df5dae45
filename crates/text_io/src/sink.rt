ghost use Rattle.std.specs.Prelude.{◌≡◌, ◌<◌, ◌≤◌, ◌++◌, ℕ, List, length, take, IfOk, OnOk, OnErr};
ghost use Rattle.vol_types.specs.Faults.{CountsFaults};
ghost use Rattle.text_io.specs.Streams.{AreGivenAt, GivesPrefix};

use dev_model::Devices;
use vol_types::Failed;

/// Where bytes go to, beside devices of one type. Who gives bytes shows these devices: their moment then is that of the
/// bytes, so that what a sink holds tells whether it was given before or after a call of a device. A function that is
/// generic in the type has no other devices of it to show than those that it was handed.
pub trait Sink<D: Devices> {
    /// It tells which bytes it holds, or not.
    ghost tells: { Type 0 };

    /// The bytes that it holds. They mean something only where they are told.
    ghost held: { Self → List ℕ };

    /// For each byte that it holds the moment of the devices at which it was given.
    ghost given_at: { Self → List ℕ };

    /// How many calls have failed. The count stands still at its end.
    ghost faults: { Self → ℕ };

    /// Adds the first bytes of the piece to what it holds, at least one where the piece isn't empty, and says how
    /// many. A sink goes on after a failure.
    fn give(&mut self, from: &[u8], devices: &D) -> Result<usize, Failed>
        ensures count { IfOk result (λ n. n ≤ length from.now) }
        ensures progress { IfOk result (λ n. 0 < length from.now → 1 ≤ n) }
        ensures bytes { tells → IfOk result (λ n. held self.new ≡ held self.old ++ take n from.now) }
        ensures failed { tells → OnErr result (held self.new ≡ held self.old) }
        ensures moment { tells → AreGivenAt (D.state devices.now).moment (held self.old)
            (held self.new) (given_at self.old) (given_at self.new) }
        ensures cause { CountsFaults result (faults self.old) (faults self.new) };
}

/// Gives all the bytes to the sink. After a failure it holds the first of them, up to the call that failed. It takes
/// no memory.
pub fn give_all<K: Sink<D>, D: Devices>(
    sink: &mut K,
    bytes: &[u8],
    devices: &D,
) -> Result<(), Failed>
    ensures ok { K.tells → OnOk result (K.held sink.new ≡ K.held sink.old ++ bytes.now) }
    ensures failed { K.tells → OnErr result (GivesPrefix bytes.now (K.held sink.old)
        (K.held sink.new)) }
    ensures moment { K.tells → AreGivenAt (D.state devices.now).moment (K.held sink.old)
        (K.held sink.new) (K.given_at sink.old) (K.given_at sink.new) }
    ensures cause { CountsFaults result (K.faults sink.old) (K.faults sink.new) }
{
    let mut given = 0;
    while given < bytes.len() {
        given += sink.give(&bytes[given..], devices)?;
    }
    Ok(())
}
