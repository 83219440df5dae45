ghost use Rattle.std.specs.Prelude.{◌≡◌, option_copied};

use vol_types::{Key, Pos, Update, Value};

/// What is done to one position: a value is put there, or the one that is there is taken away.
pub trait Change {
    ghost use Rattle.vol_types.specs.declared.keys.Key.{Key as AKey};

    /// The change as a key, which has no value where it takes one away.
    ghost key: { Self → AKey };

    /// The position that is changed.
    fn pos(&self) -> &Pos
        ensures { result.now ≡ (key self.now).pos };

    /// The value that is put, or none where one is taken away.
    fn value(&self) -> Option<&Value>
        ensures { option_copied result ≡ (key self.now).value };
}

impl Change for Key {
    ghost key = { λ key. key };

    fn pos(&self) -> &Pos {
        &self.pos
    }

    fn value(&self) -> Option<&Value> {
        self.value.as_ref()
    }
}

impl Change for Update {
    ghost key = { λ update. record { pos = update.pos; value = update.value } };

    fn pos(&self) -> &Pos {
        &self.pos
    }

    fn value(&self) -> Option<&Value> {
        self.value.as_ref()
    }
}
