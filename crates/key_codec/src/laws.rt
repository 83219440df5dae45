ghost use Rattle.std.specs.Prelude.{◌≡◌, ◌++◌, ℕ, List, Option, length};
ghost use Rattle.vol_types.specs.Lengths.{key_length_of};
ghost use Rattle.vol_types.specs.declared.positions.Pos.{Pos};
ghost use Rattle.vol_types.specs.declared.values.Value.{Value};
ghost use Rattle.key_codec.specs.Exact.{IsExact};
ghost use Rattle.key_codec.specs.Keys.{IsKey, encoding, key_format};

/// What is read is a key and is encoded so. What is encoded so is read, whatever follows it. A encoding that is cut is
/// too short. A fault but `Short` stays the first one, whatever follows the bytes.
pub fn keys_are_exact()
    ensures { IsExact (λ key. IsKey key.pos key.value) key_format }
{}

/// No encoding is another one's, nor the beginning of another one.
pub fn one_encoding()
    ensures { (pos other_pos : Pos) (value other_value : Option Value) (rest other_rest : List ℕ)
        → IsKey pos value → IsKey other_pos other_value → encoding pos value ++ rest ≡ encoding
        other_pos other_value ++ other_rest → (pos ≡ other_pos) × (value ≡ other_value)
        × (rest ≡ other_rest) }
{}

/// A key takes as many bytes as `vol_types` says.
pub fn key_lengths()
    ensures { (pos : Pos) (value : Option Value) → length (encoding pos value) ≡ key_length_of value }
{}
