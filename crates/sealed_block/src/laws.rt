ghost use Rattle.std.specs.Prelude.{◌≡◌, List, ℕ, Some, length};
ghost use Rattle.sealed_block.specs.declared.heads.Head.{Head as AHead};
ghost use Rattle.sealed_block.specs.Blocks.{AreBytes, Opens};
ghost use Rattle.sealed_block.specs.Opening.{opened, payload_in};

/// What is sealed opens again, with its head and its payload.
pub fn sealed_blocks_open()
    ensures head { (block : List ℕ) (h : AHead) (payload : List ℕ) → Opens block h payload
        → opened block ≡ Some h }
    ensures payload { (block : List ℕ) (h : AHead) (payload : List ℕ) → Opens block h payload
        → payload_in block ≡ payload }
    ensures size { (block : List ℕ) (h : AHead) (payload : List ℕ) → Opens block h payload
        → length block ≡ 4096 }
    ensures bytes { (block : List ℕ) (h : AHead) (payload : List ℕ) → Opens block h payload
        → AreBytes block }
{}

/// What opens is sealed.
pub fn opened_blocks_are_sealed()
    ensures { (block : List ℕ) (h : AHead) → opened block ≡ Some h
        → Opens block h (payload_in block) }
{}

/// A block has one head and one payload.
pub fn one_encoding()
    ensures { (block : List ℕ) (h g : AHead) (payload other : List ℕ) → Opens block h payload
        → Opens block g other → (h ≡ g) × (payload ≡ other) }
{}
