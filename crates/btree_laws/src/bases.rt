ghost use Rattle.std.specs.Prelude.{◌≡◌, ℕ, length, map};
ghost use Rattle.dev_model.specs.Crashes.{SameBut};
ghost use Rattle.dev_model.specs.Disk.{Image};
ghost use Rattle.image_view.specs.Bases.{AgreeAt, AgreeOnBase};
ghost use Rattle.image_view.specs.Found.{Found};
ghost use Rattle.btree_laws.specs.BasePlaces.{IsElsewhere, IsOfBase};

/// Two images of equal lengths agree on the base of what was found exactly where they agree at its places, and so do images that differ
/// elsewhere alone.
pub fn bases_are_places()
    ensures agree { (f : Found) (one other : Image)
        → map (λ blocks. length blocks) one ≡ map (λ blocks. length blocks) other
        → ((dev block : ℕ) → IsOfBase f dev block → AgreeAt one other dev block)
        → AgreeOnBase f one other }
    ensures each { (f : Found) (one other : Image) → AgreeOnBase f one other → (dev block : ℕ)
        → IsOfBase f dev block → AgreeAt one other dev block }
    ensures elsewhere { (f : Found) (one other : Image)
        → map (λ blocks. length blocks) one ≡ map (λ blocks. length blocks) other
        → SameBut (IsElsewhere f) one other → AgreeOnBase f one other }
{}
