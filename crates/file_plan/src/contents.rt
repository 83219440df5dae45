ghost use Rattle.std.specs.Prelude.{◌≡◌, ◌≤◌, ◌++◌, ◌∷◌, [], ℕ, length, IfOk, IfErr, OnOk, OnErr};
ghost use Rattle.file_plan.specs.BlockIo.{ArePlacesOf, AreReserved, places_of, with_read, with_reserved, with_written};
ghost use Rattle.file_plan.specs.declared.block_io.BlockIo.{BlockIo as AnIo};
ghost use Rattle.vol_digest.specs.Digests.{short_of};
ghost use Rattle.vol_types.specs.Limits.{block_size};

use key_view::{Hold, View};
use vol_types::{Bytes, Keys, Pointers, Query};

/// A view through which a plan also reads blocks of files, has places reserved for fresh ones, and writes these.
pub trait Contents: View {
    /// What was read, reserved and written through it.
    ghost io: { Self → AnIo };

    /// How many blocks the longest extent or hole of the volume has, or more, as the view was told.
    ghost most: { Self → ℕ };

    /// No extent or hole of the volume has more blocks than this, so that a look for blocks goes no further behind them: 16 on a
    /// volume without holes, at most 256 where this program alone wrote it, and 4,096 at most. It stays the same over the calls below.
    fn longest(&self) -> u64
        ensures { result ≡ most self.now };

    /// The keys that the query asks for. It is a look as `View` makes it, and leaves what is known of blocks.
    fn find(&mut self, query: &Query) -> Result<Keys, Hold>
        ensures ok { IfOk result (λ answer. Self.made self.new
            ≡ Self.made self.old ++ record { query = query.now; answer = answer } ∷ []) }
        ensures err { OnErr result (Self.made self.new ≡ Self.made self.old) }
        ensures ids { Self.told self.new ≡ Self.told self.old }
        ensures longest { most self.new ≡ most self.old }
        ensures io { io self.new ≡ io self.old }
        ensures cause { IfErr result (Self.held self.new) };

    /// A block of a file, from the first of its places that gives bytes with the digest that is wanted. `number` is the block's
    /// number in its file, and only told where it is lost.
    fn block(&mut self, number: u64, places: &Pointers, want: u64) -> Result<Bytes, Hold>
        ensures ok { IfOk result (λ bytes. io self.new ≡ with_read (record {
          places = places_of places.now;
          digest = want;
          bytes = bytes;
        }) (io self.old)) }
        ensures size { IfOk result (λ bytes. length bytes ≡ block_size) }
        ensures digest { IfOk result (λ bytes. short_of bytes ≡ want) }
        ensures err { OnErr result (io self.new ≡ io self.old) }
        ensures looks { Self.made self.new ≡ Self.made self.old }
        ensures ids { Self.told self.new ≡ Self.told self.old }
        ensures longest { most self.new ≡ most self.old }
        ensures cause { IfErr result (Self.held self.new) };

    /// Reserves places for so many fresh blocks of one extent, behind a pointer for each copy.
    fn room(&mut self, blocks: u8) -> Result<Pointers, Hold>
        requires { (1 ≤ blocks) × (blocks ≤ 16) }
        ensures ok { IfOk result (λ pointers. io self.new
            ≡ with_reserved (record { pointers = pointers; blocks = blocks }) (io self.old)) }
        ensures places { IfOk result (ArePlacesOf blocks) }
        ensures err { OnErr result (io self.new ≡ io self.old) }
        ensures looks { Self.made self.new ≡ Self.made self.old }
        ensures ids { Self.told self.new ≡ Self.told self.old }
        ensures longest { most self.new ≡ most self.old }
        ensures cause { IfErr result (Self.held self.new) };

    /// Writes a block at all its places, which were reserved through this view.
    fn put(&mut self, places: &Pointers, block: &Bytes) -> Result<(), Hold>
        requires size { length block.now ≡ block_size }
        requires reserved { AreReserved (io self.old).reserved (places_of places.now) }
        ensures ok { OnOk result (io self.new ≡ with_written (record {
          places = places_of places.now;
          digest = short_of block.now;
          bytes = block.now;
        }) (io self.old)) }
        ensures err { OnErr result (io self.new ≡ io self.old) }
        ensures looks { Self.made self.new ≡ Self.made self.old }
        ensures ids { Self.told self.new ≡ Self.told self.old }
        ensures longest { most self.new ≡ most self.old }
        ensures cause { IfErr result (Self.held self.new) };
}
