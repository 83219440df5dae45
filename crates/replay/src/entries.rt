ghost use Rattle.std.specs.Prelude.{◌≡◌};
ghost use Rattle.image_reader.specs.Volumes.{last_of};
ghost use Rattle.replay.specs.Volumes.{first_of};

use crate::Loaded;
use journal_ring::FoundEntry;
use vol_types::NodePtr;

impl Loaded {
    /// The newest entry.
    pub fn newest(&self) -> &FoundEntry
        ensures { result.now ≡ last_of self.now.needed }
    {
        match self.needed.last() {
            Some(newest) => newest,
            None => unreachable!(),
        }
    }

    /// The oldest of the entries that are needed.
    pub fn oldest(&self) -> &FoundEntry
        ensures { result.now ≡ first_of self.now.needed }
    {
        match self.needed.get(0) {
            Some(oldest) => oldest,
            None => unreachable!(),
        }
    }

    /// How many commits there were since the volume was formatted.
    pub fn commits(&self) -> u64
        ensures { result ≡ (last_of self.now.needed).entry.commits }
    {
        self.newest().entry.commits
    }

    /// The journal block number behind the newest entry, at which the next one may begin.
    pub fn next_number(&self) -> u64
        ensures { result ≡ (last_of self.now.needed).end }
    {
        self.newest().end
    }

    /// The journal block number of part 0 of the oldest needed entry.
    pub fn first_number(&self) -> u64
        ensures { result ≡ (first_of self.now.needed).number }
    {
        self.oldest().number
    }

    /// The root of each btree as the newest entry has it, in the order of the btrees' numbers.
    pub fn roots(&self) -> &[NodePtr]
        ensures { result.now ≡ (last_of self.now.needed).entry.roots }
    {
        self.newest().entry.roots.as_slice()
    }
}
