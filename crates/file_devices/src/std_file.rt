ghost use Rattle.std.specs.Prelude.{[], true};
ghost use Rattle.dev_model.specs.Disk.{at_rest};

use crate::file::ImageFile;
use std::fs::{File, OpenFile};
use std::io::{self, Seek, SeekFrom};
use std::os::unix::fs::FileExt;
use vol_types::Failed;

/// A file of the system. It tells nothing: what a real file holds, and whether a call of the system did what it said, isn't proved.
impl ImageFile for File {
    ghost tells = { ⊥ };

    ghost state = { λ _. record { story = λ _. at_rest []; rest = 0; free = true; locked = true } };

    ghost sound = { λ told _ _ _. absurd told };

    fn take_lock(&mut self) -> bool {
        self.try_lock().is_ok()
    }

    fn length(&mut self) -> Result<u64, Failed> {
        self.seek(SeekFrom::End(0)).map_err(failed)
    }

    fn read_block(&mut self, into: &mut [u8], offset: u64, _moment: u64) -> Result<(), Failed> {
        self.read_exact_at(into, offset).map_err(failed)
    }

    fn write_block(&mut self, from: &[u8], offset: u64, _moment: u64) -> Result<(), Failed> {
        self.write_all_at(from, offset).map_err(failed)
    }

    fn flush_blocks(&mut self, _moment: u64) -> Result<(), Failed> {
        self.sync_data().map_err(failed)
    }

    fn cut(&mut self, bytes: u64, _moment: u64) -> Result<(), Failed> {
        self.set_len(bytes).map_err(failed)
    }

    fn lengthen(&mut self, bytes: u64, _moment: u64) -> Result<(), Failed> {
        self.set_len(bytes).map_err(failed)
    }
}

// Whatever the system answered.
fn failed(_error: io::Error) -> Failed {
    Failed
}
