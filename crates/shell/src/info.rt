ghost use Rattle.std.specs.Prelude.{IfErr, IfOk};
ghost use Rattle.dev_model.specs.Frames.{AreOnlyRead};
ghost use Rattle.shell.specs.Informing.{IsInfoText};
ghost use Rattle.shell.specs.Mounts.{InfoCause};

use crate::early_end::EarlyEnd;
use dev_model::Devices;
use std::alloc::Global;
use vol_info::{facts_text, read_facts};
use vol_types::Bytes;

/// The lines of what is found on the devices, which are only read. It costs what `read_facts` does.
pub fn info_text<D: Devices>(alloc: Global, devices: &mut D) -> Result<Bytes, EarlyEnd>
    ensures text { IfOk result (λ text. IsInfoText D.tells text (D.state devices.old)
        (D.state devices.new)) }
    ensures cause { IfErr result (InfoCause D.tells (D.state devices.old) (D.state devices.new)) }
    ensures read { AreOnlyRead D.tells (D.state devices.old) (D.state devices.new) }
{
    let facts = read_facts(alloc, devices)?;
    let text = facts_text(alloc, &facts);
    drop(facts);
    match text {
        Ok(text) => Ok(text),
        Err(_) => Err(EarlyEnd::OutOfMemory),
    }
}
