ghost use Rattle.std.specs.Prelude.{◌≡◌, ◌≤◌, IfOk, length};
ghost use Rattle.shell.specs.Outcome.{formatted_line};

use command_line::id_text;
use std::alloc::{AllocError, Global};
use vol_types::{Bytes, Layout};

/// The line that says that devices were formatted with this layout. It is made before they are, so that a run that is out of
/// memory for it leaves them as they are.
#[tactic(auto, unfolding(crate::specs::Outcome::formatted_line))]
pub fn formatted_line(alloc: Global, layout: &Layout) -> Result<Bytes, AllocError>
    requires { 1 ≤ length layout.now.blocks }
    ensures { IfOk result (λ line. line ≡ formatted_line layout.now) }
{
    let devices = layout.blocks.len();
    let blocks = layout.blocks.as_slice()[0];
    let journal = layout.journal;
    let rest = format!(in alloc; " devices {devices} blocks {blocks} journal {journal}\n")?;
    let mut line = Bytes::new(alloc);
    line.extend_from_slice(b"formatted ")?;
    line.extend_from_slice(&id_text(&layout.id))?;
    line.extend_from_slice(rest.as_bytes())?;
    Ok(line)
}
