ghost use Rattle.std.specs.Prelude.{◌≡◌};
ghost use Rattle.forest_ops.specs.Refusals.{refused_if};

use crate::Cause;

/// A refusal where the test holds.
pub fn refuse_if(test: bool, cause: Cause) -> Result<(), Cause>
    ensures { result ≡ refused_if test cause }
{
    if test { Err(cause) } else { Ok(()) }
}
