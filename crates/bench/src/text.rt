// Text in pieces.
ghost use Rattle.std.specs.Prelude.{flat_map};
ghost use Rattle.bench.specs.Written.{Written};

use std::alloc::AllocError;

// Pushes one piece after another, up to the first for which there is no room: of what `write!` leaves at an
// error nothing is promised.
pub fn push_all(out: &mut String, pieces: &[&str]) -> Result<(), AllocError>
    ensures { Written (flat_map (λ piece. piece.now) pieces.now) out.old result out.new }
{
    for piece in pieces {
        out.push_str(piece)?;
    }
    Ok(())
}
