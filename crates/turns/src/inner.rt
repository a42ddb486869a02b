// What turns can reach.
ghost use Rattle.list.specs.Slots.{Calm};
ghost use Rattle.model.specs.Order.{Listed};

use kinds::Errands;
use loop_handle::LoopHandle;

pub struct LoopInner<P, C, S> {
    pub handle: LoopHandle<P, C, S>,
    // what the source of the last turn asked for; nothing of it is done yet
    pub errands: Errands,
    // no source is being handled, and each lifecycle entry fits; either may be false within a turn, which works on the fields
    ghost calm: { Calm handle.sources },
    ghost listed: { Listed handle.sources handle.registry.lifecycle },
}
