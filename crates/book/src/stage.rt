// The phase of a book, as a type: a book offers only the calls of its phase.
ghost use Rattle.rules.specs.declared.calls.Phase.{Phase as PhaseOf};
ghost use Rattle.rules.specs.declared.calls.Phase.TheVariants.{PreOpen, Open};

pub trait Stage {
    ghost phase: { PhaseOf };
}

#[derive(Clone, Copy)]
pub struct Waiting;

#[derive(Clone, Copy)]
pub struct Trading;

impl Stage for Waiting {
    ghost phase = { PreOpen };
}

impl Stage for Trading {
    ghost phase = { Open };
}
