// Demand 3 by name: a run keeps to the words lent to it. The statements are in specs/Demand3.antt, over the machine that the promise of `calls::call` cites.
#![tactic(auto)]

ghost use Rattle.fence.specs.Demand3.{Isolated};

// It does nothing: its promise is the theorem, so that a check names it and a crate above can cite it by a call.
pub fn isolation()
    ensures { Isolated }
{}
