// The examples of docs/ELIMINATION.md and docs/RATINGS.md. The call here does nothing: its contract is the statement.
ghost use Rattle.theorems.specs.Examples.{Examples};

// Each example is as these pages tell it.
pub fn examples_say_so()
    ensures { Examples }
{}
