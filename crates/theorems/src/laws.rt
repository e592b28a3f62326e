// Elimination as an equation in pseudo-Boolean functions. The call here does nothing: its contract is the statement.
ghost use Rattle.theorems.specs.Equation.{PenaltiesSay, SlackSays, WholeSays, LinksSay, SplitsSay, StepsSay, StagesSay, LastSays, BytesSay, CodesSay, GeneralSays, LinearSays, EqualitySays};

// Every rule and pin has a penalty, and a line-up is lawful exactly where their sum is 0. Eliminated from the highest spot down, the sum leaves
// at each stage a function of the lower spots that is 0 exactly where they extend to a lawful line-up, and in each cell the most general
// solution for its spot.
pub fn elimination_says_so()
    ensures penalties { PenaltiesSay }
    ensures slack { SlackSays }
    ensures whole { WholeSays }
    ensures links { LinksSay }
    ensures splits { SplitsSay }
    ensures steps { StepsSay }
    ensures stages { StagesSay }
    ensures last { LastSays }
    ensures bytes { BytesSay }
    ensures codes { CodesSay }
    ensures general { GeneralSays }
    ensures linear { LinearSays }
    ensures equality { EqualitySays }
{}
