// Why a problem declines what it is asked.
ghost use Rattle.std.specs.Prelude.{◌≡◌};
ghost use Rattle.layout.specs.declared.fault.ProblemFault.TheVariants.{Scale as of_scale};
ghost use Rattle.layout.specs.Numbers.{problem_number};

use scale::ScaleFault;

#[derive(Clone, Copy)]
pub enum ProblemFault {
    // A store has another length than a solve fills.
    StoreLength,
    // A domain size is not 1 to 16.
    DomainSize,
    // There are 64 variables already.
    ManyVariables,
    // A scope's size is not 1 to 4.
    ScopeSize,
    // A scope has a variable that is not there.
    UnknownVariable,
    // A scope has a variable twice.
    RepeatedVariable,
    // There are 64 functions already.
    ManyFunctions,
    // A table would have over 1,024 words, or all tables over 4,096.
    TableSize,
    // There is no such function.
    NoFunction,
    // The index is past the table.
    NoIndex,
    // There are no variables to plan for.
    NoVariables,
    // The links form a cycle.
    HasCycle,
    // No report stands.
    NoReport,
    // A list has not one value for each variable.
    ListLength,
    // A value is outside its variable's domain.
    NoValue,
    // The function has no such place.
    NoPlace,
    // The scale declines a word.
    Scale(ScaleFault),
}

impl From<ScaleFault> for ProblemFault {
    ghost from_gives = { λ f r. r ≡ of_scale f };

    fn from(cause: ScaleFault) -> ProblemFault {
        ProblemFault::Scale(cause)
    }
}

impl ProblemFault {
    // The number that a user reads; a refusal of the scale keeps its own.
    pub fn number(self) -> u16
        ensures { result ≡ problem_number self }
    {
        match self {
            ProblemFault::StoreLength => 1,
            ProblemFault::DomainSize => 2,
            ProblemFault::ManyVariables => 3,
            ProblemFault::ScopeSize => 4,
            ProblemFault::UnknownVariable => 5,
            ProblemFault::RepeatedVariable => 6,
            ProblemFault::ManyFunctions => 7,
            ProblemFault::TableSize => 8,
            ProblemFault::NoFunction => 9,
            ProblemFault::NoIndex => 10,
            ProblemFault::NoVariables => 12,
            ProblemFault::HasCycle => 13,
            ProblemFault::NoReport => 14,
            ProblemFault::ListLength => 15,
            ProblemFault::NoValue => 16,
            ProblemFault::NoPlace => 17,
            ProblemFault::Scale(fault) => fault.number(),
        }
    }
}
