// A command, as the words of a line say it.
ghost use Rattle.std.specs.Prelude.{◌≡◌, ℕ, List, [], ◌∷◌, codes, IfOk, MatchOption};
ghost use Rattle.sittings.specs.Numbers.{AreNumbers};
ghost use Rattle.sittings.specs.Spoken.{texts, Means, MeansNothing, MeansAtMostNumbers, NumbersMeanNothing};

use crate::numbers::{number, numbers, word};
use crate::request::Request;
use std::alloc::{AllocError, Global};

#[derive(Drop)]
pub enum Command<'a> {
    // An empty problem in the scale of this code.
    Open(usize),
    // The problem of a file, and into a file.
    Read(&'a str),
    Write(&'a str),
    Ask(Request),
}

// The one word that is given.
fn only<'a>(given: &[&'a str]) -> Option<&'a str>
    ensures { MatchOption result ((w : List ℕ) → texts given.now ≡ w ∷ [] → ⊥) (λ w. texts given.now ≡ w.now ∷ []) }
{
    match given {
        [word] => Some(word),
        _ => None,
    }
}

// A request to which nothing is given.
fn bare<'a>(given: &[&str], request: Request) -> Option<Command<'a>>
    ensures { MatchOption result (texts given.now ≡ [] → ⊥) (λ c. (texts given.now ≡ []) × (c ≡ Command.Ask request)) }
{
    match given {
        [] => Some(Command::Ask(request)),
        _ => None,
    }
}

// The entry that a function, an index and a word say.
fn entry<'a>(function: &str, index: &str, text: &str) -> Option<Command<'a>>
    ensures { MatchOption result ((given : List (List ℕ)) → given ≡ function.now ∷ index.now ∷ text.now ∷ [] → MeansAtMostNumbers (codes "set") given) (λ c. (given : List (List ℕ)) → given ≡ function.now ∷ index.now ∷ text.now ∷ [] → Means (codes "set") given c) }
{
    Some(Command::Ask(Request::Set {
        function: number(function)?,
        index: number(index)?,
        word: word(text)?,
    }))
}

// The same, if just three words are given.
#[tactic(auto, using(crate::proofs::Sets::other_count, std::proofs::lemmas::Grind::common_steps))]
fn set<'a>(given: &[&str]) -> Option<Command<'a>>
    ensures { MatchOption result (MeansAtMostNumbers (codes "set") (texts given.now)) (Means (codes "set") (texts given.now)) }
{
    match given {
        [function, index, text] => entry(function, index, text),
        _ => None,
    }
}

// A command to which something else than numbers is given.
fn worded<'a>(name: &str, given: &[&'a str]) -> Option<Command<'a>>
    ensures { MatchOption result (MeansAtMostNumbers name.now (texts given.now)) (Means name.now (texts given.now)) }
{
    match name {
        "read" => Some(Command::Read(only(given)?)),
        "write" => Some(Command::Write(only(given)?)),
        "set" => set(given),
        "bounded" => bare(given, Request::Bounded),
        "straight" => bare(given, Request::Straight),
        "report" => bare(given, Request::Report),
        _ => None,
    }
}

// A command to which numbers are given.
fn numbered<'a>(name: &str, numbers: Vec<usize>) -> Option<Command<'a>>
    ensures { MatchOption result (NumbersMeanNothing name.now numbers.items) (λ c. (given : List (List ℕ)) → AreNumbers given numbers.items → Means name.now given c) }
{
    match (name, numbers.as_slice()) {
        ("open", [code]) => Some(Command::Open(*code)),
        ("variable", [size]) => Some(Command::Ask(Request::Variable(*size))),
        ("weight", [function, place]) => Some(Command::Ask(Request::Weight {
            function: *function,
            place: *place,
        })),
        ("function", _) => Some(Command::Ask(Request::Function(numbers))),
        ("score", _) => Some(Command::Ask(Request::Score(numbers))),
        _ => None,
    }
}

// The command that a name and what is given say, if any.
pub(crate) fn spoken<'a>(
    alloc: Global,
    name: &str,
    given: &[&'a str],
) -> Result<Option<Command<'a>>, AllocError>
    ensures { IfOk result (λ r. MatchOption r (MeansNothing name.now (texts given.now)) (Means name.now (texts given.now))) }
{
    if let Some(command) = worded(name, given) {
        return Ok(Some(command));
    }
    Ok(match numbers(alloc, given)? {
        Some(numbers) => numbered(name, numbers),
        None => None,
    })
}
