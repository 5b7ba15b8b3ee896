// A line of a sitting.
ghost use Rattle.std.specs.Prelude.{◌≡◌, ◌==◌, cond, [], ◌∷◌, ◌++◌, length, IfOk, OnOk, Decides};
ghost use Rattle.std.specs.List.{slice_split};
ghost use Rattle.sittings.specs.Lines.{IsComment, is_blank, words, Parsed};
ghost use Rattle.sittings.specs.Spoken.{texts};

use crate::command::{Command, spoken};
use std::alloc::{AllocError, Global};

#[derive(Drop)]
pub enum Line<'a> {
    // Blank, or a comment.
    Passed,
    Command(Command<'a>),
    // No command.
    Unknown,
}

fn is_comment(text: &str) -> bool
    ensures { Decides result (IsComment text.now) }
{
    text.starts_with('#')
}

// A text cut at each blank.
fn pieces<'a>(alloc: Global, text: &'a str) -> Result<Vec<&'a str>, AllocError>
    ensures { IfOk result (λ v. texts v.items ≡ slice_split is_blank text.now) }
{
    text.split(' ').collect(alloc)
}

// One more word, unless a piece is empty.
fn keep<'a>(words: &mut Vec<&'a str>, piece: &'a str) -> Result<(), AllocError>
    ensures { OnOk result (texts words.new.items ≡ texts words.old.items ++ cond (length piece.now == 0) [] (piece.now ∷ [])) }
{
    if !piece.is_empty() {
        words.push(piece)?;
    }
    Ok(())
}

// What stands between blanks.
#[tactic(auto, using(crate::proofs::Filling::filled_more))]
fn words<'a>(alloc: Global, text: &'a str) -> Result<Vec<&'a str>, AllocError>
    ensures { IfOk result (λ v. texts v.items ≡ words text.now) }
{
    let pieces = pieces(alloc, text)?;
    let mut words = Vec::new(alloc);
    for piece in pieces.as_slice() {
        keep(&mut words, piece)?;
    }
    Ok(words)
}

fn parsed<'a>(alloc: Global, text: &'a str) -> Result<Line<'a>, AllocError>
    ensures { IfOk result (Parsed text.now) }
{
    if is_comment(text) {
        return Ok(Line::Passed);
    }
    let words = words(alloc, text)?;
    let [name, given @ ..] = words.as_slice() else {
        return Ok(Line::Passed);
    };
    Ok(match spoken(alloc, name, given)? {
        Some(command) => Line::Command(command),
        None => Line::Unknown,
    })
}

impl<'a> Line<'a> {
    // What a line says.
    pub fn parse(alloc: Global, text: &'a str) -> Result<Line<'a>, AllocError>
        ensures { IfOk result (Parsed text.now) }
    {
        parsed(alloc, text)
    }
}
