//! A design, read from its text.
ghost use Rattle.std.specs.Prelude.{◌≡◌, ℕ, List, IfOk, OnOk};
ghost use Rattle.design.specs.Designs.{contents, nothing, uncommented as code_of, Asked, LayoutAdded, QuestionAdded, LineAdded, DesignSaid};
ghost use Rattle.design.specs.Lines.{unread};

use crate::ask::{Ask, Lookup, Question};
use crate::command::{Command, UnknownCommand};
use crate::fault::{Expected, Fault, Odd, What};
use crate::layout_line::{LayoutLine, read_layout};
use crate::question_line::{read_lookup, read_pair, read_translation};
use crate::words::Words;
use std::alloc::Global;

/// The layouts and questions of a design, each in the order of their lines.
#[derive(Drop)]
pub struct Design<'a> {
    pub layouts: Vec<LayoutLine>,
    /// The entries of the places of sparse layouts.
    pub pool: Vec<u16>,
    pub questions: Vec<Question<'a>>,
}

/// A line without its comment.
fn uncommented(line: &str) -> &str
    ensures { result.now ≡ code_of line.now }
{
    match line.split_once('#') {
        Some((text, _)) => text,
        None => line,
    }
}

/// Reads a question after its first word, `word`, which names `command`.
fn read_ask<'a>(
    heap: Global,
    words: &mut Words<'a>,
    word: &'a str,
    command: Command,
) -> Result<Ask, Fault<'a>>
    ensures { IfOk result (Asked command (unread words.old)) }
{
    match command {
        Command::Find => read_lookup(heap, words, Lookup::Wide),
        Command::Number => read_lookup(heap, words, Lookup::Strict),
        Command::Place => {
            let (layout, number) = read_pair(words, Expected::Layout, Expected::Place)?;
            Ok(Ask::Place { layout, number })
        }
        Command::From => {
            let (source, via) = read_pair(words, Expected::Layout, Expected::Layout)?;
            Ok(Ask::From { source, via })
        }
        Command::Trans => read_translation(heap, words),
        _ => Err(words.fault(What::Word(word, Odd::Unread), Expected::Command)),
    }
}

impl<'a> Design<'a> {
    /// A design with no lines.
    pub fn new(heap: Global) -> Design<'a>
        ensures { contents result ≡ nothing }
    {
        Design {
            layouts: Vec::new(heap),
            pool: Vec::new(heap),
            questions: Vec::new(heap),
        }
    }

    fn add_layout(
        &mut self,
        heap: Global,
        line: usize,
        words: &mut Words<'a>,
    ) -> Result<(), Fault<'a>>
        ensures { OnOk result (LayoutAdded line (unread words.old) (contents self.old) (contents self.new)) }
    {
        let layout = read_layout(heap, words, &mut self.pool)?;
        self.layouts.push(LayoutLine { line, layout })?;
        Ok(())
    }

    fn add_question(&mut self, line: usize, text: &'a str, ask: Ask) -> Result<(), Fault<'a>>
        ensures { OnOk result (((ws : List (List ℕ)) (c : Command) → Asked c ws ask → QuestionAdded line text.now c ws (contents self.old) (contents self.new))) }
    {
        self.questions.push(Question { line, text, ask })?;
        Ok(())
    }

    /// Adds what a line says.
    pub fn add_line(&mut self, heap: Global, line: usize, text: &'a str) -> Result<(), Fault<'a>>
        ensures { OnOk result (LineAdded line text.now (contents self.old) (contents self.new)) }
    {
        let mut words = Words::new(line, text);
        let Some(word) = words.next_word() else {
            return Ok(());
        };
        match word.parse::<Command>() {
            Ok(Command::Layout) => self.add_layout(heap, line, &mut words),
            Ok(command) => {
                let ask = read_ask(heap, &mut words, word, command)?;
                self.add_question(line, text, ask)
            }
            Err(UnknownCommand) => Err(words.fault(
                What::Word(word, Odd::Unknown),
                Expected::Command,
            )),
        }
    }
}

/// Reads the text of a design.
pub fn read_design<'a>(heap: Global, text: &'a str) -> Result<Design<'a>, Fault<'a>>
    ensures { IfOk result (DesignSaid text.now) }
{
    let mut design = Design::new(heap);
    for (n, line) in text.lines().enumerate() {
        design.add_line(heap, n + 1, uncommented(line))?;
    }
    Ok(design)
}
