//! The lines of a design, by their first words.
ghost use Rattle.design.specs.Keywords.{CommandRead};

use std::str::FromStr;

/// What a line does.
#[derive(Clone, Copy, PartialEq, Eq)]
pub enum Command {
    Layout,
    Find,
    Number,
    Place,
    Open,
    Block,
    Close,
    Value,
    From,
    Trans,
    Binary,
    Fn,
}

/// A word that names no command.
#[derive(Clone, Copy, PartialEq, Eq)]
pub struct UnknownCommand;

impl FromStr for Command {
    type Err = UnknownCommand;

    ghost from_str_gives = { CommandRead };

    fn from_str(word: &str) -> Result<Command, UnknownCommand> {
        match word {
            "layout" => Ok(Command::Layout),
            "find" => Ok(Command::Find),
            "number" => Ok(Command::Number),
            "place" => Ok(Command::Place),
            "open" => Ok(Command::Open),
            "block" => Ok(Command::Block),
            "close" => Ok(Command::Close),
            "value" => Ok(Command::Value),
            "from" => Ok(Command::From),
            "trans" => Ok(Command::Trans),
            "binary" => Ok(Command::Binary),
            "fn" => Ok(Command::Fn),
            _ => Err(UnknownCommand),
        }
    }
}
