ghost use Rattle.std.specs.Prelude.{◌≡◌, Some, IfSome, MatchOption};
ghost use Rattle.refusal_notes.specs.Calls.{IsGivenBy, command_of, has_argument};

mod words;

use command_line::CommandName;
pub(crate) use words::add_words;

/// The words of a call as those of its command.
#[derive(Clone, Copy)]
pub(crate) struct Call<'a> {
    pub name: &'a str,
    pub command: CommandName,
    /// Those behind the name.
    pub words: &'a [String],
}

/// Whether a word is an option. A value that stands behind one isn't.
fn is_option(word: &str) -> bool {
    word.starts_with("--")
}

/// The name of an option, which may have its value behind `=`.
fn option_name(word: &str) -> &str {
    let option = word.strip_prefix("--").unwrap_or(word);
    match option.split_once('=') {
        Some((name, _)) => name,
        None => option,
    }
}

impl<'a> Call<'a> {
    /// `None` where the first word is no command's name.
    pub fn new(words: &'a [String]) -> Option<Call<'a>>
        ensures { MatchOption result (command_of words.now ≡ None)
            (λ call. command_of words.now ≡ Some call.command) }
    {
        let (name, words) = words.split_first()?;
        let name = name.as_str();
        let command = CommandName::asked(name, words)?;
        Some(Call {
            name,
            command,
            words,
        })
    }

    /// The word that stands for the argument of this number, from 0.
    fn argument(&self, number: usize) -> Option<&'a str>
        ensures { IfSome result (λ value. IsGivenBy self.now.words.now value.now) }
    {
        let mut left = number;
        let mut is_value = false;
        for word in self.words {
            let word = word.as_str();
            if is_option(word) {
                is_value = !word.contains('=') && !self.takes_flag(option_name(word));
            } else if is_value {
                is_value = false;
            } else if left == 0 {
                return Some(word);
            } else {
                left -= 1;
            }
        }
        None
    }

    /// The value of the option of this name.
    fn option(&self, name: &str) -> Option<&'a str>
        ensures { IfSome result (λ value. IsGivenBy self.now.words.now value.now) }
    {
        let mut is_value = false;
        for word in self.words {
            let word = word.as_str();
            if is_value {
                return Some(word);
            }
            if is_option(word) && option_name(word) == name {
                match word.split_once('=') {
                    Some((_, value)) => return Some(value),
                    None => is_value = true,
                }
            }
        }
        None
    }

    /// What is given for the argument or option of this name.
    pub fn given(&self, name: &str) -> Option<&'a str>
        ensures { IfSome result (λ value. IsGivenBy self.now.words.now value.now) }
    {
        let arguments = self.command.arguments();
        match arguments.iter().position(|argument| *argument == name) {
            Some(number) => self.argument(number),
            None => self.option(name),
        }
    }

    /// The name of the argument or option of this number, from 1: first the arguments.
    fn name_of(&self, number: u32) -> Option<&'static str> {
        let at = (number as usize).checked_sub(1)?;
        let arguments = self.command.arguments();
        let found = match at.checked_sub(arguments.len()) {
            Some(at) => self.command.options().get(at),
            None => arguments.get(at),
        };
        found.copied()
    }

    /// Whether the command has the argument of this name.
    pub fn takes(&self, argument: &str) -> bool
        ensures { result ≡ has_argument self.now.command argument.now }
    {
        self.command.arguments().contains(&argument)
    }

    /// Whether the command has the option of this name, with a value.
    fn takes_option(&self, name: &str) -> bool {
        self.command.options().contains(&name)
    }

    /// Whether the command has the option of this name, without a value.
    fn takes_flag(&self, name: &str) -> bool {
        self.command.flags().contains(&name)
    }
}
