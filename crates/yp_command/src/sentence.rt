//! The words of a sentence, each read once by its form.
//!
//! An error is the number of the first word that no sentence with the words before it has. It is the number of words
//! where they end too early.

ghost use Rattle.std.specs.Prelude.{◌≡◌, Some, option_map};
ghost use Rattle.yp_command.specs.Forms as forms;
ghost use Rattle.yp_command.specs.Words.{word, optional, end, texts, but_log, ends_in_log};
ghost use Rattle.yp_command.specs.inside.Words.{shown};

use crate::form;
use yp_binding::Policy;
use yp_io::Peer;

/// The words of the command line, numbered from 0.
#[derive(Clone, Copy)]
pub struct Words<'a> {
    pub words: &'a [String],
}

impl<'a> Words<'a> {
    /// The word with this number.
    pub fn word(self, at: usize) -> Result<&'a str, usize>
        ensures { shown (λ said. said.now) result ≡ word at (λ said. Some said) (texts self.entry.words.now) }
    {
        match self.words.get(at) {
            Some(word) => Ok(word.as_str()),
            None => Err(at),
        }
    }

    /// There is no word with this number.
    pub fn end(self, at: usize) -> Result<(), usize>
        ensures { result ≡ end at (texts self.entry.words.now) }
    {
        if self.words.len() <= at {
            Ok(())
        } else {
            Err(at)
        }
    }

    /// Whether the last word is `log`.
    pub fn ends_in_log(self) -> bool
        ensures { result ≡ ends_in_log (texts self.entry.words.now) }
    {
        match self.words.get(self.words.len().saturating_sub(1)) {
            Some(word) => word.as_str() == "log",
            None => false,
        }
    }

    /// The words, but for a last one that is `log`.
    pub fn but_log(self) -> Words<'a>
        ensures { texts result.words.now ≡ but_log (texts self.entry.words.now) }
    {
        if !self.ends_in_log() {
            return self;
        }
        let words = &self.words[..self.words.len().saturating_sub(1)];
        Words { words }
    }

    /// The word with this number, which is a name.
    pub fn name(self, at: usize) -> Result<&'a str, usize>
        ensures { shown (λ said. said.now) result ≡ word at forms.name (texts self.entry.words.now) }
    {
        form::name(self.word(at)?).ok_or(at)
    }

    /// The names of a domain and a map, of the word with this number.
    pub fn store(self, at: usize) -> Result<(&'a str, &'a str), usize>
        ensures { shown (λ said. (said.0.now, said.1.now)) result ≡ word at forms.store (texts self.entry.words.now) }
    {
        form::store(self.word(at)?).ok_or(at)
    }

    /// The same of a map with the name of a kind.
    pub fn kind_store(self, at: usize) -> Result<(&'a str, &'a str), usize>
        ensures { shown (λ said. (said.0.now, said.1.now)) result
            ≡ word at forms.kind_store (texts self.entry.words.now) }
    {
        form::kind_store(self.word(at)?).ok_or(at)
    }

    /// The same of a map of netgroups by users, or by hosts.
    pub fn reverse_store(self, at: usize) -> Result<(&'a str, &'a str), usize>
        ensures { shown (λ said. (said.0.now, said.1.now)) result
            ≡ word at forms.reverse_store (texts self.entry.words.now) }
    {
        form::reverse_store(self.word(at)?).ok_or(at)
    }

    /// The row that the word with this number is.
    pub fn pair(self, at: usize) -> Result<(&'a str, &'a str), usize>
        ensures { shown (λ said. (said.0.now, said.1.now)) result ≡ word at forms.pair (texts self.entry.words.now) }
    {
        form::pair(self.word(at)?).ok_or(at)
    }

    /// The number that the word says.
    pub fn number(self, at: usize) -> Result<u32, usize>
        ensures { result ≡ word at forms.number (texts self.entry.words.now) }
    {
        form::number(self.word(at)?).ok_or(at)
    }

    /// How many there are at most, by the word with this number.
    pub fn most(self, at: usize) -> Result<u64, usize>
        ensures { result ≡ word at forms.most (texts self.entry.words.now) }
    {
        form::most(self.word(at)?).ok_or(at)
    }

    /// The port that the word says.
    pub fn port(self, at: usize) -> Result<u16, usize>
        ensures { result ≡ word at forms.port (texts self.entry.words.now) }
    {
        form::port(self.word(at)?).ok_or(at)
    }

    /// How many slaves may be outstanding.
    pub fn window(self, at: usize) -> Result<u32, usize>
        ensures { result ≡ word at forms.window (texts self.entry.words.now) }
    {
        form::window(self.word(at)?).ok_or(at)
    }

    /// How many workers a server has.
    pub fn workers(self, at: usize) -> Result<u32, usize>
        ensures { result ≡ word at forms.workers (texts self.entry.words.now) }
    {
        form::workers(self.word(at)?).ok_or(at)
    }

    /// Who may bind a domain.
    pub fn policy(self, at: usize) -> Result<Policy, usize>
        ensures { result ≡ word at forms.policy (texts self.entry.words.now) }
    {
        form::policy(self.word(at)?).ok_or(at)
    }

    /// The address that the word says.
    pub fn address(self, at: usize) -> Result<Peer, usize>
        ensures { result ≡ word at forms.address (texts self.entry.words.now) }
    {
        form::address(self.word(at)?).ok_or(at)
    }

    /// The host that the word names, and its address.
    pub fn host(self, at: usize) -> Result<(&'a str, Peer), usize>
        ensures { shown (λ said. (said.0.now, said.1)) result ≡ word at forms.host (texts self.entry.words.now) }
    {
        form::host(self.word(at)?).ok_or(at)
    }

    /// A name that a server is asked for.
    pub fn text(self, at: usize) -> Result<&'a str, usize>
        ensures { shown (λ said. said.now) result ≡ word at forms.text (texts self.entry.words.now) }
    {
        form::text(self.word(at)?).ok_or(at)
    }

    /// A key that a server is asked for, or a group.
    pub fn key(self, at: usize) -> Result<&'a str, usize>
        ensures { shown (λ said. said.now) result ≡ word at forms.key (texts self.entry.words.now) }
    {
        form::key(self.word(at)?).ok_or(at)
    }

    /// Who may be in a group.
    pub fn member(self, at: usize) -> Result<Option<&'a str>, usize>
        ensures { shown (option_map (λ said. said.now)) result ≡ word at forms.member (texts self.entry.words.now) }
    {
        form::member(self.word(at)?).ok_or(at)
    }

    /// Whether a version is taken whatever its order is.
    pub fn mode(self, at: usize) -> Result<bool, usize>
        ensures { result ≡ word at forms.mode (texts self.entry.words.now) }
    {
        form::mode(self.word(at)?).ok_or(at)
    }

    /// Whether a version is secure, where the word with this number is there and says it.
    pub fn flag_if_any(self, at: usize) -> Result<Option<bool>, usize>
        ensures { result ≡ optional at forms.flag (texts self.entry.words.now) }
    {
        if self.words.len() <= at {
            return Ok(None);
        }
        Ok(Some(form::flag(self.word(at)?).ok_or(at)?))
    }
}
