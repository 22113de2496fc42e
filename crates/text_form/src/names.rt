// What a line can name, for sentences.
ghost use Rattle.std.specs.Prelude.{◌≡◌, ◌≤◌, [], map, length};
ghost use Rattle.text_form.specs.Lists.{most_names, told, with_word};

use crate::named::NAMES;
use crate::reader::{Fields, Slot};
use arrayvec::ArrayVec;
use std::marker::Model;
use text::Fault;
use text_words::{Argument, Kind};

#[derive(Drop)]
pub struct Names {
    words: ArrayVec<&'static [u8], NAMES>,
}

// Clauses see the words as a list.
impl Model for Names {
    ghost use Rattle.std.specs.Prelude.{◌≤◌, ℕ, List, map, length};
    ghost use Rattle.text_form.specs.Lists.{most_names};

    ghost Value = { List (List ℕ) };

    ghost view = { λ a. map (λ w. w.now) a.words.items };

    ghost invariant = { λ a. length a.words.items ≤ most_names };
}

impl Names {
    // No words yet.
    pub fn new() -> Names
        ensures { result ≡ [] }
    {
        Names {
            words: ArrayVec::new(),
        }
    }

    // One word more; where there are NAMES nothing changes.
    pub fn push(&mut self, word: &'static [u8])
        ensures { self.new ≡ with_word self.old word.now }
    {
        let _ = self.words.try_push(word);
    }

    // The words so far.
    pub fn words(&self) -> &[&'static [u8]]
        ensures value { map (λ w. w.now) result.now ≡ self.now }
        ensures room { length result.now ≤ most_names }
    {
        self.words.as_slice()
    }

    // Those of the arguments that have names, and both words of a choice.
    pub fn of(arguments: &[Argument]) -> Names
        ensures { result ≡ told [] arguments.now }
    {
        let mut names = Names::new();
        for a in arguments {
            if a.by_place() {
                continue;
            }
            if let Kind::Choice(words) = a.kind {
                names.push(words.one);
                names.push(words.zero);
            } else {
                names.push(a.name);
            }
        }
        names
    }
}

impl Fields for Names {
    ghost line = { λ _. [] };

    fn field(&mut self, name: &'static [u8], _slot: Slot<'_>) -> Result<(), Fault> {
        self.push(name);
        Ok(())
    }
}
